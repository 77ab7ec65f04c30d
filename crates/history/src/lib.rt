// The history of touches: what holds of every run of calls on a tracker. There is no code here. The calls are those of
// the crate gesture, answered as the contracts of its public functions say; the statement is in specs/, the proof in
// proofs/.
#![tactic(auto)]
