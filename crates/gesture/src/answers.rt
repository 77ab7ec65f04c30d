// What a call answers: a gesture and a log line, or why it was refused; and the tracker.
ghost use Rattle.std.specs.Prelude.{◌≡◌};
ghost use Rattle.gesture.specs.Answers as rule;
ghost use Rattle.gesture.specs.Answers.{given_by};

use crate::lines::Line;
use crate::record::Tracker;
use fingers::{Gesture, Outcome};
use panel::Refusal;

// What a call that is not refused tells.
#[derive(Clone, Copy)]
pub struct Response {
    pub gesture: Option<Gesture>,
    pub log: Option<Line>,
}

// What a call tells, and the tracker that it leaves.
#[derive(Clone, Copy)]
pub struct Answer {
    pub told: Result<Response, Refusal>,
    pub tracker: Tracker,
}

#[tactic(auto, unfolding(crate::specs::Answers::refused))]
pub(crate) fn refused(why: Refusal, t: Tracker) -> Answer
    ensures { result ≡ rule.refused why t }
{
    Answer {
        told: Err(why),
        tracker: t,
    }
}

#[tactic(auto, unfolding(crate::specs::Answers::answered))]
pub(crate) fn answered(gesture: Option<Gesture>, log: Option<Line>, t: Tracker) -> Answer
    ensures { result ≡ rule.answered gesture log t }
{
    Answer {
        told: Ok(Response { gesture, log }),
        tracker: t,
    }
}

#[tactic(auto, unfolding(crate::specs::Answers::given_by))]
pub(crate) fn given_by(out: Outcome) -> Option<Gesture>
    ensures { result ≡ given_by out }
{
    match out {
        Outcome::Quiet | Outcome::Noted(_) => None,
        Outcome::Gives(g) => Some(g),
    }
}
