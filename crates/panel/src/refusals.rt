// Why a call is refused, and the documents' number for it. One enum serves every crate, so that a
// number means the same wherever it is seen. The numbers have gaps: a number of document 02 comes with
// the request that gives it a meaning.
ghost use Rattle.std.specs.Prelude.{◌≡◌};
ghost use Rattle.panel.specs.Refusals.{number_of};

#[derive(Clone, Copy, Debug, PartialEq, Eq)]
pub enum Refusal {
    // The tracker or its byte image breaks a rule of its state.
    State,
    // A point in use is off the panel.
    Panel,
    // A 32-bit value or sum does not fit.
    Wide,
    // More than 64 pairs in use, or more than 64 targets.
    Long,
    // A target is off the panel.
    Target,
    // Fewer than three pairs to fit.
    Few,
    // A coefficient is too large for Q16 steps.
    Huge,
    // A trace whose version is not known.
    Version,
    // A trace that ends inside a number or a record.
    Cut,
    // A number that is longer than its shortest form.
    Form,
    // A number over its field's maximum.
    Big,
    // A record of an unknown kind.
    Kind,
    // A trace of more than 65,536 bytes.
    File,
    // A record that is longer than the room lent for it.
    Room,
    // The taps are on one line, or too close together.
    Line,
    // The taps' calibration has a coefficient that is too large for Q16 steps.
    Steep,
}

// The number of a refusal. 0 is not among them: it says that a call was answered.
impl From<Refusal> for u8 {
    ghost from_gives = { λ why n. n ≡ number_of why };

    fn from(why: Refusal) -> u8 {
        match why {
            Refusal::State => 1,
            Refusal::Panel => 2,
            Refusal::Wide => 3,
            Refusal::Long => 4,
            Refusal::Target => 5,
            Refusal::Few => 6,
            Refusal::Huge => 7,
            Refusal::Version => 8,
            Refusal::Cut => 9,
            Refusal::Form => 10,
            Refusal::Big => 11,
            Refusal::Kind => 12,
            Refusal::File => 13,
            Refusal::Room => 14,
            Refusal::Line => 16,
            Refusal::Steep => 17,
        }
    }
}
