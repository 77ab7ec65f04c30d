// The command that sets a calibration, DBG:TOUCH:CAL a,b,c,d,e,f: the parser puts what it read, and
// the command takes it when it runs. What is pending between the two is lent to both.
ghost use Rattle.std.specs.Prelude.{◌≡◌};
ghost use Rattle.touchcal.specs.Scpi.{clear, put_of, take_of};

use crate::floats;
use crate::floats::Coefs;
use calmap::Cal;
use panel::Refusal;
use std::mem;

// What was read and is not yet taken: a calibration if `set`. Any such record may be lent, one that is not set with
// whatever calibration it has: so no Option.
#[derive(Clone, Copy)]
pub struct Pending {
    pub set: bool,
    pub cal: Cal,
}

// Nothing pending: how it is at the start, and after a call that clears it.
pub fn cleared() -> Pending
    ensures { result ≡ clear }
{
    Pending {
        set: false,
        cal: floats::no_cal(),
    }
}

// Keeps the coefficients that were read for the command, in steps. It alone alters something that it refuses: what was
// pending is cleared.
pub fn scpi_put(pending: &mut Pending, v: Coefs) -> Result<(), Refusal>
    ensures answer { result ≡ (put_of pending.old v).answer }
    ensures after { pending.new ≡ (put_of pending.old v).after }
{
    *pending = cleared();
    *pending = Pending {
        set: true,
        cal: floats::from_f32(v)?,
    };
    Ok(())
}

// The calibration that was read, once.
#[tactic(auto, using(panel::proofs::Follow::follow), unfolding(crate::specs::Scpi::take_of))]
pub fn scpi_take(pending: &mut Pending) -> Option<Cal>
    ensures answer { result ≡ (take_of pending.old).answer }
    ensures after { pending.new ≡ (take_of pending.old).after }
{
    let was = mem::replace(pending, cleared());
    if was.set { Some(was.cal) } else { None }
}
