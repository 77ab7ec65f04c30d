// A number read: groups of seven bits, low first, the high bit on all but the last, in the shortest form.
//
// Bytes and place stand apart, and there is no reader of both: the contracts speak of both (`number_at s.now at`), a
// refusal names a place in the whole trace, and callers keep the place between calls.
ghost use Rattle.std.specs.Prelude.{◌≡◌, ◌≤◌, drop, IfOk};
ghost use Rattle.numbers.specs.Sizes.{group};
ghost use Rattle.numbers.specs.Numbers.{number_at, number_from};
ghost use Rattle.numbers.specs.code.Groups.{with_group, groups_at, refusal_of, within};

use crate::sizes::{GROUP, HIGH_BIT, MOST_GROUPS, REST_END};
use panel::Refusal;

// Why reading stopped, and the place that this speaks of.
#[derive(Clone, Copy, Debug, PartialEq, Eq)]
pub struct Stop {
    pub why: Refusal,
    pub at: usize,
}

// Why some groups are no number.
#[derive(Clone, Copy)]
enum Fault {
    Early,
    Needless,
    Large,
}

impl From<Fault> for Refusal {
    ghost from_gives = { λ fault why. why ≡ refusal_of fault };

    fn from(fault: Fault) -> Refusal {
        match fault {
            Fault::Early => Refusal::Cut,
            Fault::Needless => Refusal::Form,
            Fault::Large => Refusal::Big,
        }
    }
}

// A number with a group in front of it. A rest of 0 was needless.
#[tactic(auto, using(panel::proofs::Follow::follow), unfolding(crate::specs::code::Groups::with_group))]
fn with_group(b: u8, rest: u64) -> Result<u64, Fault>
    requires { group ≤ b }
    ensures { result ≡ with_group b rest }
{
    if rest == 0 {
        return Err(Fault::Needless);
    }
    if rest < REST_END {
        return Ok(u64::from(b) - GROUP + GROUP * rest);
    }
    Err(Fault::Large)
}

// The number that the groups from a place on come to, at most so many of them, and where the next number begins. By
// recursion, the last group first: a loop would carry what the next group stands for, and whether that passes 64 bits.
#[tactic(auto, using(crate::proofs::Grouping::steps))]
fn groups(s: &[u8], at: usize, left: u64) -> Result<(u64, usize), Fault>
    ensures { result ≡ groups_at left (drop at s.now) at }
{
    if left == 0 {
        return Err(Fault::Large);
    }
    if s.len() <= at {
        return Err(Fault::Early);
    }
    let b = s[at];
    if b < HIGH_BIT {
        return Ok((u64::from(b), at + 1));
    }
    let (rest, next) = groups(s, at + 1, left - 1)?;
    Ok((with_group(b, rest)?, next))
}

// A number that its field holds to a maximum.
#[tactic(auto, using(panel::proofs::Follow::follow), unfolding(crate::specs::code::Groups::within))]
fn within(at: usize, most: u64, v: u64, next: usize) -> Result<(u64, usize), Stop>
    ensures { result ≡ within at most (v, next) }
{
    if v <= most {
        return Ok((v, next));
    }
    Err(Stop {
        why: Refusal::Big,
        at,
    })
}

// The number at a place, at most `most`, and where the next one begins.
pub fn number_at(s: &[u8], at: usize, most: u64) -> Result<(u64, usize), Stop>
    ensures value { result ≡ number_at s.now at most }
    ensures v_le_most { IfOk result (λ r. r.0 ≤ most) }
{
    if s.len() <= at {
        return Err(Stop {
            why: Refusal::Cut,
            at: s.len(),
        });
    }
    // Most numbers are one group, and these are read straight away.
    let b = s[at];
    if b < HIGH_BIT {
        return within(at, most, u64::from(b), at + 1);
    }
    match groups(s, at, MOST_GROUPS) {
        Ok((v, next)) => within(at, most, v, next),
        Err(fault) => Err(Stop {
            why: Refusal::from(fault),
            at,
        }),
    }
}

// The same where reading goes on. Where it has stopped it stays so, and says again why and where: what is read straight
// through need be looked at once.
pub fn next_number(s: &[u8], from: Result<usize, Stop>, most: u64) -> Result<(u64, usize), Stop>
    ensures value { result ≡ number_from s.now from most }
    ensures v_le_most { IfOk result (λ r. r.0 ≤ most) }
{
    number_at(s, from?, most)
}
