// A controller's point on the panel: through the calibration, rounded, and held to the panel.
ghost use Rattle.std.specs.Prelude.{◌≡◌, pos, ◌+ℤ◌};
ghost use Rattle.calmap.specs.Units.{down_sixteen};
ghost use Rattle.calmap.specs.Screening.{clamp, moved, screen_of};
ghost use Rattle.calmap.specs.code.Checked.{nudge_of, placed_of};

use crate::checked;
use crate::units::{Cal, Q16};
use panel::{HEIGHT, Point, Refusal, WIDTH};

// Half a pixel in steps, so that the shift that follows rounds to the nearest.
const HALF: Q16 = Q16(0x8000);

// p·x + q·y + k and a half in i32, from left to right. It takes one by one what `nudge` of specs/Screening.antt does.
// It stands beside `line` of mapping, as that comment says.
fn nudge(p: Q16, q: Q16, k: Q16, x: i32, y: i32) -> Option<Q16>
    ensures { result ≡ nudge_of p q k x y }
{
    let a = checked::add(checked::scaled(p, x)?, checked::scaled(q, y)?)?;
    let b = checked::add(a, k)?;
    checked::add(b, HALF)
}

// Steps down by sixteen places, toward minus infinity, are pixels: as `down_twelve` of mapping, into another unit.
fn down_sixteen(q: Q16) -> i32
    ensures { result ≡ down_sixteen q }
{
    q.0 >> 16
}

// A coordinate moved by so many steps. It is at most 65535 and moved by at most 32768: the sum is an i32.
fn moved_by(v: u16, s: Q16) -> i32
    ensures { result ≡ pos v +ℤ down_sixteen s }
{
    i32::from(v) + down_sixteen(s)
}

// m, held to 0..last.
fn clamped(m: i32, last: u16) -> u16
    ensures { result ≡ clamp last m }
{
    m.clamp(0, i32::from(last)) as u16
}

// A coordinate on the panel, whose last one is given.
fn shifted(last: u16, v: u16, s: Q16) -> u16
    ensures { result ≡ moved last v s }
{
    clamped(moved_by(v, s), last)
}

// A point moved by two sums in steps, and held to the panel.
fn placed(p: Point, dx: Option<Q16>, dy: Option<Q16>) -> Result<Point, Refusal>
    ensures { result ≡ placed_of p dx dy }
{
    let u = dx.ok_or(Refusal::Wide)?;
    let v = dy.ok_or(Refusal::Wide)?;
    Ok(Point {
        x: shifted(WIDTH - 1, p.x, u),
        y: shifted(HEIGHT - 1, p.y, v),
    })
}

// The point p through c, on the panel. It need not be on it before.
pub fn screen(c: Cal, p: Point) -> Result<Point, Refusal>
    ensures { result ≡ screen_of c p }
{
    let x = i32::from(p.x);
    let y = i32::from(p.y);
    let dx = nudge(c.c0, c.c1, c.c2, x, y);
    let dy = nudge(c.c3, c.c4, c.c5, x, y);
    placed(p, dx, dy)
}
