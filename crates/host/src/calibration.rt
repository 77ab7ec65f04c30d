// A point through a calibration, for the host.
ghost use Rattle.std.specs.Prelude.{◌≡◌};
ghost use Rattle.calmap.specs.Maps.{apply_of};
ghost use Rattle.host.specs.Hosts.{applied, cal_of, applied_by};

use crate::widths;
use calmap::{Cal, Q16};

// The point (x, y) through the six steps: 0 and two numbers in sixteenths of a pixel, or 3 and zeros.
#[tactic(auto, unfolding(crate::specs::Hosts::applied_by))]
#[unsafe(no_mangle)]
pub extern "C" fn touch_apply16(
    c0: i32,
    c1: i32,
    c2: i32,
    c3: i32,
    c4: i32,
    c5: i32,
    x: i32,
    y: i32,
    out: &mut [i32; 2],
) -> u32
    ensures { applied result out.new ≡ applied_by (apply_of (cal_of c0 c1 c2 c3 c4 c5) x y) }
{
    let c = Cal {
        c0: Q16(c0),
        c1: Q16(c1),
        c2: Q16(c2),
        c3: Q16(c3),
        c4: Q16(c4),
        c5: Q16(c5),
    };
    let told = calmap::apply16(c, x, y);
    match told {
        Ok(s) => {
            *out = [s.0.0, s.1.0];
            0
        }
        Err(_) => {
            *out = [0, 0];
            widths::number_of(told)
        }
    }
}
