// The tracker's calls on the area that holds it, each as a C main loop makes it: the numbers of its arguments become a call,
// which image makes.
ghost use Rattle.std.specs.Prelude.{◌≡◌, not, [], ◌∷◌};
ghost use Rattle.panel.specs.Tests.{◌=?◌};
ghost use Rattle.gesture.specs.Calls.{report, tick, capture, capture_direct, raw_next, set_grab_ms};
ghost use Rattle.gesture.specs.Trackers.{fresh_tracker};
ghost use Rattle.image.specs.Codec.{encode_of};
ghost use Rattle.image.specs.Calls.{made_on};
ghost use Rattle.host.specs.Hosts.{kept, kept_by, hosted, hosted_by, grab_told, grab_hosted, point, report_of};

use crate::widths;
use gesture::Call;
use image::ANSWER_NUMBERS;
use panel::{Event, Point};

// The area becomes a fresh tracker's image, whatever it held.
#[unsafe(no_mangle)]
pub extern "C" fn touch_fresh(image: &mut [u8]) -> u32
    ensures { kept result image.new ≡ kept_by (encode_of fresh_tracker image.old) }
{
    widths::number_of(image::encode_fresh(image))
}

// To be called periodically, between the reports.
#[unsafe(no_mangle)]
pub extern "C" fn touch_tick(image: &mut [u8], time: u64, out: &mut [u64; ANSWER_NUMBERS]) -> u32
    ensures { hosted result image.new out.new ≡ hosted_by (made_on image.old (tick time)) }
{
    widths::number_of(image::make(image, Call::Tick(time), out))
}

// The app took the current touch: the release of its one finger is then no swipe and no tap.
#[unsafe(no_mangle)]
pub extern "C" fn touch_capture(image: &mut [u8], out: &mut [u64; ANSWER_NUMBERS]) -> u32
    ensures { hosted result image.new out.new ≡ hosted_by (made_on image.old capture) }
{
    widths::number_of(image::make(image, Call::Capture, out))
}

// The app took the current touch, which has no hold before a drag from here on. The raw wish is cleared.
#[unsafe(no_mangle)]
pub extern "C" fn touch_capture_direct(image: &mut [u8], out: &mut [u64; ANSWER_NUMBERS]) -> u32
    ensures { hosted result image.new out.new ≡ hosted_by (made_on image.old capture_direct) }
{
    widths::number_of(image::make(image, Call::CaptureDirect, out))
}

// Ask for raw moves on the touch that the app is about to capture: 0 is off, any other number on.
#[unsafe(no_mangle)]
pub extern "C" fn touch_raw_next(image: &mut [u8], on: u8, out: &mut [u64; ANSWER_NUMBERS]) -> u32
    ensures { hosted result image.new out.new ≡ hosted_by (made_on image.old (raw_next (not (on =? 0)))) }
{
    widths::number_of(image::make(image, Call::RawNext(on != 0), out))
}

// Hold-to-grab time in ms, cut to 5000; 0 for direct drags.
#[unsafe(no_mangle)]
pub extern "C" fn touch_set_grab_ms(
    image: &mut [u8],
    ms: u16,
    out: &mut [u64; ANSWER_NUMBERS],
) -> u32
    ensures { hosted result image.new out.new ≡ hosted_by (made_on image.old (set_grab_ms ms)) }
{
    widths::number_of(image::make(image, Call::SetGrabMs(ms), out))
}

// The hold-to-grab time alone. The area is read and not written.
#[unsafe(no_mangle)]
pub extern "C" fn touch_grab_ms(image: &[u8], out: &mut [u64; 1]) -> u32
    ensures { grab_told result out.new ≡ grab_hosted image.now }
{
    let told = image::grab_ms(image);
    *out = [u64::from(told.unwrap_or(0))];
    widths::number_of(told)
}

// A report of the controller: the point of one finger, then the five points of several.
#[unsafe(no_mangle)]
pub extern "C" fn touch_event(
    image: &mut [u8],
    time: u64,
    keys: u8,
    count: u8,
    px: u16,
    py: u16,
    x0: u16,
    y0: u16,
    x1: u16,
    y1: u16,
    x2: u16,
    y2: u16,
    x3: u16,
    y3: u16,
    x4: u16,
    y4: u16,
    out: &mut [u64; ANSWER_NUMBERS],
) -> u32
    ensures { hosted result image.new out.new ≡ hosted_by (made_on image.old (report time (report_of keys count (point px py) (point x0 y0 ∷ point x1 y1 ∷ point x2 y2 ∷ point x3 y3 ∷ point x4 y4 ∷ [])))) }
{
    let event = Event {
        points: count,
        p: Point { x: px, y: py },
        pts: [
            Point { x: x0, y: y0 },
            Point { x: x1, y: y1 },
            Point { x: x2, y: y2 },
            Point { x: x3, y: y3 },
            Point { x: x4, y: y4 },
        ],
        keys,
    };
    widths::number_of(image::make(image, Call::Report(event, time), out))
}
