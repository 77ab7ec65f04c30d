// What comes back, in one number.
use calmap::Verdict;
use gesture::Gesture;

// By a name: how what comes back is joined is said once, as in the Rust beside it.
pub(crate) fn with(sum: u64, v: u64) -> u64 {
    sum.wrapping_add(v)
}

pub(crate) fn signed(v: i32) -> u64 {
    let m = u64::from(panel::magnitude(v));
    if v < 0 { m + 4294967296 } else { m }
}

// By these numbers, and by those of verdict, the Rust beside it folds them.
fn code(g: Gesture) -> u64 {
    match g {
        Gesture::Down(_) => 1,
        Gesture::Tap(_) => 2,
        Gesture::LongPress(_) => 3,
        Gesture::Drag(_, _, _) => 4,
        Gesture::Grab(_) => 5,
        Gesture::Up(_) => 6,
        Gesture::SwipeLeft => 7,
        Gesture::SwipeRight => 8,
        Gesture::SwipeUp => 9,
        Gesture::SwipeDown => 10,
        Gesture::Cancel => 11,
        Gesture::MultiSwipeDown(_) => 12,
        Gesture::KeyDown(_) => 13,
        Gesture::KeyUp(_) => 14,
        Gesture::Move(_, _) => 15,
        Gesture::Pinch(_, _, _) => 16,
        Gesture::PinchEnd(_) => 17,
    }
}

pub(crate) fn given(g: &Option<Gesture>) -> u64 {
    match g {
        None => 0,
        Some(g) => code(*g),
    }
}

pub(crate) fn verdict(v: Verdict) -> u64 {
    match v {
        Verdict::Pass => 0,
        Verdict::Scale => 1,
        Verdict::Shift => 2,
        Verdict::Resid => 3,
    }
}
