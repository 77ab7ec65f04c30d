// Points, the panel that they are on, and the report that brings them.
ghost use Rattle.std.specs.Prelude.{◌≡◌, ◌≤◌};
ghost use Rattle.panel.specs.Points.{on_panel, all_on_panel, first_points, fingers};
ghost use Rattle.panel.specs.Sizes.{max_points};

// The panel's size in pixels: x runs from 0 to 479, y from 0 to 319.
pub const WIDTH: u16 = 480;

pub const HEIGHT: u16 = 320;

// The most fingers that a report carries.
pub const MAX_POINTS: usize = 5;

// A place in pixels, from the upper left corner. Any two numbers: on_panel says whether it is on the panel.
// No Default: (0, 0) is a place like any other, and is written out where it is meant.
#[derive(Clone, Copy, PartialEq, Eq)]
pub struct Point {
    pub x: u16,
    pub y: u16,
}

// A report of the controller: a count over five places, as document 01 has it and C hands it over.
#[derive(Clone, Copy)]
pub struct Event {
    // The number of fingers, 0 when all are up.
    pub points: u8,
    // The finger, where there is one.
    pub p: Point,
    // The fingers in the controller's slot order, where there are several: the first `points` of them count.
    pub pts: [Point; MAX_POINTS],
    // The side keys that are held, a bit for each.
    pub keys: u8,
}

pub fn on_panel(p: Point) -> bool
    ensures { result ≡ on_panel p }
{
    p.x < WIDTH && p.y < HEIGHT
}

// How many points a count takes into use: a count over five means five.
pub fn fingers_of(count: u8) -> usize
    ensures { (result ≡ fingers count) × (result ≤ max_points) }
{
    usize::from(count).min(MAX_POINTS)
}

// Whether each of some points is on the panel.
pub fn each_on_panel(pts: &[Point]) -> bool
    ensures { result ≡ all_on_panel pts.now }
{
    pts.iter().all(|p| on_panel(*p))
}

// Whether the first `count` of the points are on the panel. The others may be anywhere.
pub fn all_on_panel(count: u8, pts: [Point; MAX_POINTS]) -> bool
    ensures { result ≡ all_on_panel (first_points count pts) }
{
    each_on_panel(&pts[..fingers_of(count)])
}
