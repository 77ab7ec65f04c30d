// The middle of some fingers: of each coordinate the mean, rounded down.
ghost use Rattle.std.specs.Prelude.{◌≡◌, ◌≤◌, ◌*◌, length};
ghost use Rattle.panel.specs.Points.{first_points};
ghost use Rattle.panel.specs.Sizes.{max_points};
ghost use Rattle.panel.specs.Centroids.{xs, ys, total, middle, centroid_of};

use crate::points;
use crate::points::{MAX_POINTS, Point};
use crate::refusals::Refusal;

#[derive(Clone, Copy)]
struct Sums {
    x: u32,
    y: u32,
}

// Each coordinate of some points, added up. By `as`: with u32::from that the sums fit was left open.
fn totals(pts: &[Point]) -> Sums
    requires { length pts.now ≤ max_points }
    ensures x { result.x ≡ total (xs pts.now) }
    ensures y { result.y ≡ total (ys pts.now) }
    ensures x_at_most { result.x ≤ 65535 * length pts.now }
    ensures y_at_most { result.y ≤ 65535 * length pts.now }
{
    let mut sums = Sums { x: 0, y: 0 };
    for p in pts {
        sums.x += p.x as u32;
        sums.y += p.y as u32;
    }
    sums
}

// Count and five places, as a report has them.

// What centroid answers, for points that are known to be on the panel or need not be.
pub fn middle_of(count: u8, pts: [Point; MAX_POINTS]) -> Point
    ensures { result ≡ middle (first_points count pts) }
{
    let n = points::fingers_of(count);
    if n == 0 {
        return Point { x: 0, y: 0 };
    }
    let t = totals(&pts[..n]);
    Point {
        x: (t.x / (n as u32)) as u16,
        y: (t.y / (n as u32)) as u16,
    }
}

// The middle of the first `count` points, (0, 0) for none.
pub fn centroid(count: u8, pts: [Point; MAX_POINTS]) -> Result<Point, Refusal>
    ensures { result ≡ centroid_of count pts }
{
    if points::all_on_panel(count, pts) {
        Ok(middle_of(count, pts))
    } else {
        Err(Refusal::Panel)
    }
}
