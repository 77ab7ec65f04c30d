// Panel geometry: the edges of the panel, the larger of two differences, means rounded down, and both
// sides of each line that document 01 draws for the axis.
use crate::print::{Shown, Told, at};
use panel::{MAX_POINTS, Point};
use std::io;

fn dist(rt: &impl Print, p: Point, q: Point) -> io::Result<()> {
    println!(rt;
        "dist {} {} -> {}",
        Shown(p),
        Shown(q),
        Told(panel::dist(p, q))
    )
}

fn dist2(rt: &impl Print, p: Point, q: Point) -> io::Result<()> {
    println!(rt;
        "dist2 {} {} -> {}",
        Shown(p),
        Shown(q),
        Told(panel::dist2(p, q))
    )
}

pub(crate) fn distances(rt: &impl Print) -> io::Result<()> {
    dist(rt, at(100, 50), at(116, 50))?;
    dist(rt, at(100, 50), at(92, 70))?;
    dist(rt, at(0, 0), at(479, 319))?;
    dist(rt, at(479, 319), at(0, 0))?;
    dist(rt, at(480, 0), at(0, 0))?;
    dist(rt, at(0, 0), at(0, 320))?;
    dist(rt, at(65535, 65535), at(65535, 65535))?;
    dist2(rt, at(3, 4), at(0, 0))?;
    dist2(rt, at(0, 0), at(479, 319))?;
    dist2(rt, at(0, 320), at(0, 0))?;
    dist2(rt, at(0, 0), at(480, 0))
}

fn centroid(rt: &impl Print, count: u8, pts: [Point; MAX_POINTS]) -> io::Result<()> {
    print!(rt; "centroid {count}")?;
    for p in &pts {
        print!(rt; " {}", Shown(*p))?;
    }
    println!(rt; " -> {}", Told(panel::centroid(count, pts).map(Shown)))
}

pub(crate) fn centroids(rt: &impl Print) -> io::Result<()> {
    let pts = [at(10, 20), at(13, 21), at(479, 319), at(0, 0), at(1, 319)];
    let odd = [at(10, 20), at(13, 21), at(480, 0), at(0, 65535), at(1, 1)];
    centroid(rt, 0, pts)?;
    centroid(rt, 1, pts)?;
    centroid(rt, 2, pts)?;
    centroid(rt, 3, pts)?;
    centroid(rt, 5, pts)?;
    centroid(rt, 255, pts)?;
    centroid(rt, 2, odd)?;
    centroid(rt, 3, odd)?;
    centroid(rt, 0, odd)
}

fn lock_axis(rt: &impl Print, dx: i32, dy: i32) -> io::Result<()> {
    println!(rt;
        "lock_axis {dx} {dy} -> {}",
        Told(panel::lock_axis(dx, dy).map(Shown))
    )
}

pub(crate) fn axes(rt: &impl Print) -> io::Result<()> {
    lock_axis(rt, 16, 16)?;
    lock_axis(rt, 30, -30)?;
    lock_axis(rt, 31, 31)?;
    lock_axis(rt, -31, 32)?;
    lock_axis(rt, 24, 16)?;
    lock_axis(rt, 23, 16)?;
    lock_axis(rt, 16, -24)?;
    lock_axis(rt, 0, 0)?;
    lock_axis(rt, 715827882, -715827882)?;
    lock_axis(rt, 715827883, 0)?;
    lock_axis(rt, 0, -715827883)?;
    lock_axis(rt, -2147483648, 0)
}
