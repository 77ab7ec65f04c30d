// The four means and the seven sums of the least squares, gathered over the pairs in two passes. Each
// operation rounds once, so that the order of the pairs counts.
ghost use Rattle.std.specs.Prelude.{◌≡◌, ◌≤◌, length};
ghost use Rattle.calmap.specs.Sizes.{longest};
ghost use Rattle.touchcal.specs.Moments.{place_of, add_pair, totals_of, shared_of, add_about, sums_of, moments_of};

use calmap::{Aim, Tap};

// A tap in floats.
#[derive(Clone, Copy)]
pub struct Place {
    pub x: f32,
    pub y: f32,
}

// Of the raw taps and of their targets, coordinate by coordinate: the totals, and then the means.
#[derive(Clone, Copy)]
pub struct Means {
    pub mx: f32,
    pub my: f32,
    pub mu: f32,
    pub mv: f32,
}

// Sums of products about the means: x and y are the raw tap's, u and v its target's.
#[derive(Clone, Copy)]
pub struct Sums {
    pub sxx: f32,
    pub sxy: f32,
    pub syy: f32,
    pub sxu: f32,
    pub syu: f32,
    pub sxv: f32,
    pub syv: f32,
}

// All that a fit takes from its pairs.
#[derive(Clone, Copy)]
pub struct Moments {
    pub means: Means,
    pub sums: Sums,
}

fn place_of(t: Tap) -> Place
    ensures { result ≡ place_of t }
{
    Place {
        x: f32::from(t.x),
        y: f32::from(t.y),
    }
}

// One pair more in the totals.
fn add_pair(t: Means, p: Aim) -> Means
    ensures { result ≡ add_pair t p }
{
    let raw = place_of(p.raw);
    let tgt = place_of(p.tgt);
    Means {
        mx: t.mx + raw.x,
        my: t.my + raw.y,
        mu: t.mu + tgt.x,
        mv: t.mv + tgt.y,
    }
}

// The coordinates of the pairs, added up.
fn totals(pairs: &[Aim]) -> Means
    ensures { result ≡ totals_of pairs.now }
{
    let mut t = Means {
        mx: 0.0,
        my: 0.0,
        mu: 0.0,
        mv: 0.0,
    };
    for p in pairs {
        t = add_pair(t, *p);
    }
    t
}

// The totals shared out among n. That n is at most 64 is handed down to here, to `moments_of` and to `solve` from
// fit_by, which tests it; up to there `n as f32` is exact.
fn shared(t: Means, n: usize) -> Means
    requires { n ≤ longest }
    ensures { result ≡ shared_of t n }
{
    let nf = n as f32;
    Means {
        mx: t.mx / nf,
        my: t.my / nf,
        mu: t.mu / nf,
        mv: t.mv / nf,
    }
}

// One pair more in the sums.
fn add_about(m: Means, s: Sums, p: Aim) -> Sums
    ensures { result ≡ add_about m s p }
{
    let raw = place_of(p.raw);
    let tgt = place_of(p.tgt);
    let x = raw.x - m.mx;
    let y = raw.y - m.my;
    let u = tgt.x - m.mu;
    let v = tgt.y - m.mv;
    Sums {
        sxx: s.sxx + x * x,
        sxy: s.sxy + x * y,
        syy: s.syy + y * y,
        sxu: s.sxu + x * u,
        syu: s.syu + y * u,
        sxv: s.sxv + x * v,
        syv: s.syv + y * v,
    }
}

// The products of the pairs about the means, added up.
fn sums_about(pairs: &[Aim], m: Means) -> Sums
    ensures { result ≡ sums_of m pairs.now }
{
    let mut s = Sums {
        sxx: 0.0,
        sxy: 0.0,
        syy: 0.0,
        sxu: 0.0,
        syu: 0.0,
        sxv: 0.0,
        syv: 0.0,
    };
    for p in pairs {
        s = add_about(m, s, *p);
    }
    s
}

// The means and the sums of the pairs.
pub(crate) fn moments_of(pairs: &[Aim]) -> Moments
    requires { length pairs.now ≤ longest }
    ensures { result ≡ moments_of pairs.now }
{
    let means = shared(totals(pairs), pairs.len());
    Moments {
        means,
        sums: sums_about(pairs, means),
    }
}
