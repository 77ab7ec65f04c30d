// The calls of the calibration, kinds 10 to 21, and 43, 44 and 49, which are 13, 14 and 19 by the old tenths. The old
// ones take their lists by value, with the counts beside them: n is that of the whole lists, as LONG is told by it,
// where the list made of them stops at 64. A function for each kind, of the old tenths too, so that each published call
// is itself made, with its arguments read in front of it.
use crate::ended::Ended;
use crate::reader::Reader;
use crate::replies::Reply;
use calmap::Sixteenths;
use numbers::Stop;
use touchcal::{Fit, Pending, Unfit};

pub(crate) fn apply16(r: &mut Reader<'_>) -> Result<Reply, Ended> {
    let c = r.read()?;
    let x = r.read()?;
    let y = r.read()?;
    Ok(calmap::apply16(c, x, y).map_or_else(Reply::Refused, Reply::Spot))
}

pub(crate) fn screen(r: &mut Reader<'_>) -> Result<Reply, Ended> {
    let c = r.read()?;
    let p = r.read()?;
    Ok(calmap::screen(c, p).map_or_else(Reply::Refused, Reply::Point))
}

pub(crate) fn isqrt(r: &mut Reader<'_>) -> Result<Reply, Ended> {
    let v = r.read()?;
    Ok(Reply::Root(calmap::isqrt(v)))
}

// Two places, each by its coordinates.
fn places(r: &mut Reader<'_>) -> Result<[Sixteenths; 4], Stop> {
    Ok([r.read()?, r.read()?, r.read()?, r.read()?])
}

pub(crate) fn dist10(r: &mut Reader<'_>) -> Result<Reply, Ended> {
    let [ax, ay, bx, by] = places(r)?;
    Ok(calmap::dist10(ax, ay, bx, by).map_or_else(Reply::Refused, Reply::Tenths))
}

pub(crate) fn old_dist10(r: &mut Reader<'_>) -> Result<Reply, Ended> {
    let [ax, ay, bx, by] = places(r)?;
    Ok(oldtenths::old_dist10(ax, ay, bx, by).map_or_else(Reply::Refused, Reply::Tenths))
}

pub(crate) fn resid(r: &mut Reader<'_>) -> Result<Reply, Ended> {
    let c = r.read()?;
    let raw = r.list()?;
    let tgt = r.list()?;
    Ok(calmap::resid(c, &raw, &tgt).map_or_else(Reply::Refused, Reply::Spread))
}

pub(crate) fn old_resid(r: &mut Reader<'_>) -> Result<Reply, Ended> {
    let c = r.read()?;
    let raw = r.list()?;
    let tgt = r.list()?;
    let n = raw.len().min(tgt.len());
    let pairs = calmap::pairs_of(&raw, &tgt).list;
    Ok(oldtenths::old_resid_of(c, pairs, n).map_or_else(Reply::Refused, Reply::Spread))
}

pub(crate) fn check(r: &mut Reader<'_>) -> Result<Reply, Ended> {
    let c = r.read()?;
    let targets = r.list()?;
    Ok(calmap::check(c, &targets).map_or_else(Reply::Refused, Reply::Verdict))
}

pub(crate) fn q16(r: &mut Reader<'_>) -> Result<Reply, Ended> {
    let v = r.read()?;
    Ok(touchcal::q16(v).map_or_else(Reply::Refused, Reply::Q16))
}

pub(crate) fn to_f32(r: &mut Reader<'_>) -> Result<Reply, Ended> {
    let c = r.read()?;
    Ok(Reply::Coefs(touchcal::to_f32(c)))
}

pub(crate) fn from_f32(r: &mut Reader<'_>) -> Result<Reply, Ended> {
    let v = r.read()?;
    Ok(touchcal::from_f32(v).map_or_else(Reply::Refused, Reply::Cal))
}

fn fitted(told: Result<Fit, Unfit>) -> Reply {
    match told {
        Ok(fit) => Reply::Fit(fit),
        Err(Unfit::Refused(why)) => Reply::Refused(why),
        Err(Unfit::Steep(place)) => Reply::Steep(place),
    }
}

pub(crate) fn fit(r: &mut Reader<'_>) -> Result<Reply, Ended> {
    let raw = r.list()?;
    let tgt = r.list()?;
    let targets = r.list()?;
    Ok(fitted(touchcal::fit(&raw, &tgt, &targets)))
}

pub(crate) fn old_fit(r: &mut Reader<'_>) -> Result<Reply, Ended> {
    let raw = r.list()?;
    let tgt = r.list()?;
    let targets = r.list()?;
    let n = raw.len().min(tgt.len());
    let pairs = calmap::pairs_of(&raw, &tgt).list;
    let used = calmap::points_of(&targets).list;
    Ok(fitted(oldtenths::old_fit_of(pairs, n, used, targets.len())))
}

pub(crate) fn scpi_put(r: &mut Reader<'_>, pending: &mut Pending) -> Result<Reply, Ended> {
    let v = r.read()?;
    match touchcal::scpi_put(pending, v) {
        Ok(()) => Ok(Reply::Put),
        Err(why) => Ok(Reply::Refused(why)),
    }
}

pub(crate) fn scpi_take(pending: &mut Pending) -> Reply {
    touchcal::scpi_take(pending).map_or(Reply::NoCal, Reply::Cal)
}
