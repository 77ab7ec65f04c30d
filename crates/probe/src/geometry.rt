// The calls of panel geometry, kinds 1 to 4. A function each, and so for dist and dist2, so that each published call is
// itself made, with its arguments read in front of it.
use crate::ended::Ended;
use crate::reader::Reader;
use crate::replies::Reply;

pub(crate) fn dist(r: &mut Reader<'_>) -> Result<Reply, Ended> {
    let p = r.read()?;
    let q = r.read()?;
    Ok(panel::dist(p, q).map_or_else(Reply::Refused, Reply::Distance))
}

pub(crate) fn dist2(r: &mut Reader<'_>) -> Result<Reply, Ended> {
    let p = r.read()?;
    let q = r.read()?;
    Ok(panel::dist2(p, q).map_or_else(Reply::Refused, Reply::Distance))
}

pub(crate) fn centroid(r: &mut Reader<'_>) -> Result<Reply, Ended> {
    let count = r.read()?;
    let pts = r.read()?;
    Ok(panel::centroid(count, pts).map_or_else(Reply::Refused, Reply::Point))
}

pub(crate) fn lock_axis(r: &mut Reader<'_>) -> Result<Reply, Ended> {
    let dx = r.read()?;
    let dy = r.read()?;
    Ok(panel::lock_axis(dx, dy).map_or_else(Reply::Refused, Reply::Lock))
}
