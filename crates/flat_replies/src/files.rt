// Written by tools/messages from its table of messages.
// Replies of files, each read flat at a place.

ghost use Rattle.std.proofs.Math.Option.{some};
ghost use Rattle.layouts.specs.Tables.{layout_rlopen, layout_rlcreate, layout_rread, layout_rwrite};
ghost use Rattle.flat.specs.Flat.{FlatRead};

use flat::WIDTH_R;
use numbers::Place;

pub(crate) fn read_rlopen(s: &[u8], p: Place, values: &mut [u64; WIDTH_R]) -> Place
    ensures { FlatRead (some layout_rlopen) s.now p values.old values.new result }
{
    let end = flat::skip(s, p, 17)?;
    let r = messages::files::read_rlopen(s, p);
    flat::files::flat_rlopen(r.value, values);
    Ok(end)
}

pub(crate) fn read_rlcreate(s: &[u8], p: Place, values: &mut [u64; WIDTH_R]) -> Place
    ensures { FlatRead (some layout_rlcreate) s.now p values.old values.new result }
{
    let end = flat::skip(s, p, 17)?;
    let r = messages::files::read_rlcreate(s, p);
    flat::files::flat_rlcreate(r.value, values);
    Ok(end)
}

pub(crate) fn read_rread(s: &[u8], p: Place, values: &mut [u64; WIDTH_R]) -> Place
    ensures { FlatRead (some layout_rread) s.now p values.old values.new result }
{
    let r = common::files::read_rread(s, p);
    let end = r.next?;
    flat::files::flat_rread(r.value, values);
    Ok(end)
}

pub(crate) fn read_rwrite(s: &[u8], p: Place, values: &mut [u64; WIDTH_R]) -> Place
    ensures { FlatRead (some layout_rwrite) s.now p values.old values.new result }
{
    let end = flat::skip(s, p, 4)?;
    let r = common::files::read_rwrite(s, p);
    flat::files::flat_rwrite(r.value, values);
    Ok(end)
}
