// Written by tools/messages from its table of messages.
// Replies of files, each read flat at a place.

ghost use Rattle.std.proofs.Math.Option.{some};
ghost use Rattle.layouts.specs.Tables.{layout_rread, layout_rwrite};
ghost use Rattle.layouts.specs.Plain.{layout_ropen, layout_rcreate};
ghost use Rattle.flat.specs.Flat.{FlatRead};

use numbers::Place;
use plain_flat::WIDTH_R;

pub(crate) fn read_rread(s: &[u8], p: Place, values: &mut [u64; WIDTH_R]) -> Place
    ensures { FlatRead (some layout_rread) s.now p values.old values.new result }
{
    let r = common::files::read_rread(s, p);
    let end = r.next?;
    flat::files::flat_rread(r.value, values);
    Ok(end)
}

pub(crate) fn read_rwrite(s: &[u8], p: Place, values: &mut [u64; WIDTH_R]) -> Place
    ensures { FlatRead (some layout_rwrite) s.now p values.old values.new result }
{
    let end = flat::skip(s, p, 4)?;
    let r = common::files::read_rwrite(s, p);
    flat::files::flat_rwrite(r.value, values);
    Ok(end)
}

pub(crate) fn read_ropen(s: &[u8], p: Place, values: &mut [u64; WIDTH_R]) -> Place
    ensures { FlatRead (some layout_ropen) s.now p values.old values.new result }
{
    let end = flat::skip(s, p, 17)?;
    let r = plain::files::read_ropen(s, p);
    plain_flat::files::flat_ropen(r.value, values);
    Ok(end)
}

pub(crate) fn read_rcreate(s: &[u8], p: Place, values: &mut [u64; WIDTH_R]) -> Place
    ensures { FlatRead (some layout_rcreate) s.now p values.old values.new result }
{
    let end = flat::skip(s, p, 17)?;
    let r = plain::files::read_rcreate(s, p);
    plain_flat::files::flat_rcreate(r.value, values);
    Ok(end)
}
