// Written by tools/messages from its table of messages.
// Requests of files, each read flat at a place.

ghost use Rattle.std.proofs.Math.Option.{some};
ghost use Rattle.layouts.specs.Tables.{layout_tread, layout_twrite, layout_tremove};
ghost use Rattle.layouts.specs.Plain.{layout_topen, layout_tcreate};
ghost use Rattle.flat.specs.Flat.{FlatRead};

use numbers::Place;
use plain_flat::WIDTH_T;

pub(crate) fn read_tread(s: &[u8], p: Place, values: &mut [u64; WIDTH_T]) -> Place
    ensures { FlatRead (some layout_tread) s.now p values.old values.new result }
{
    let end = flat::skip(s, p, 16)?;
    let r = common::files::read_tread(s, p);
    plain_flat::files::flat_tread(r.value, values);
    Ok(end)
}

pub(crate) fn read_twrite(s: &[u8], p: Place, values: &mut [u64; WIDTH_T]) -> Place
    ensures { FlatRead (some layout_twrite) s.now p values.old values.new result }
{
    let r = common::files::read_twrite(s, p);
    let end = r.next?;
    plain_flat::files::flat_twrite(r.value, values);
    Ok(end)
}

pub(crate) fn read_tremove(s: &[u8], p: Place, values: &mut [u64; WIDTH_T]) -> Place
    ensures { FlatRead (some layout_tremove) s.now p values.old values.new result }
{
    let end = flat::skip(s, p, 4)?;
    let r = common::files::read_tremove(s, p);
    plain_flat::files::flat_tremove(r.value, values);
    Ok(end)
}

pub(crate) fn read_topen(s: &[u8], p: Place, values: &mut [u64; WIDTH_T]) -> Place
    ensures { FlatRead (some layout_topen) s.now p values.old values.new result }
{
    let end = flat::skip(s, p, 5)?;
    let r = plain::files::read_topen(s, p);
    plain_flat::files::flat_topen(r.value, values);
    Ok(end)
}

pub(crate) fn read_tcreate(s: &[u8], p: Place, values: &mut [u64; WIDTH_T]) -> Place
    ensures { FlatRead (some layout_tcreate) s.now p values.old values.new result }
{
    let r = plain::files::read_tcreate(s, p);
    let end = r.next?;
    plain_flat::files::flat_tcreate(r.value, values);
    Ok(end)
}
