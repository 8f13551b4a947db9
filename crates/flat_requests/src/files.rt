// Written by tools/messages from its table of messages.
// Requests of files, each read flat at a place.

ghost use Rattle.std.proofs.Math.Option.{some};
ghost use Rattle.layouts.specs.Tables.{layout_tlopen, layout_tlcreate, layout_tread, layout_twrite, layout_tfsync, layout_tremove};
ghost use Rattle.flat.specs.Flat.{FlatRead};

use flat::WIDTH_T;
use numbers::Place;

pub(crate) fn read_tlopen(s: &[u8], p: Place, values: &mut [u64; WIDTH_T]) -> Place
    ensures { FlatRead (some layout_tlopen) s.now p values.old values.new result }
{
    let end = flat::skip(s, p, 8)?;
    let r = messages::files::read_tlopen(s, p);
    flat::files::flat_tlopen(r.value, values);
    Ok(end)
}

pub(crate) fn read_tlcreate(s: &[u8], p: Place, values: &mut [u64; WIDTH_T]) -> Place
    ensures { FlatRead (some layout_tlcreate) s.now p values.old values.new result }
{
    let r = messages::files::read_tlcreate(s, p);
    let end = r.next?;
    flat::files::flat_tlcreate(r.value, values);
    Ok(end)
}

pub(crate) fn read_tread(s: &[u8], p: Place, values: &mut [u64; WIDTH_T]) -> Place
    ensures { FlatRead (some layout_tread) s.now p values.old values.new result }
{
    let end = flat::skip(s, p, 16)?;
    let r = common::files::read_tread(s, p);
    flat::files::flat_tread(r.value, values);
    Ok(end)
}

pub(crate) fn read_twrite(s: &[u8], p: Place, values: &mut [u64; WIDTH_T]) -> Place
    ensures { FlatRead (some layout_twrite) s.now p values.old values.new result }
{
    let r = common::files::read_twrite(s, p);
    let end = r.next?;
    flat::files::flat_twrite(r.value, values);
    Ok(end)
}

pub(crate) fn read_tfsync(s: &[u8], p: Place, values: &mut [u64; WIDTH_T]) -> Place
    ensures { FlatRead (some layout_tfsync) s.now p values.old values.new result }
{
    let end = flat::skip(s, p, 8)?;
    let r = messages::files::read_tfsync(s, p);
    flat::files::flat_tfsync(r.value, values);
    Ok(end)
}

pub(crate) fn read_tremove(s: &[u8], p: Place, values: &mut [u64; WIDTH_T]) -> Place
    ensures { FlatRead (some layout_tremove) s.now p values.old values.new result }
{
    let end = flat::skip(s, p, 4)?;
    let r = common::files::read_tremove(s, p);
    flat::files::flat_tremove(r.value, values);
    Ok(end)
}
