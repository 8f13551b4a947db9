// Written by tools/messages from its table of messages.
// Requests of attributes, each read flat at a place.

ghost use Rattle.std.proofs.Math.Option.{some};
ghost use Rattle.layouts.specs.Tables.{layout_tstatfs, layout_tgetattr, layout_tsetattr, layout_txattrwalk, layout_txattrcreate};
ghost use Rattle.flat.specs.Flat.{FlatRead};

use flat::WIDTH_T;
use numbers::Place;

pub(crate) fn read_tstatfs(s: &[u8], p: Place, values: &mut [u64; WIDTH_T]) -> Place
    ensures { FlatRead (some layout_tstatfs) s.now p values.old values.new result }
{
    let end = flat::skip(s, p, 4)?;
    let r = metadata::attributes::read_tstatfs(s, p);
    flat::attributes::flat_tstatfs(r.value, values);
    Ok(end)
}

pub(crate) fn read_tgetattr(s: &[u8], p: Place, values: &mut [u64; WIDTH_T]) -> Place
    ensures { FlatRead (some layout_tgetattr) s.now p values.old values.new result }
{
    let end = flat::skip(s, p, 12)?;
    let r = metadata::attributes::read_tgetattr(s, p);
    flat::attributes::flat_tgetattr(r.value, values);
    Ok(end)
}

pub(crate) fn read_tsetattr(s: &[u8], p: Place, values: &mut [u64; WIDTH_T]) -> Place
    ensures { FlatRead (some layout_tsetattr) s.now p values.old values.new result }
{
    let end = flat::skip(s, p, 60)?;
    let r = metadata::attributes::read_tsetattr(s, p);
    flat::attributes::flat_tsetattr(r.value, values);
    Ok(end)
}

pub(crate) fn read_txattrwalk(s: &[u8], p: Place, values: &mut [u64; WIDTH_T]) -> Place
    ensures { FlatRead (some layout_txattrwalk) s.now p values.old values.new result }
{
    let r = metadata::attributes::read_txattrwalk(s, p);
    let end = r.next?;
    flat::attributes::flat_txattrwalk(r.value, values);
    Ok(end)
}

pub(crate) fn read_txattrcreate(s: &[u8], p: Place, values: &mut [u64; WIDTH_T]) -> Place
    ensures { FlatRead (some layout_txattrcreate) s.now p values.old values.new result }
{
    let r = metadata::attributes::read_txattrcreate(s, p);
    let end = r.next?;
    flat::attributes::flat_txattrcreate(r.value, values);
    Ok(end)
}
