// Written by tools/messages from its table of messages.
// Requests of directories, each read flat at a place.

ghost use Rattle.std.proofs.Math.Option.{some};
ghost use Rattle.layouts.specs.Tables.{layout_tsymlink, layout_tmknod, layout_trename, layout_treadlink, layout_treaddir, layout_tlink, layout_tmkdir, layout_trenameat, layout_tunlinkat};
ghost use Rattle.flat.specs.Flat.{FlatRead};

use flat::WIDTH_T;
use numbers::Place;

pub(crate) fn read_tsymlink(s: &[u8], p: Place, values: &mut [u64; WIDTH_T]) -> Place
    ensures { FlatRead (some layout_tsymlink) s.now p values.old values.new result }
{
    let r = messages::directories::read_tsymlink(s, p);
    let end = r.next?;
    flat::directories::flat_tsymlink(r.value, values);
    Ok(end)
}

pub(crate) fn read_tmknod(s: &[u8], p: Place, values: &mut [u64; WIDTH_T]) -> Place
    ensures { FlatRead (some layout_tmknod) s.now p values.old values.new result }
{
    let r = messages::directories::read_tmknod(s, p);
    let end = r.next?;
    flat::directories::flat_tmknod(r.value, values);
    Ok(end)
}

pub(crate) fn read_trename(s: &[u8], p: Place, values: &mut [u64; WIDTH_T]) -> Place
    ensures { FlatRead (some layout_trename) s.now p values.old values.new result }
{
    let r = messages::directories::read_trename(s, p);
    let end = r.next?;
    flat::directories::flat_trename(r.value, values);
    Ok(end)
}

pub(crate) fn read_treadlink(s: &[u8], p: Place, values: &mut [u64; WIDTH_T]) -> Place
    ensures { FlatRead (some layout_treadlink) s.now p values.old values.new result }
{
    let end = flat::skip(s, p, 4)?;
    let r = messages::directories::read_treadlink(s, p);
    flat::directories::flat_treadlink(r.value, values);
    Ok(end)
}

pub(crate) fn read_treaddir(s: &[u8], p: Place, values: &mut [u64; WIDTH_T]) -> Place
    ensures { FlatRead (some layout_treaddir) s.now p values.old values.new result }
{
    let end = flat::skip(s, p, 16)?;
    let r = messages::directories::read_treaddir(s, p);
    flat::directories::flat_treaddir(r.value, values);
    Ok(end)
}

pub(crate) fn read_tlink(s: &[u8], p: Place, values: &mut [u64; WIDTH_T]) -> Place
    ensures { FlatRead (some layout_tlink) s.now p values.old values.new result }
{
    let r = messages::directories::read_tlink(s, p);
    let end = r.next?;
    flat::directories::flat_tlink(r.value, values);
    Ok(end)
}

pub(crate) fn read_tmkdir(s: &[u8], p: Place, values: &mut [u64; WIDTH_T]) -> Place
    ensures { FlatRead (some layout_tmkdir) s.now p values.old values.new result }
{
    let r = messages::directories::read_tmkdir(s, p);
    let end = r.next?;
    flat::directories::flat_tmkdir(r.value, values);
    Ok(end)
}

pub(crate) fn read_trenameat(s: &[u8], p: Place, values: &mut [u64; WIDTH_T]) -> Place
    ensures { FlatRead (some layout_trenameat) s.now p values.old values.new result }
{
    let r = messages::directories::read_trenameat(s, p);
    let end = r.next?;
    flat::directories::flat_trenameat(r.value, values);
    Ok(end)
}

pub(crate) fn read_tunlinkat(s: &[u8], p: Place, values: &mut [u64; WIDTH_T]) -> Place
    ensures { FlatRead (some layout_tunlinkat) s.now p values.old values.new result }
{
    let r = messages::directories::read_tunlinkat(s, p);
    let end = r.next?;
    flat::directories::flat_tunlinkat(r.value, values);
    Ok(end)
}
