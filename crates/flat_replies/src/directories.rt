// Written by tools/messages from its table of messages.
// Replies of directories, each read flat at a place.

ghost use Rattle.std.proofs.Math.Option.{some};
ghost use Rattle.layouts.specs.Tables.{layout_rsymlink, layout_rmknod, layout_rreadlink, layout_rreaddir, layout_rmkdir};
ghost use Rattle.flat.specs.Flat.{FlatRead};

use flat::WIDTH_R;
use numbers::Place;

pub(crate) fn read_rsymlink(s: &[u8], p: Place, values: &mut [u64; WIDTH_R]) -> Place
    ensures { FlatRead (some layout_rsymlink) s.now p values.old values.new result }
{
    let end = flat::skip(s, p, 13)?;
    let r = messages::directories::read_rsymlink(s, p);
    flat::directories::flat_rsymlink(r.value, values);
    Ok(end)
}

pub(crate) fn read_rmknod(s: &[u8], p: Place, values: &mut [u64; WIDTH_R]) -> Place
    ensures { FlatRead (some layout_rmknod) s.now p values.old values.new result }
{
    let end = flat::skip(s, p, 13)?;
    let r = messages::directories::read_rmknod(s, p);
    flat::directories::flat_rmknod(r.value, values);
    Ok(end)
}

pub(crate) fn read_rreadlink(s: &[u8], p: Place, values: &mut [u64; WIDTH_R]) -> Place
    ensures { FlatRead (some layout_rreadlink) s.now p values.old values.new result }
{
    let r = messages::directories::read_rreadlink(s, p);
    let end = r.next?;
    flat::directories::flat_rreadlink(r.value, values);
    Ok(end)
}

pub(crate) fn read_rreaddir(s: &[u8], p: Place, values: &mut [u64; WIDTH_R]) -> Place
    ensures { FlatRead (some layout_rreaddir) s.now p values.old values.new result }
{
    let r = messages::directories::read_rreaddir(s, p);
    let end = r.next?;
    flat::directories::flat_rreaddir(r.value, values);
    Ok(end)
}

pub(crate) fn read_rmkdir(s: &[u8], p: Place, values: &mut [u64; WIDTH_R]) -> Place
    ensures { FlatRead (some layout_rmkdir) s.now p values.old values.new result }
{
    let end = flat::skip(s, p, 13)?;
    let r = messages::directories::read_rmkdir(s, p);
    flat::directories::flat_rmkdir(r.value, values);
    Ok(end)
}
