// Written by tools/messages from its table of messages.
// Replies of attributes, each read flat at a place.

ghost use Rattle.std.proofs.Math.Option.{some};
ghost use Rattle.layouts.specs.Tables.{layout_rstatfs, layout_rgetattr, layout_rxattrwalk};
ghost use Rattle.flat.specs.Flat.{FlatRead};

use flat::WIDTH_R;
use numbers::Place;

pub(crate) fn read_rstatfs(s: &[u8], p: Place, values: &mut [u64; WIDTH_R]) -> Place
    ensures { FlatRead (some layout_rstatfs) s.now p values.old values.new result }
{
    let end = flat::skip(s, p, 60)?;
    let r = metadata::attributes::read_rstatfs(s, p);
    flat::attributes::flat_rstatfs(r.value, values);
    Ok(end)
}

pub(crate) fn read_rgetattr(s: &[u8], p: Place, values: &mut [u64; WIDTH_R]) -> Place
    ensures { FlatRead (some layout_rgetattr) s.now p values.old values.new result }
{
    let end = flat::skip(s, p, 153)?;
    let r = metadata::attributes::read_rgetattr(s, p);
    flat::attributes::flat_rgetattr(r.value, values);
    Ok(end)
}

pub(crate) fn read_rxattrwalk(s: &[u8], p: Place, values: &mut [u64; WIDTH_R]) -> Place
    ensures { FlatRead (some layout_rxattrwalk) s.now p values.old values.new result }
{
    let end = flat::skip(s, p, 8)?;
    let r = metadata::attributes::read_rxattrwalk(s, p);
    flat::attributes::flat_rxattrwalk(r.value, values);
    Ok(end)
}
