// Written by tools/messages from its table of messages.
// Replies of locks, each read flat at a place.

ghost use Rattle.std.proofs.Math.Option.{some};
ghost use Rattle.layouts.specs.Tables.{layout_rlock, layout_rgetlock};
ghost use Rattle.flat.specs.Flat.{FlatRead};

use flat::WIDTH_R;
use numbers::Place;

pub(crate) fn read_rlock(s: &[u8], p: Place, values: &mut [u64; WIDTH_R]) -> Place
    ensures { FlatRead (some layout_rlock) s.now p values.old values.new result }
{
    let end = flat::skip(s, p, 1)?;
    let r = metadata::locks::read_rlock(s, p);
    flat::locks::flat_rlock(r.value, values);
    Ok(end)
}

pub(crate) fn read_rgetlock(s: &[u8], p: Place, values: &mut [u64; WIDTH_R]) -> Place
    ensures { FlatRead (some layout_rgetlock) s.now p values.old values.new result }
{
    let r = metadata::locks::read_rgetlock(s, p);
    let end = r.next?;
    flat::locks::flat_rgetlock(r.value, values);
    Ok(end)
}
