// Written by tools/messages from its table of messages.
// Requests of locks, each read flat at a place.

ghost use Rattle.std.proofs.Math.Option.{some};
ghost use Rattle.layouts.specs.Tables.{layout_tlock, layout_tgetlock};
ghost use Rattle.flat.specs.Flat.{FlatRead};

use flat::WIDTH_T;
use numbers::Place;

pub(crate) fn read_tlock(s: &[u8], p: Place, values: &mut [u64; WIDTH_T]) -> Place
    ensures { FlatRead (some layout_tlock) s.now p values.old values.new result }
{
    let r = metadata::locks::read_tlock(s, p);
    let end = r.next?;
    flat::locks::flat_tlock(r.value, values);
    Ok(end)
}

pub(crate) fn read_tgetlock(s: &[u8], p: Place, values: &mut [u64; WIDTH_T]) -> Place
    ensures { FlatRead (some layout_tgetlock) s.now p values.old values.new result }
{
    let r = metadata::locks::read_tgetlock(s, p);
    let end = r.next?;
    flat::locks::flat_tgetlock(r.value, values);
    Ok(end)
}
