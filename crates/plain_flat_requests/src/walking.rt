// Written by tools/messages from its table of messages.
// Requests of walking, each read flat at a place.

ghost use Rattle.std.proofs.Math.Option.{some};
ghost use Rattle.layouts.specs.Tables.{layout_twalk};
ghost use Rattle.flat.specs.Flat.{FlatRead};

use numbers::Place;
use plain_flat::WIDTH_T;

pub(crate) fn read_twalk(s: &[u8], p: Place, values: &mut [u64; WIDTH_T]) -> Place
    ensures { FlatRead (some layout_twalk) s.now p values.old values.new result }
{
    let r = common::walking::read_twalk(s, p);
    let end = r.next?;
    plain_flat::walking::flat_twalk(r.value, values);
    Ok(end)
}
