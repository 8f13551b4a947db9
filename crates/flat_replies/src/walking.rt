// Written by tools/messages from its table of messages.
// Replies of walking, each read flat at a place.

ghost use Rattle.std.proofs.Math.Option.{some};
ghost use Rattle.layouts.specs.Tables.{layout_rwalk};
ghost use Rattle.flat.specs.Flat.{FlatRead};

use flat::WIDTH_R;
use numbers::Place;

pub(crate) fn read_rwalk(s: &[u8], p: Place, values: &mut [u64; WIDTH_R]) -> Place
    ensures { FlatRead (some layout_rwalk) s.now p values.old values.new result }
{
    let r = common::walking::read_rwalk(s, p);
    let end = r.next?;
    flat::walking::flat_rwalk(r.value, values);
    Ok(end)
}
