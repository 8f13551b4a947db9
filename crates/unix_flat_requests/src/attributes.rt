// Written by tools/messages from its table of messages.
// Requests of attributes, each read flat at a place.

ghost use Rattle.std.proofs.Math.Option.{some};
ghost use Rattle.stats.specs.Unix.{layout_twstat};
ghost use Rattle.flat.specs.Flat.{FlatRead};

use numbers::Place;
use plain_flat::WIDTH_T;

pub(crate) fn read_twstat(s: &[u8], p: Place, values: &mut [u64; WIDTH_T]) -> Place
    ensures { FlatRead (some layout_twstat) s.now p values.old values.new result }
{
    let r = unix::attributes::read_twstat(s, p);
    let end = r.next?;
    unix_flat::attributes::flat_twstat(r.value, values);
    Ok(end)
}
