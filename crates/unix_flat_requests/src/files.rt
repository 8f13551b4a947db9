// Written by tools/messages from its table of messages.
// Requests of files, each read flat at a place.

ghost use Rattle.std.proofs.Math.Option.{some};
ghost use Rattle.stats.specs.Unix.{layout_tcreate};
ghost use Rattle.flat.specs.Flat.{FlatRead};

use numbers::Place;
use plain_flat::WIDTH_T;

pub(crate) fn read_tcreate(s: &[u8], p: Place, values: &mut [u64; WIDTH_T]) -> Place
    ensures { FlatRead (some layout_tcreate) s.now p values.old values.new result }
{
    let r = unix::files::read_tcreate(s, p);
    let end = r.next?;
    unix_flat::files::flat_tcreate(r.value, values);
    Ok(end)
}
