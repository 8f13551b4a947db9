// Written by tools/messages from its table of messages.
// Replies of sessions, each read flat at a place.

ghost use Rattle.std.proofs.Math.Option.{some};
ghost use Rattle.stats.specs.Unix.{layout_rerror};
ghost use Rattle.flat.specs.Flat.{FlatRead};

use numbers::Place;
use plain_flat::WIDTH_R;

pub(crate) fn read_rerror(s: &[u8], p: Place, values: &mut [u64; WIDTH_R]) -> Place
    ensures { FlatRead (some layout_rerror) s.now p values.old values.new result }
{
    let r = unix::sessions::read_rerror(s, p);
    let end = r.next?;
    unix_flat::sessions::flat_rerror(r.value, values);
    Ok(end)
}
