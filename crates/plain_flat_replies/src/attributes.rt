// Written by tools/messages from its table of messages.
// Replies of attributes, each read flat at a place.

ghost use Rattle.std.proofs.Math.Option.{some};
ghost use Rattle.layouts.specs.Plain.{layout_rstat};
ghost use Rattle.flat.specs.Flat.{FlatRead};

use numbers::Place;
use plain_flat::WIDTH_R;

pub(crate) fn read_rstat(s: &[u8], p: Place, values: &mut [u64; WIDTH_R]) -> Place
    ensures { FlatRead (some layout_rstat) s.now p values.old values.new result }
{
    let r = plain::attributes::read_rstat(s, p);
    let end = r.next?;
    plain_flat::attributes::flat_rstat(r.value, values);
    Ok(end)
}
