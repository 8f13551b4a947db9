// Written by tools/messages from its table of messages.
// Requests of sessions, each read flat at a place.

ghost use Rattle.std.proofs.Math.Option.{some};
ghost use Rattle.layouts.specs.Tables.{layout_tauth, layout_tattach};
ghost use Rattle.flat.specs.Flat.{FlatRead};

use numbers::Place;
use plain_flat::WIDTH_T;

pub(crate) fn read_tauth(s: &[u8], p: Place, values: &mut [u64; WIDTH_T]) -> Place
    ensures { FlatRead (some layout_tauth) s.now p values.old values.new result }
{
    let r = messages::sessions::read_tauth(s, p);
    let end = r.next?;
    unix_flat::sessions::flat_tauth(r.value, values);
    Ok(end)
}

pub(crate) fn read_tattach(s: &[u8], p: Place, values: &mut [u64; WIDTH_T]) -> Place
    ensures { FlatRead (some layout_tattach) s.now p values.old values.new result }
{
    let r = messages::sessions::read_tattach(s, p);
    let end = r.next?;
    unix_flat::sessions::flat_tattach(r.value, values);
    Ok(end)
}
