// Written by tools/messages from its table of messages.
// Requests of attributes, each read flat at a place.

ghost use Rattle.std.proofs.Math.Option.{some};
ghost use Rattle.layouts.specs.Plain.{layout_tstat, layout_twstat};
ghost use Rattle.flat.specs.Flat.{FlatRead};

use numbers::Place;
use plain_flat::WIDTH_T;

pub(crate) fn read_tstat(s: &[u8], p: Place, values: &mut [u64; WIDTH_T]) -> Place
    ensures { FlatRead (some layout_tstat) s.now p values.old values.new result }
{
    let end = flat::skip(s, p, 4)?;
    let r = plain::attributes::read_tstat(s, p);
    plain_flat::attributes::flat_tstat(r.value, values);
    Ok(end)
}

pub(crate) fn read_twstat(s: &[u8], p: Place, values: &mut [u64; WIDTH_T]) -> Place
    ensures { FlatRead (some layout_twstat) s.now p values.old values.new result }
{
    let r = plain::attributes::read_twstat(s, p);
    let end = r.next?;
    plain_flat::attributes::flat_twstat(r.value, values);
    Ok(end)
}
