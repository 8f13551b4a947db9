// Written by tools/messages from its table of messages.
// Requests of sessions, each read flat at a place.

ghost use Rattle.std.proofs.Math.Option.{some};
ghost use Rattle.layouts.specs.Tables.{layout_tversion, layout_tflush, layout_tclunk};
ghost use Rattle.layouts.specs.Plain.{layout_tauth, layout_tattach};
ghost use Rattle.flat.specs.Flat.{FlatRead};

use numbers::Place;
use plain_flat::WIDTH_T;

pub(crate) fn read_tversion(s: &[u8], p: Place, values: &mut [u64; WIDTH_T]) -> Place
    ensures { FlatRead (some layout_tversion) s.now p values.old values.new result }
{
    let r = common::sessions::read_tversion(s, p);
    let end = r.next?;
    plain_flat::sessions::flat_tversion(r.value, values);
    Ok(end)
}

pub(crate) fn read_tflush(s: &[u8], p: Place, values: &mut [u64; WIDTH_T]) -> Place
    ensures { FlatRead (some layout_tflush) s.now p values.old values.new result }
{
    let end = flat::skip(s, p, 2)?;
    let r = common::sessions::read_tflush(s, p);
    plain_flat::sessions::flat_tflush(r.value, values);
    Ok(end)
}

pub(crate) fn read_tclunk(s: &[u8], p: Place, values: &mut [u64; WIDTH_T]) -> Place
    ensures { FlatRead (some layout_tclunk) s.now p values.old values.new result }
{
    let end = flat::skip(s, p, 4)?;
    let r = common::sessions::read_tclunk(s, p);
    plain_flat::sessions::flat_tclunk(r.value, values);
    Ok(end)
}

pub(crate) fn read_tauth(s: &[u8], p: Place, values: &mut [u64; WIDTH_T]) -> Place
    ensures { FlatRead (some layout_tauth) s.now p values.old values.new result }
{
    let r = plain::sessions::read_tauth(s, p);
    let end = r.next?;
    plain_flat::sessions::flat_tauth(r.value, values);
    Ok(end)
}

pub(crate) fn read_tattach(s: &[u8], p: Place, values: &mut [u64; WIDTH_T]) -> Place
    ensures { FlatRead (some layout_tattach) s.now p values.old values.new result }
{
    let r = plain::sessions::read_tattach(s, p);
    let end = r.next?;
    plain_flat::sessions::flat_tattach(r.value, values);
    Ok(end)
}
