// Written by tools/messages from its table of messages.
// Replies of sessions, each read flat at a place.

ghost use Rattle.std.proofs.Math.Option.{some};
ghost use Rattle.layouts.specs.Tables.{layout_rversion, layout_rauth, layout_rattach, layout_rlerror};
ghost use Rattle.flat.specs.Flat.{FlatRead};

use flat::WIDTH_R;
use numbers::Place;

pub(crate) fn read_rversion(s: &[u8], p: Place, values: &mut [u64; WIDTH_R]) -> Place
    ensures { FlatRead (some layout_rversion) s.now p values.old values.new result }
{
    let r = common::sessions::read_rversion(s, p);
    let end = r.next?;
    flat::sessions::flat_rversion(r.value, values);
    Ok(end)
}

pub(crate) fn read_rauth(s: &[u8], p: Place, values: &mut [u64; WIDTH_R]) -> Place
    ensures { FlatRead (some layout_rauth) s.now p values.old values.new result }
{
    let end = flat::skip(s, p, 13)?;
    let r = common::sessions::read_rauth(s, p);
    flat::sessions::flat_rauth(r.value, values);
    Ok(end)
}

pub(crate) fn read_rattach(s: &[u8], p: Place, values: &mut [u64; WIDTH_R]) -> Place
    ensures { FlatRead (some layout_rattach) s.now p values.old values.new result }
{
    let end = flat::skip(s, p, 13)?;
    let r = common::sessions::read_rattach(s, p);
    flat::sessions::flat_rattach(r.value, values);
    Ok(end)
}

pub(crate) fn read_rlerror(s: &[u8], p: Place, values: &mut [u64; WIDTH_R]) -> Place
    ensures { FlatRead (some layout_rlerror) s.now p values.old values.new result }
{
    let end = flat::skip(s, p, 4)?;
    let r = messages::sessions::read_rlerror(s, p);
    flat::sessions::flat_rlerror(r.value, values);
    Ok(end)
}
