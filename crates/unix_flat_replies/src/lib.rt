// Written by tools/messages from its table of messages.
// The 14 replies, read flat and written from flat values, by their type number.

#![tactic(auto)]

mod attributes;
mod sessions;

ghost use Rattle.layouts.specs.Tables.{lookup};
ghost use Rattle.stats.specs.Unix.{table_r};
ghost use Rattle.flat.specs.Flat.{FlatRead, FlatWritten};

use numbers::Place;
use plain_flat::WIDTH_R;

// A body read flat at a place: its values go to the front of what the caller lends for them, and the place after its fields is answered;
// refused, what was lent is as it was. The type decides the body, as in `unix_replies::read_rmessage`; but its record goes flat at once,
// and through no enum that would have to be told apart again.
pub fn read_flat(s: &[u8], ty: u8, p: Place, values: &mut [u64; WIDTH_R]) -> Place
    ensures { FlatRead (lookup table_r ty) s.now p values.old values.new result }
{
    match ty {
        107 => sessions::read_rerror(s, p, values),
        125 => attributes::read_rstat(s, p, values),
        _ => plain_flat_replies::read_flat(s, ty, p, values),
    }
}

// A body written at a place from the values of its record, which lie flat: its fields' refusals in order, then 10, then 11; 3 where the
// type is not known. A refusal leaves the output as it was.
pub fn write_flat(out: &mut [u8], p: Place, lent: &[u8], ty: u8, values: &[u64; WIDTH_R]) -> Place
    ensures { FlatWritten (lookup table_r ty) lent.now values.now out.old p out.new result }
{
    let v = *values;
    match ty {
        107 => unix::sessions::write_rerror(out, p, lent, unix_flat::sessions::rerror_of(v)),
        125 => unix::attributes::write_rstat(out, p, lent, unix_flat::attributes::rstat_of(v)),
        _ => plain_flat_replies::write_flat(out, p, lent, ty, values),
    }
}
