// Written by tools/messages from its table of messages.
// The 13 requests, read flat and written from flat values, by their type number.

#![tactic(auto)]

mod attributes;
mod files;
mod sessions;

ghost use Rattle.layouts.specs.Tables.{lookup};
ghost use Rattle.stats.specs.Unix.{table_t};
ghost use Rattle.flat.specs.Flat.{FlatRead, FlatWritten};

use numbers::Place;
use plain_flat::WIDTH_T;

// A body read flat at a place: its values go to the front of what the caller lends for them, and the place after its fields is answered;
// refused, what was lent is as it was. The type decides the body, as in `unix_requests::read_tmessage`; but its record goes flat at once,
// and through no enum that would have to be told apart again.
pub fn read_flat(s: &[u8], ty: u8, p: Place, values: &mut [u64; WIDTH_T]) -> Place
    ensures { FlatRead (lookup table_t ty) s.now p values.old values.new result }
{
    match ty {
        102 => sessions::read_tauth(s, p, values),
        104 => sessions::read_tattach(s, p, values),
        114 => files::read_tcreate(s, p, values),
        126 => attributes::read_twstat(s, p, values),
        _ => plain_flat_requests::read_flat(s, ty, p, values),
    }
}

// A body written at a place from the values of its record, which lie flat: its fields' refusals in order, then 10, then 11; 3 where the
// type is not known. A refusal leaves the output as it was.
pub fn write_flat(out: &mut [u8], p: Place, lent: &[u8], ty: u8, values: &[u64; WIDTH_T]) -> Place
    ensures { FlatWritten (lookup table_t ty) lent.now values.now out.old p out.new result }
{
    let v = *values;
    match ty {
        102 => messages::sessions::write_tauth(out, p, lent, unix_flat::sessions::tauth_of(v)),
        104 => messages::sessions::write_tattach(out, p, lent, unix_flat::sessions::tattach_of(v)),
        114 => unix::files::write_tcreate(out, p, lent, unix_flat::files::tcreate_of(v)),
        126 => unix::attributes::write_twstat(out, p, lent, unix_flat::attributes::twstat_of(v)),
        _ => plain_flat_requests::write_flat(out, p, lent, ty, values),
    }
}
