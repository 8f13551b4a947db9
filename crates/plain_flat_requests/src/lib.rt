// Written by tools/messages from its table of messages.
// The 13 requests, read flat and written from flat values, by their type number.

#![tactic(auto)]

mod attributes;
mod files;
mod sessions;
mod walking;

ghost use Rattle.layouts.specs.Tables.{lookup};
ghost use Rattle.layouts.specs.Plain.{table_t};
ghost use Rattle.flat.specs.Flat.{FlatRead, FlatWritten};

use numbers::{Fault, Place, Refusal};
use plain_flat::WIDTH_T;

// A body read flat at a place: its values go to the front of what the caller lends for them, and the place after its fields is answered;
// refused, what was lent is as it was. The type decides the body, as in `plain_requests::read_tmessage`; but its record goes flat at once,
// and through no enum that would have to be told apart again.
pub fn read_flat(s: &[u8], ty: u8, p: Place, values: &mut [u64; WIDTH_T]) -> Place
    ensures { FlatRead (lookup table_t ty) s.now p values.old values.new result }
{
    match ty {
        100 => sessions::read_tversion(s, p, values),
        102 => sessions::read_tauth(s, p, values),
        104 => sessions::read_tattach(s, p, values),
        108 => sessions::read_tflush(s, p, values),
        110 => walking::read_twalk(s, p, values),
        112 => files::read_topen(s, p, values),
        114 => files::read_tcreate(s, p, values),
        116 => files::read_tread(s, p, values),
        118 => files::read_twrite(s, p, values),
        120 => sessions::read_tclunk(s, p, values),
        122 => files::read_tremove(s, p, values),
        124 => attributes::read_tstat(s, p, values),
        126 => attributes::read_twstat(s, p, values),
        _ => Err(Fault(Refusal::UnknownType, 0)),
    }
}

// A body written at a place from the values of its record, which lie flat: its fields' refusals in order, then 10, then 11; 3 where the
// type is not known. A refusal leaves the output as it was.
pub fn write_flat(out: &mut [u8], p: Place, lent: &[u8], ty: u8, values: &[u64; WIDTH_T]) -> Place
    ensures { FlatWritten (lookup table_t ty) lent.now values.now out.old p out.new result }
{
    let v = *values;
    match ty {
        100 => common::sessions::write_tversion(out, p, lent, plain_flat::sessions::tversion_of(v)),
        102 => plain::sessions::write_tauth(out, p, lent, plain_flat::sessions::tauth_of(v)),
        104 => plain::sessions::write_tattach(out, p, lent, plain_flat::sessions::tattach_of(v)),
        108 => common::sessions::write_tflush(out, p, lent, plain_flat::sessions::tflush_of(v)),
        110 => common::walking::write_twalk(out, p, lent, plain_flat::walking::twalk_of(v)),
        112 => plain::files::write_topen(out, p, lent, plain_flat::files::topen_of(v)),
        114 => plain::files::write_tcreate(out, p, lent, plain_flat::files::tcreate_of(v)),
        116 => common::files::write_tread(out, p, lent, plain_flat::files::tread_of(v)),
        118 => common::files::write_twrite(out, p, lent, plain_flat::files::twrite_of(v)),
        120 => common::sessions::write_tclunk(out, p, lent, plain_flat::sessions::tclunk_of(v)),
        122 => common::files::write_tremove(out, p, lent, plain_flat::files::tremove_of(v)),
        124 => plain::attributes::write_tstat(out, p, lent, plain_flat::attributes::tstat_of(v)),
        126 => plain::attributes::write_twstat(out, p, lent, plain_flat::attributes::twstat_of(v)),
        _ => Err(Fault(Refusal::UnknownType, 0)),
    }
}
