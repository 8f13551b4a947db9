// Written by tools/messages from its table of messages.
// The 14 replies, read flat and written from flat values, by their type number.

#![tactic(auto)]

mod attributes;
mod files;
mod sessions;
mod walking;

ghost use Rattle.layouts.specs.Tables.{lookup};
ghost use Rattle.layouts.specs.Plain.{table_r};
ghost use Rattle.flat.specs.Flat.{FlatRead, FlatWritten};

use numbers::{Fault, Place, Refusal};
use plain_flat::WIDTH_R;

// A body read flat at a place: its values go to the front of what the caller lends for them, and the place after its fields is answered;
// refused, what was lent is as it was. The type decides the body, as in `plain_replies::read_rmessage`; but its record goes flat at once,
// and through no enum that would have to be told apart again.
pub fn read_flat(s: &[u8], ty: u8, p: Place, values: &mut [u64; WIDTH_R]) -> Place
    ensures { FlatRead (lookup table_r ty) s.now p values.old values.new result }
{
    match ty {
        101 => sessions::read_rversion(s, p, values),
        103 => sessions::read_rauth(s, p, values),
        105 => sessions::read_rattach(s, p, values),
        107 => sessions::read_rerror(s, p, values),
        109 => p,
        111 => walking::read_rwalk(s, p, values),
        113 => files::read_ropen(s, p, values),
        115 => files::read_rcreate(s, p, values),
        117 => files::read_rread(s, p, values),
        119 => files::read_rwrite(s, p, values),
        121 => p,
        123 => p,
        125 => attributes::read_rstat(s, p, values),
        127 => p,
        _ => Err(Fault(Refusal::UnknownType, 0)),
    }
}

// A body written at a place from the values of its record, which lie flat: its fields' refusals in order, then 10, then 11; 3 where the
// type is not known. A refusal leaves the output as it was.
pub fn write_flat(out: &mut [u8], p: Place, lent: &[u8], ty: u8, values: &[u64; WIDTH_R]) -> Place
    ensures { FlatWritten (lookup table_r ty) lent.now values.now out.old p out.new result }
{
    let v = *values;
    match ty {
        101 => common::sessions::write_rversion(out, p, lent, flat::sessions::rversion_of(v)),
        103 => common::sessions::write_rauth(out, p, lent, flat::sessions::rauth_of(v)),
        105 => common::sessions::write_rattach(out, p, lent, flat::sessions::rattach_of(v)),
        107 => plain::sessions::write_rerror(out, p, lent, plain_flat::sessions::rerror_of(v)),
        109 => laying::begun(p, p, out.len()),
        111 => common::walking::write_rwalk(out, p, lent, flat::walking::rwalk_of(v)),
        113 => plain::files::write_ropen(out, p, lent, plain_flat::files::ropen_of(v)),
        115 => plain::files::write_rcreate(out, p, lent, plain_flat::files::rcreate_of(v)),
        117 => common::files::write_rread(out, p, lent, flat::files::rread_of(v)),
        119 => common::files::write_rwrite(out, p, lent, flat::files::rwrite_of(v)),
        121 => laying::begun(p, p, out.len()),
        123 => laying::begun(p, p, out.len()),
        125 => plain::attributes::write_rstat(out, p, lent, plain_flat::attributes::rstat_of(v)),
        127 => laying::begun(p, p, out.len()),
        _ => Err(Fault(Refusal::UnknownType, 0)),
    }
}
