// Written by tools/messages from its table of messages.
// The 29 replies, read flat and written from flat values, by their type number.

#![tactic(auto)]

mod attributes;
mod directories;
mod files;
mod locks;
mod sessions;
mod walking;

ghost use Rattle.layouts.specs.Tables.{lookup};
ghost use Rattle.layouts.specs.Tables.{table_r};
ghost use Rattle.flat.specs.Flat.{FlatRead, FlatWritten};

use flat::WIDTH_R;
use numbers::{Fault, Place, Refusal};

// A body read flat at a place: its values go to the front of what the caller lends for them, and the place after its fields is answered;
// refused, what was lent is as it was. The type decides the body, as in `replies::read_rmessage`; but its record goes flat at once,
// and through no enum that would have to be told apart again.
pub fn read_flat(s: &[u8], ty: u8, p: Place, values: &mut [u64; WIDTH_R]) -> Place
    ensures { FlatRead (lookup table_r ty) s.now p values.old values.new result }
{
    match ty {
        7 => sessions::read_rlerror(s, p, values),
        9 => attributes::read_rstatfs(s, p, values),
        13 => files::read_rlopen(s, p, values),
        15 => files::read_rlcreate(s, p, values),
        17 => directories::read_rsymlink(s, p, values),
        19 => directories::read_rmknod(s, p, values),
        21 => p,
        23 => directories::read_rreadlink(s, p, values),
        25 => attributes::read_rgetattr(s, p, values),
        27 => p,
        31 => attributes::read_rxattrwalk(s, p, values),
        33 => p,
        41 => directories::read_rreaddir(s, p, values),
        51 => p,
        53 => locks::read_rlock(s, p, values),
        55 => locks::read_rgetlock(s, p, values),
        71 => p,
        73 => directories::read_rmkdir(s, p, values),
        75 => p,
        77 => p,
        101 => sessions::read_rversion(s, p, values),
        103 => sessions::read_rauth(s, p, values),
        105 => sessions::read_rattach(s, p, values),
        109 => p,
        111 => walking::read_rwalk(s, p, values),
        117 => files::read_rread(s, p, values),
        119 => files::read_rwrite(s, p, values),
        121 => p,
        123 => p,
        _ => Err(Fault(Refusal::UnknownType, 0)),
    }
}

// A body written at a place from the values of its record, which lie flat: its fields' refusals in order, then 10, then 11; 3 where the
// type is not known. A refusal leaves the output as it was.
pub fn write_flat(out: &mut [u8], p: Place, lent: &[u8], ty: u8, values: &[u64; WIDTH_R]) -> Place
    ensures { FlatWritten (lookup table_r ty) lent.now values.now out.old p out.new result }
{
    let v = *values;
    match ty {
        7 => messages::sessions::write_rlerror(out, p, lent, flat::sessions::rlerror_of(v)),
        9 => metadata::attributes::write_rstatfs(out, p, lent, flat::attributes::rstatfs_of(v)),
        13 => messages::files::write_rlopen(out, p, lent, flat::files::rlopen_of(v)),
        15 => messages::files::write_rlcreate(out, p, lent, flat::files::rlcreate_of(v)),
        17 => messages::directories::write_rsymlink(
            out,
            p,
            lent,
            flat::directories::rsymlink_of(v),
        ),
        19 => messages::directories::write_rmknod(out, p, lent, flat::directories::rmknod_of(v)),
        21 => laying::begun(p, p, out.len()),
        23 => messages::directories::write_rreadlink(
            out,
            p,
            lent,
            flat::directories::rreadlink_of(v),
        ),
        25 => metadata::attributes::write_rgetattr(out, p, lent, flat::attributes::rgetattr_of(v)),
        27 => laying::begun(p, p, out.len()),
        31 => metadata::attributes::write_rxattrwalk(
            out,
            p,
            lent,
            flat::attributes::rxattrwalk_of(v),
        ),
        33 => laying::begun(p, p, out.len()),
        41 => messages::directories::write_rreaddir(
            out,
            p,
            lent,
            flat::directories::rreaddir_of(v),
        ),
        51 => laying::begun(p, p, out.len()),
        53 => metadata::locks::write_rlock(out, p, lent, flat::locks::rlock_of(v)),
        55 => metadata::locks::write_rgetlock(out, p, lent, flat::locks::rgetlock_of(v)),
        71 => laying::begun(p, p, out.len()),
        73 => messages::directories::write_rmkdir(out, p, lent, flat::directories::rmkdir_of(v)),
        75 => laying::begun(p, p, out.len()),
        77 => laying::begun(p, p, out.len()),
        101 => common::sessions::write_rversion(out, p, lent, flat::sessions::rversion_of(v)),
        103 => common::sessions::write_rauth(out, p, lent, flat::sessions::rauth_of(v)),
        105 => common::sessions::write_rattach(out, p, lent, flat::sessions::rattach_of(v)),
        109 => laying::begun(p, p, out.len()),
        111 => common::walking::write_rwalk(out, p, lent, flat::walking::rwalk_of(v)),
        117 => common::files::write_rread(out, p, lent, flat::files::rread_of(v)),
        119 => common::files::write_rwrite(out, p, lent, flat::files::rwrite_of(v)),
        121 => laying::begun(p, p, out.len()),
        123 => laying::begun(p, p, out.len()),
        _ => Err(Fault(Refusal::UnknownType, 0)),
    }
}
