// Written by tools/messages from its table of messages.
// The 28 requests, read flat and written from flat values, by their type number.

#![tactic(auto)]

mod attributes;
mod directories;
mod files;
mod locks;
mod sessions;
mod walking;

ghost use Rattle.layouts.specs.Tables.{lookup};
ghost use Rattle.layouts.specs.Tables.{table_t};
ghost use Rattle.flat.specs.Flat.{FlatRead, FlatWritten};

use flat::WIDTH_T;
use numbers::{Fault, Place, Refusal};

// A body read flat at a place: its values go to the front of what the caller lends for them, and the place after its fields is answered;
// refused, what was lent is as it was. The type decides the body, as in `requests::read_tmessage`; but its record goes flat at once,
// and through no enum that would have to be told apart again.
pub fn read_flat(s: &[u8], ty: u8, p: Place, values: &mut [u64; WIDTH_T]) -> Place
    ensures { FlatRead (lookup table_t ty) s.now p values.old values.new result }
{
    match ty {
        8 => attributes::read_tstatfs(s, p, values),
        12 => files::read_tlopen(s, p, values),
        14 => files::read_tlcreate(s, p, values),
        16 => directories::read_tsymlink(s, p, values),
        18 => directories::read_tmknod(s, p, values),
        20 => directories::read_trename(s, p, values),
        22 => directories::read_treadlink(s, p, values),
        24 => attributes::read_tgetattr(s, p, values),
        26 => attributes::read_tsetattr(s, p, values),
        30 => attributes::read_txattrwalk(s, p, values),
        32 => attributes::read_txattrcreate(s, p, values),
        40 => directories::read_treaddir(s, p, values),
        50 => files::read_tfsync(s, p, values),
        52 => locks::read_tlock(s, p, values),
        54 => locks::read_tgetlock(s, p, values),
        70 => directories::read_tlink(s, p, values),
        72 => directories::read_tmkdir(s, p, values),
        74 => directories::read_trenameat(s, p, values),
        76 => directories::read_tunlinkat(s, p, values),
        100 => sessions::read_tversion(s, p, values),
        102 => sessions::read_tauth(s, p, values),
        104 => sessions::read_tattach(s, p, values),
        108 => sessions::read_tflush(s, p, values),
        110 => walking::read_twalk(s, p, values),
        116 => files::read_tread(s, p, values),
        118 => files::read_twrite(s, p, values),
        120 => sessions::read_tclunk(s, p, values),
        122 => files::read_tremove(s, p, values),
        _ => Err(Fault(Refusal::UnknownType, 0)),
    }
}

// A body written at a place from the values of its record, which lie flat: its fields' refusals in order, then 10, then 11; 3 where the
// type is not known. A refusal leaves the output as it was.
pub fn write_flat(out: &mut [u8], p: Place, lent: &[u8], ty: u8, values: &[u64; WIDTH_T]) -> Place
    ensures { FlatWritten (lookup table_t ty) lent.now values.now out.old p out.new result }
{
    let v = *values;
    match ty {
        8 => metadata::attributes::write_tstatfs(out, p, lent, flat::attributes::tstatfs_of(v)),
        12 => messages::files::write_tlopen(out, p, lent, flat::files::tlopen_of(v)),
        14 => messages::files::write_tlcreate(out, p, lent, flat::files::tlcreate_of(v)),
        16 => messages::directories::write_tsymlink(
            out,
            p,
            lent,
            flat::directories::tsymlink_of(v),
        ),
        18 => messages::directories::write_tmknod(out, p, lent, flat::directories::tmknod_of(v)),
        20 => messages::directories::write_trename(out, p, lent, flat::directories::trename_of(v)),
        22 => messages::directories::write_treadlink(
            out,
            p,
            lent,
            flat::directories::treadlink_of(v),
        ),
        24 => metadata::attributes::write_tgetattr(out, p, lent, flat::attributes::tgetattr_of(v)),
        26 => metadata::attributes::write_tsetattr(out, p, lent, flat::attributes::tsetattr_of(v)),
        30 => metadata::attributes::write_txattrwalk(
            out,
            p,
            lent,
            flat::attributes::txattrwalk_of(v),
        ),
        32 => metadata::attributes::write_txattrcreate(
            out,
            p,
            lent,
            flat::attributes::txattrcreate_of(v),
        ),
        40 => messages::directories::write_treaddir(
            out,
            p,
            lent,
            flat::directories::treaddir_of(v),
        ),
        50 => messages::files::write_tfsync(out, p, lent, flat::files::tfsync_of(v)),
        52 => metadata::locks::write_tlock(out, p, lent, flat::locks::tlock_of(v)),
        54 => metadata::locks::write_tgetlock(out, p, lent, flat::locks::tgetlock_of(v)),
        70 => messages::directories::write_tlink(out, p, lent, flat::directories::tlink_of(v)),
        72 => messages::directories::write_tmkdir(out, p, lent, flat::directories::tmkdir_of(v)),
        74 => messages::directories::write_trenameat(
            out,
            p,
            lent,
            flat::directories::trenameat_of(v),
        ),
        76 => messages::directories::write_tunlinkat(
            out,
            p,
            lent,
            flat::directories::tunlinkat_of(v),
        ),
        100 => common::sessions::write_tversion(out, p, lent, flat::sessions::tversion_of(v)),
        102 => messages::sessions::write_tauth(out, p, lent, flat::sessions::tauth_of(v)),
        104 => messages::sessions::write_tattach(out, p, lent, flat::sessions::tattach_of(v)),
        108 => common::sessions::write_tflush(out, p, lent, flat::sessions::tflush_of(v)),
        110 => common::walking::write_twalk(out, p, lent, flat::walking::twalk_of(v)),
        116 => common::files::write_tread(out, p, lent, flat::files::tread_of(v)),
        118 => common::files::write_twrite(out, p, lent, flat::files::twrite_of(v)),
        120 => common::sessions::write_tclunk(out, p, lent, flat::sessions::tclunk_of(v)),
        122 => common::files::write_tremove(out, p, lent, flat::files::tremove_of(v)),
        _ => Err(Fault(Refusal::UnknownType, 0)),
    }
}
