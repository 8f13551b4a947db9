// Written by tools/messages from its table of messages.
// The records of locks, laid flat and put together.

ghost use Rattle.std.specs.Prelude.{◌≡◌};
ghost use Rattle.layouts.specs.Tables.{layout_tlock, layout_rlock, layout_tgetlock, layout_rgetlock};
ghost use Rattle.metadata.specs.Records.{tlock, rlock, tgetlock, rgetlock};
ghost use Rattle.flat.specs.Flat.{flat_values, stored, field_values};

use crate::{U8, U32, WIDTH_R, WIDTH_T};
use layouts::ids::Fid;
use metadata::locks::{Rgetlock, Rlock, Tgetlock, Tlock};
use strings::Span;

pub fn flat_tlock(m: Tlock, values: &mut [u64; WIDTH_T])
    ensures { values.new ≡ stored values.old 0 (flat_values (tlock m)) }
{
    values[0] = m.fid.0 as u64;
    values[1] = m.type_ as u64;
    values[2] = m.flags as u64;
    values[3] = m.start;
    values[4] = m.length;
    values[5] = m.proc_id as u64;
    values[6] = m.client_id.start as u64;
    values[7] = m.client_id.len as u64;
}

pub fn tlock_of(v: [u64; WIDTH_T]) -> Tlock
    ensures { tlock result ≡ field_values layout_tlock v }
{
    Tlock {
        fid: Fid((v[0] % U32) as u32),
        type_: (v[1] % U8) as u8,
        flags: (v[2] % U32) as u32,
        start: v[3],
        length: v[4],
        proc_id: (v[5] % U32) as u32,
        client_id: Span {
            start: v[6] as usize,
            len: v[7] as usize,
        },
    }
}

pub fn flat_rlock(m: Rlock, values: &mut [u64; WIDTH_R])
    ensures { values.new ≡ stored values.old 0 (flat_values (rlock m)) }
{
    values[0] = m.status as u64;
}

pub fn rlock_of(v: [u64; WIDTH_R]) -> Rlock
    ensures { rlock result ≡ field_values layout_rlock v }
{
    Rlock {
        status: (v[0] % U8) as u8,
    }
}

pub fn flat_tgetlock(m: Tgetlock, values: &mut [u64; WIDTH_T])
    ensures { values.new ≡ stored values.old 0 (flat_values (tgetlock m)) }
{
    values[0] = m.fid.0 as u64;
    values[1] = m.type_ as u64;
    values[2] = m.start;
    values[3] = m.length;
    values[4] = m.proc_id as u64;
    values[5] = m.client_id.start as u64;
    values[6] = m.client_id.len as u64;
}

pub fn tgetlock_of(v: [u64; WIDTH_T]) -> Tgetlock
    ensures { tgetlock result ≡ field_values layout_tgetlock v }
{
    Tgetlock {
        fid: Fid((v[0] % U32) as u32),
        type_: (v[1] % U8) as u8,
        start: v[2],
        length: v[3],
        proc_id: (v[4] % U32) as u32,
        client_id: Span {
            start: v[5] as usize,
            len: v[6] as usize,
        },
    }
}

pub fn flat_rgetlock(m: Rgetlock, values: &mut [u64; WIDTH_R])
    ensures { values.new ≡ stored values.old 0 (flat_values (rgetlock m)) }
{
    values[0] = m.type_ as u64;
    values[1] = m.start;
    values[2] = m.length;
    values[3] = m.proc_id as u64;
    values[4] = m.client_id.start as u64;
    values[5] = m.client_id.len as u64;
}

pub fn rgetlock_of(v: [u64; WIDTH_R]) -> Rgetlock
    ensures { rgetlock result ≡ field_values layout_rgetlock v }
{
    Rgetlock {
        type_: (v[0] % U8) as u8,
        start: v[1],
        length: v[2],
        proc_id: (v[3] % U32) as u32,
        client_id: Span {
            start: v[4] as usize,
            len: v[5] as usize,
        },
    }
}
