// Written by tools/messages from its table of messages.
// The records of files, laid flat and put together.

ghost use Rattle.std.specs.Prelude.{◌≡◌};
ghost use Rattle.layouts.specs.Tables.{layout_tlopen, layout_rlopen, layout_tlcreate, layout_rlcreate, layout_tread, layout_rread, layout_twrite, layout_rwrite, layout_tfsync, layout_tremove};
ghost use Rattle.common.specs.Records.{tread, rread, twrite, rwrite, tremove};
ghost use Rattle.messages.specs.Records.{tlopen, rlopen, tlcreate, rlcreate, tfsync};
ghost use Rattle.flat.specs.Flat.{flat_values, stored, field_values};

use crate::{U8, U32, WIDTH_R, WIDTH_T};
use common::files::{Rread, Rwrite, Tread, Tremove, Twrite};
use layouts::ids::{Fid, Gid};
use layouts::qids::Qid;
use messages::files::{Rlcreate, Rlopen, Tfsync, Tlcreate, Tlopen};
use strings::Span;

pub fn flat_tlopen(m: Tlopen, values: &mut [u64; WIDTH_T])
    ensures { values.new ≡ stored values.old 0 (flat_values (tlopen m)) }
{
    values[0] = m.fid.0 as u64;
    values[1] = m.flags as u64;
}

pub fn tlopen_of(v: [u64; WIDTH_T]) -> Tlopen
    ensures { tlopen result ≡ field_values layout_tlopen v }
{
    Tlopen {
        fid: Fid((v[0] % U32) as u32),
        flags: (v[1] % U32) as u32,
    }
}

pub fn flat_rlopen(m: Rlopen, values: &mut [u64; WIDTH_R])
    ensures { values.new ≡ stored values.old 0 (flat_values (rlopen m)) }
{
    values[0] = m.qid.ty as u64;
    values[1] = m.qid.version as u64;
    values[2] = m.qid.path;
    values[3] = m.iounit as u64;
}

pub fn rlopen_of(v: [u64; WIDTH_R]) -> Rlopen
    ensures { rlopen result ≡ field_values layout_rlopen v }
{
    Rlopen {
        qid: Qid {
            ty: (v[0] % U8) as u8,
            version: (v[1] % U32) as u32,
            path: v[2],
        },
        iounit: (v[3] % U32) as u32,
    }
}

pub fn flat_tlcreate(m: Tlcreate, values: &mut [u64; WIDTH_T])
    ensures { values.new ≡ stored values.old 0 (flat_values (tlcreate m)) }
{
    values[0] = m.fid.0 as u64;
    values[1] = m.name.start as u64;
    values[2] = m.name.len as u64;
    values[3] = m.flags as u64;
    values[4] = m.mode as u64;
    values[5] = m.gid.0 as u64;
}

pub fn tlcreate_of(v: [u64; WIDTH_T]) -> Tlcreate
    ensures { tlcreate result ≡ field_values layout_tlcreate v }
{
    Tlcreate {
        fid: Fid((v[0] % U32) as u32),
        name: Span {
            start: v[1] as usize,
            len: v[2] as usize,
        },
        flags: (v[3] % U32) as u32,
        mode: (v[4] % U32) as u32,
        gid: Gid((v[5] % U32) as u32),
    }
}

pub fn flat_rlcreate(m: Rlcreate, values: &mut [u64; WIDTH_R])
    ensures { values.new ≡ stored values.old 0 (flat_values (rlcreate m)) }
{
    values[0] = m.qid.ty as u64;
    values[1] = m.qid.version as u64;
    values[2] = m.qid.path;
    values[3] = m.iounit as u64;
}

pub fn rlcreate_of(v: [u64; WIDTH_R]) -> Rlcreate
    ensures { rlcreate result ≡ field_values layout_rlcreate v }
{
    Rlcreate {
        qid: Qid {
            ty: (v[0] % U8) as u8,
            version: (v[1] % U32) as u32,
            path: v[2],
        },
        iounit: (v[3] % U32) as u32,
    }
}

pub fn flat_tread(m: Tread, values: &mut [u64; WIDTH_T])
    ensures { values.new ≡ stored values.old 0 (flat_values (tread m)) }
{
    values[0] = m.fid.0 as u64;
    values[1] = m.offset;
    values[2] = m.count as u64;
}

pub fn tread_of(v: [u64; WIDTH_T]) -> Tread
    ensures { tread result ≡ field_values layout_tread v }
{
    Tread {
        fid: Fid((v[0] % U32) as u32),
        offset: v[1],
        count: (v[2] % U32) as u32,
    }
}

pub fn flat_rread(m: Rread, values: &mut [u64; WIDTH_R])
    ensures { values.new ≡ stored values.old 0 (flat_values (rread m)) }
{
    values[0] = m.data.start as u64;
    values[1] = m.data.len as u64;
}

pub fn rread_of(v: [u64; WIDTH_R]) -> Rread
    ensures { rread result ≡ field_values layout_rread v }
{
    Rread {
        data: Span {
            start: v[0] as usize,
            len: v[1] as usize,
        },
    }
}

pub fn flat_twrite(m: Twrite, values: &mut [u64; WIDTH_T])
    ensures { values.new ≡ stored values.old 0 (flat_values (twrite m)) }
{
    values[0] = m.fid.0 as u64;
    values[1] = m.offset;
    values[2] = m.data.start as u64;
    values[3] = m.data.len as u64;
}

pub fn twrite_of(v: [u64; WIDTH_T]) -> Twrite
    ensures { twrite result ≡ field_values layout_twrite v }
{
    Twrite {
        fid: Fid((v[0] % U32) as u32),
        offset: v[1],
        data: Span {
            start: v[2] as usize,
            len: v[3] as usize,
        },
    }
}

pub fn flat_rwrite(m: Rwrite, values: &mut [u64; WIDTH_R])
    ensures { values.new ≡ stored values.old 0 (flat_values (rwrite m)) }
{
    values[0] = m.count as u64;
}

pub fn rwrite_of(v: [u64; WIDTH_R]) -> Rwrite
    ensures { rwrite result ≡ field_values layout_rwrite v }
{
    Rwrite {
        count: (v[0] % U32) as u32,
    }
}

pub fn flat_tfsync(m: Tfsync, values: &mut [u64; WIDTH_T])
    ensures { values.new ≡ stored values.old 0 (flat_values (tfsync m)) }
{
    values[0] = m.fid.0 as u64;
    values[1] = m.datasync as u64;
}

pub fn tfsync_of(v: [u64; WIDTH_T]) -> Tfsync
    ensures { tfsync result ≡ field_values layout_tfsync v }
{
    Tfsync {
        fid: Fid((v[0] % U32) as u32),
        datasync: (v[1] % U32) as u32,
    }
}

pub fn flat_tremove(m: Tremove, values: &mut [u64; WIDTH_T])
    ensures { values.new ≡ stored values.old 0 (flat_values (tremove m)) }
{
    values[0] = m.fid.0 as u64;
}

pub fn tremove_of(v: [u64; WIDTH_T]) -> Tremove
    ensures { tremove result ≡ field_values layout_tremove v }
{
    Tremove {
        fid: Fid((v[0] % U32) as u32),
    }
}
