// Written by tools/messages from its table of messages.
// The records of 9P2000's files, laid flat and put together.

ghost use Rattle.std.specs.Prelude.{◌≡◌};
ghost use Rattle.layouts.specs.Tables.{layout_tread, layout_twrite, layout_tremove};
ghost use Rattle.layouts.specs.Plain.{layout_topen, layout_ropen, layout_tcreate, layout_rcreate};
ghost use Rattle.common.specs.Records.{tread, twrite, tremove};
ghost use Rattle.plain.specs.Records.{topen, ropen, tcreate, rcreate};
ghost use Rattle.flat.specs.Flat.{flat_values, stored, field_values};

use crate::{WIDTH_R, WIDTH_T};
use common::files::{Tread, Tremove, Twrite};
use flat::{U8, U32};
use layouts::ids::Fid;
use layouts::qids::Qid;
use plain::files::{Rcreate, Ropen, Tcreate, Topen};
use strings::Span;

pub fn flat_tread(m: Tread, values: &mut [u64; WIDTH_T])
    ensures { values.new ≡ stored values.old 0 (flat_values (tread m)) }
{
    values[0] = m.fid.0 as u64;
    values[1] = m.offset;
    values[2] = m.count as u64;
}

pub fn tread_of(v: [u64; WIDTH_T]) -> Tread
    ensures { tread result ≡ field_values layout_tread v }
{
    Tread {
        fid: Fid((v[0] % U32) as u32),
        offset: v[1],
        count: (v[2] % U32) as u32,
    }
}

pub fn flat_twrite(m: Twrite, values: &mut [u64; WIDTH_T])
    ensures { values.new ≡ stored values.old 0 (flat_values (twrite m)) }
{
    values[0] = m.fid.0 as u64;
    values[1] = m.offset;
    values[2] = m.data.start as u64;
    values[3] = m.data.len as u64;
}

pub fn twrite_of(v: [u64; WIDTH_T]) -> Twrite
    ensures { twrite result ≡ field_values layout_twrite v }
{
    Twrite {
        fid: Fid((v[0] % U32) as u32),
        offset: v[1],
        data: Span {
            start: v[2] as usize,
            len: v[3] as usize,
        },
    }
}

pub fn flat_tremove(m: Tremove, values: &mut [u64; WIDTH_T])
    ensures { values.new ≡ stored values.old 0 (flat_values (tremove m)) }
{
    values[0] = m.fid.0 as u64;
}

pub fn tremove_of(v: [u64; WIDTH_T]) -> Tremove
    ensures { tremove result ≡ field_values layout_tremove v }
{
    Tremove {
        fid: Fid((v[0] % U32) as u32),
    }
}

pub fn flat_topen(m: Topen, values: &mut [u64; WIDTH_T])
    ensures { values.new ≡ stored values.old 0 (flat_values (topen m)) }
{
    values[0] = m.fid.0 as u64;
    values[1] = m.mode as u64;
}

pub fn topen_of(v: [u64; WIDTH_T]) -> Topen
    ensures { topen result ≡ field_values layout_topen v }
{
    Topen {
        fid: Fid((v[0] % U32) as u32),
        mode: (v[1] % U8) as u8,
    }
}

pub fn flat_ropen(m: Ropen, values: &mut [u64; WIDTH_R])
    ensures { values.new ≡ stored values.old 0 (flat_values (ropen m)) }
{
    values[0] = m.qid.ty as u64;
    values[1] = m.qid.version as u64;
    values[2] = m.qid.path;
    values[3] = m.iounit as u64;
}

pub fn ropen_of(v: [u64; WIDTH_R]) -> Ropen
    ensures { ropen result ≡ field_values layout_ropen v }
{
    Ropen {
        qid: Qid {
            ty: (v[0] % U8) as u8,
            version: (v[1] % U32) as u32,
            path: v[2],
        },
        iounit: (v[3] % U32) as u32,
    }
}

pub fn flat_tcreate(m: Tcreate, values: &mut [u64; WIDTH_T])
    ensures { values.new ≡ stored values.old 0 (flat_values (tcreate m)) }
{
    values[0] = m.fid.0 as u64;
    values[1] = m.name.start as u64;
    values[2] = m.name.len as u64;
    values[3] = m.perm as u64;
    values[4] = m.mode as u64;
}

pub fn tcreate_of(v: [u64; WIDTH_T]) -> Tcreate
    ensures { tcreate result ≡ field_values layout_tcreate v }
{
    Tcreate {
        fid: Fid((v[0] % U32) as u32),
        name: Span {
            start: v[1] as usize,
            len: v[2] as usize,
        },
        perm: (v[3] % U32) as u32,
        mode: (v[4] % U8) as u8,
    }
}

pub fn flat_rcreate(m: Rcreate, values: &mut [u64; WIDTH_R])
    ensures { values.new ≡ stored values.old 0 (flat_values (rcreate m)) }
{
    values[0] = m.qid.ty as u64;
    values[1] = m.qid.version as u64;
    values[2] = m.qid.path;
    values[3] = m.iounit as u64;
}

pub fn rcreate_of(v: [u64; WIDTH_R]) -> Rcreate
    ensures { rcreate result ≡ field_values layout_rcreate v }
{
    Rcreate {
        qid: Qid {
            ty: (v[0] % U8) as u8,
            version: (v[1] % U32) as u32,
            path: v[2],
        },
        iounit: (v[3] % U32) as u32,
    }
}
