// Written by tools/messages from its table of messages.
// The records that hold a stat or ask for one, laid flat and put together.

ghost use Rattle.std.specs.Prelude.{◌≡◌};
ghost use Rattle.layouts.specs.Plain.{layout_tstat, layout_rstat, layout_twstat};
ghost use Rattle.plain.specs.Records.{tstat, rstat, twstat};
ghost use Rattle.flat.specs.Flat.{flat_values, stored, field_values};

use crate::{WIDTH_R, WIDTH_T};
use flat::{U8, U16, U32};
use layouts::ids::Fid;
use layouts::qids::Qid;
use plain::attributes::{Rstat, Tstat, Twstat};
use stats::Stat;
use strings::Span;

pub fn flat_tstat(m: Tstat, values: &mut [u64; WIDTH_T])
    ensures { values.new ≡ stored values.old 0 (flat_values (tstat m)) }
{
    values[0] = m.fid.0 as u64;
}

pub fn tstat_of(v: [u64; WIDTH_T]) -> Tstat
    ensures { tstat result ≡ field_values layout_tstat v }
{
    Tstat {
        fid: Fid((v[0] % U32) as u32),
    }
}

pub fn flat_rstat(m: Rstat, values: &mut [u64; WIDTH_R])
    ensures { values.new ≡ stored values.old 0 (flat_values (rstat m)) }
{
    values[0] = m.stat.ty as u64;
    values[1] = m.stat.dev as u64;
    values[2] = m.stat.qid.ty as u64;
    values[3] = m.stat.qid.version as u64;
    values[4] = m.stat.qid.path;
    values[5] = m.stat.mode as u64;
    values[6] = m.stat.atime as u64;
    values[7] = m.stat.mtime as u64;
    values[8] = m.stat.length;
    values[9] = m.stat.name.start as u64;
    values[10] = m.stat.name.len as u64;
    values[11] = m.stat.uid.start as u64;
    values[12] = m.stat.uid.len as u64;
    values[13] = m.stat.gid.start as u64;
    values[14] = m.stat.gid.len as u64;
    values[15] = m.stat.muid.start as u64;
    values[16] = m.stat.muid.len as u64;
}

pub fn rstat_of(v: [u64; WIDTH_R]) -> Rstat
    ensures { rstat result ≡ field_values layout_rstat v }
{
    Rstat {
        stat: Stat {
            ty: (v[0] % U16) as u16,
            dev: (v[1] % U32) as u32,
            qid: Qid {
                ty: (v[2] % U8) as u8,
                version: (v[3] % U32) as u32,
                path: v[4],
            },
            mode: (v[5] % U32) as u32,
            atime: (v[6] % U32) as u32,
            mtime: (v[7] % U32) as u32,
            length: v[8],
            name: Span {
                start: v[9] as usize,
                len: v[10] as usize,
            },
            uid: Span {
                start: v[11] as usize,
                len: v[12] as usize,
            },
            gid: Span {
                start: v[13] as usize,
                len: v[14] as usize,
            },
            muid: Span {
                start: v[15] as usize,
                len: v[16] as usize,
            },
        },
    }
}

pub fn flat_twstat(m: Twstat, values: &mut [u64; WIDTH_T])
    ensures { values.new ≡ stored values.old 0 (flat_values (twstat m)) }
{
    values[0] = m.fid.0 as u64;
    values[1] = m.stat.ty as u64;
    values[2] = m.stat.dev as u64;
    values[3] = m.stat.qid.ty as u64;
    values[4] = m.stat.qid.version as u64;
    values[5] = m.stat.qid.path;
    values[6] = m.stat.mode as u64;
    values[7] = m.stat.atime as u64;
    values[8] = m.stat.mtime as u64;
    values[9] = m.stat.length;
    values[10] = m.stat.name.start as u64;
    values[11] = m.stat.name.len as u64;
    values[12] = m.stat.uid.start as u64;
    values[13] = m.stat.uid.len as u64;
    values[14] = m.stat.gid.start as u64;
    values[15] = m.stat.gid.len as u64;
    values[16] = m.stat.muid.start as u64;
    values[17] = m.stat.muid.len as u64;
}

pub fn twstat_of(v: [u64; WIDTH_T]) -> Twstat
    ensures { twstat result ≡ field_values layout_twstat v }
{
    Twstat {
        fid: Fid((v[0] % U32) as u32),
        stat: Stat {
            ty: (v[1] % U16) as u16,
            dev: (v[2] % U32) as u32,
            qid: Qid {
                ty: (v[3] % U8) as u8,
                version: (v[4] % U32) as u32,
                path: v[5],
            },
            mode: (v[6] % U32) as u32,
            atime: (v[7] % U32) as u32,
            mtime: (v[8] % U32) as u32,
            length: v[9],
            name: Span {
                start: v[10] as usize,
                len: v[11] as usize,
            },
            uid: Span {
                start: v[12] as usize,
                len: v[13] as usize,
            },
            gid: Span {
                start: v[14] as usize,
                len: v[15] as usize,
            },
            muid: Span {
                start: v[16] as usize,
                len: v[17] as usize,
            },
        },
    }
}
