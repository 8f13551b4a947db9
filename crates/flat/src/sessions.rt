// Written by tools/messages from its table of messages.
// The records that open and close a session, laid flat and put together.

ghost use Rattle.std.specs.Prelude.{◌≡◌};
ghost use Rattle.layouts.specs.Tables.{layout_tversion, layout_rversion, layout_tauth, layout_rauth, layout_tattach, layout_rattach, layout_tflush, layout_tclunk, layout_rlerror};
ghost use Rattle.common.specs.Records.{tversion, rversion, rauth, rattach, tflush, tclunk};
ghost use Rattle.messages.specs.Records.{tauth, tattach, rlerror};
ghost use Rattle.flat.specs.Flat.{flat_values, stored, field_values};

use crate::{U8, U16, U32, WIDTH_R, WIDTH_T};
use common::sessions::{Rattach, Rauth, Rversion, Tclunk, Tflush, Tversion};
use layouts::ids::{Fid, Tag};
use layouts::qids::Qid;
use messages::sessions::{Rlerror, Tattach, Tauth};
use strings::Span;

pub fn flat_tversion(m: Tversion, values: &mut [u64; WIDTH_T])
    ensures { values.new ≡ stored values.old 0 (flat_values (tversion m)) }
{
    values[0] = m.msize as u64;
    values[1] = m.version.start as u64;
    values[2] = m.version.len as u64;
}

pub fn tversion_of(v: [u64; WIDTH_T]) -> Tversion
    ensures { tversion result ≡ field_values layout_tversion v }
{
    Tversion {
        msize: (v[0] % U32) as u32,
        version: Span {
            start: v[1] as usize,
            len: v[2] as usize,
        },
    }
}

pub fn flat_rversion(m: Rversion, values: &mut [u64; WIDTH_R])
    ensures { values.new ≡ stored values.old 0 (flat_values (rversion m)) }
{
    values[0] = m.msize as u64;
    values[1] = m.version.start as u64;
    values[2] = m.version.len as u64;
}

pub fn rversion_of(v: [u64; WIDTH_R]) -> Rversion
    ensures { rversion result ≡ field_values layout_rversion v }
{
    Rversion {
        msize: (v[0] % U32) as u32,
        version: Span {
            start: v[1] as usize,
            len: v[2] as usize,
        },
    }
}

pub fn flat_tauth(m: Tauth, values: &mut [u64; WIDTH_T])
    ensures { values.new ≡ stored values.old 0 (flat_values (tauth m)) }
{
    values[0] = m.afid.0 as u64;
    values[1] = m.uname.start as u64;
    values[2] = m.uname.len as u64;
    values[3] = m.aname.start as u64;
    values[4] = m.aname.len as u64;
    values[5] = m.n_uname as u64;
}

pub fn tauth_of(v: [u64; WIDTH_T]) -> Tauth
    ensures { tauth result ≡ field_values layout_tauth v }
{
    Tauth {
        afid: Fid((v[0] % U32) as u32),
        uname: Span {
            start: v[1] as usize,
            len: v[2] as usize,
        },
        aname: Span {
            start: v[3] as usize,
            len: v[4] as usize,
        },
        n_uname: (v[5] % U32) as u32,
    }
}

pub fn flat_rauth(m: Rauth, values: &mut [u64; WIDTH_R])
    ensures { values.new ≡ stored values.old 0 (flat_values (rauth m)) }
{
    values[0] = m.aqid.ty as u64;
    values[1] = m.aqid.version as u64;
    values[2] = m.aqid.path;
}

pub fn rauth_of(v: [u64; WIDTH_R]) -> Rauth
    ensures { rauth result ≡ field_values layout_rauth v }
{
    Rauth {
        aqid: Qid {
            ty: (v[0] % U8) as u8,
            version: (v[1] % U32) as u32,
            path: v[2],
        },
    }
}

pub fn flat_tattach(m: Tattach, values: &mut [u64; WIDTH_T])
    ensures { values.new ≡ stored values.old 0 (flat_values (tattach m)) }
{
    values[0] = m.fid.0 as u64;
    values[1] = m.afid.0 as u64;
    values[2] = m.uname.start as u64;
    values[3] = m.uname.len as u64;
    values[4] = m.aname.start as u64;
    values[5] = m.aname.len as u64;
    values[6] = m.n_uname as u64;
}

pub fn tattach_of(v: [u64; WIDTH_T]) -> Tattach
    ensures { tattach result ≡ field_values layout_tattach v }
{
    Tattach {
        fid: Fid((v[0] % U32) as u32),
        afid: Fid((v[1] % U32) as u32),
        uname: Span {
            start: v[2] as usize,
            len: v[3] as usize,
        },
        aname: Span {
            start: v[4] as usize,
            len: v[5] as usize,
        },
        n_uname: (v[6] % U32) as u32,
    }
}

pub fn flat_rattach(m: Rattach, values: &mut [u64; WIDTH_R])
    ensures { values.new ≡ stored values.old 0 (flat_values (rattach m)) }
{
    values[0] = m.qid.ty as u64;
    values[1] = m.qid.version as u64;
    values[2] = m.qid.path;
}

pub fn rattach_of(v: [u64; WIDTH_R]) -> Rattach
    ensures { rattach result ≡ field_values layout_rattach v }
{
    Rattach {
        qid: Qid {
            ty: (v[0] % U8) as u8,
            version: (v[1] % U32) as u32,
            path: v[2],
        },
    }
}

pub fn flat_tflush(m: Tflush, values: &mut [u64; WIDTH_T])
    ensures { values.new ≡ stored values.old 0 (flat_values (tflush m)) }
{
    values[0] = m.oldtag.0 as u64;
}

pub fn tflush_of(v: [u64; WIDTH_T]) -> Tflush
    ensures { tflush result ≡ field_values layout_tflush v }
{
    Tflush {
        oldtag: Tag((v[0] % U16) as u16),
    }
}

pub fn flat_tclunk(m: Tclunk, values: &mut [u64; WIDTH_T])
    ensures { values.new ≡ stored values.old 0 (flat_values (tclunk m)) }
{
    values[0] = m.fid.0 as u64;
}

pub fn tclunk_of(v: [u64; WIDTH_T]) -> Tclunk
    ensures { tclunk result ≡ field_values layout_tclunk v }
{
    Tclunk {
        fid: Fid((v[0] % U32) as u32),
    }
}

pub fn flat_rlerror(m: Rlerror, values: &mut [u64; WIDTH_R])
    ensures { values.new ≡ stored values.old 0 (flat_values (rlerror m)) }
{
    values[0] = m.ecode as u64;
}

pub fn rlerror_of(v: [u64; WIDTH_R]) -> Rlerror
    ensures { rlerror result ≡ field_values layout_rlerror v }
{
    Rlerror {
        ecode: (v[0] % U32) as u32,
    }
}
