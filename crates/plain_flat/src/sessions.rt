// Written by tools/messages from its table of messages.
// The records that open and close a session of 9P2000, laid flat and put together.

ghost use Rattle.std.specs.Prelude.{◌≡◌};
ghost use Rattle.layouts.specs.Tables.{layout_tversion, layout_tflush, layout_tclunk};
ghost use Rattle.layouts.specs.Plain.{layout_tauth, layout_tattach, layout_rerror};
ghost use Rattle.common.specs.Records.{tversion, tflush, tclunk};
ghost use Rattle.plain.specs.Records.{tauth, tattach, rerror};
ghost use Rattle.flat.specs.Flat.{flat_values, stored, field_values};

use crate::{WIDTH_R, WIDTH_T};
use common::sessions::{Tclunk, Tflush, Tversion};
use flat::{U16, U32};
use layouts::ids::{Fid, Tag};
use plain::sessions::{Rerror, Tattach, Tauth};
use strings::Span;

pub fn flat_tversion(m: Tversion, values: &mut [u64; WIDTH_T])
    ensures { values.new ≡ stored values.old 0 (flat_values (tversion m)) }
{
    values[0] = m.msize as u64;
    values[1] = m.version.start as u64;
    values[2] = m.version.len as u64;
}

pub fn tversion_of(v: [u64; WIDTH_T]) -> Tversion
    ensures { tversion result ≡ field_values layout_tversion v }
{
    Tversion {
        msize: (v[0] % U32) as u32,
        version: Span {
            start: v[1] as usize,
            len: v[2] as usize,
        },
    }
}

pub fn flat_tflush(m: Tflush, values: &mut [u64; WIDTH_T])
    ensures { values.new ≡ stored values.old 0 (flat_values (tflush m)) }
{
    values[0] = m.oldtag.0 as u64;
}

pub fn tflush_of(v: [u64; WIDTH_T]) -> Tflush
    ensures { tflush result ≡ field_values layout_tflush v }
{
    Tflush {
        oldtag: Tag((v[0] % U16) as u16),
    }
}

pub fn flat_tclunk(m: Tclunk, values: &mut [u64; WIDTH_T])
    ensures { values.new ≡ stored values.old 0 (flat_values (tclunk m)) }
{
    values[0] = m.fid.0 as u64;
}

pub fn tclunk_of(v: [u64; WIDTH_T]) -> Tclunk
    ensures { tclunk result ≡ field_values layout_tclunk v }
{
    Tclunk {
        fid: Fid((v[0] % U32) as u32),
    }
}

pub fn flat_tauth(m: Tauth, values: &mut [u64; WIDTH_T])
    ensures { values.new ≡ stored values.old 0 (flat_values (tauth m)) }
{
    values[0] = m.afid.0 as u64;
    values[1] = m.uname.start as u64;
    values[2] = m.uname.len as u64;
    values[3] = m.aname.start as u64;
    values[4] = m.aname.len as u64;
}

pub fn tauth_of(v: [u64; WIDTH_T]) -> Tauth
    ensures { tauth result ≡ field_values layout_tauth v }
{
    Tauth {
        afid: Fid((v[0] % U32) as u32),
        uname: Span {
            start: v[1] as usize,
            len: v[2] as usize,
        },
        aname: Span {
            start: v[3] as usize,
            len: v[4] as usize,
        },
    }
}

pub fn flat_tattach(m: Tattach, values: &mut [u64; WIDTH_T])
    ensures { values.new ≡ stored values.old 0 (flat_values (tattach m)) }
{
    values[0] = m.fid.0 as u64;
    values[1] = m.afid.0 as u64;
    values[2] = m.uname.start as u64;
    values[3] = m.uname.len as u64;
    values[4] = m.aname.start as u64;
    values[5] = m.aname.len as u64;
}

pub fn tattach_of(v: [u64; WIDTH_T]) -> Tattach
    ensures { tattach result ≡ field_values layout_tattach v }
{
    Tattach {
        fid: Fid((v[0] % U32) as u32),
        afid: Fid((v[1] % U32) as u32),
        uname: Span {
            start: v[2] as usize,
            len: v[3] as usize,
        },
        aname: Span {
            start: v[4] as usize,
            len: v[5] as usize,
        },
    }
}

pub fn flat_rerror(m: Rerror, values: &mut [u64; WIDTH_R])
    ensures { values.new ≡ stored values.old 0 (flat_values (rerror m)) }
{
    values[0] = m.ename.start as u64;
    values[1] = m.ename.len as u64;
}

pub fn rerror_of(v: [u64; WIDTH_R]) -> Rerror
    ensures { rerror result ≡ field_values layout_rerror v }
{
    Rerror {
        ename: Span {
            start: v[0] as usize,
            len: v[1] as usize,
        },
    }
}
