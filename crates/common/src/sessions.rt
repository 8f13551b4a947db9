// Written by tools/messages from its table of messages.
// Opening and closing a session, as every dialect does: version, what auth and attach answer, flush, clunk.

ghost use Rattle.fields.specs.Fields.{Fields};
ghost use Rattle.laying.specs.Laying.{Written};
ghost use Rattle.layouts.specs.Tables.{layout_tversion, layout_rversion, layout_rauth, layout_rattach, layout_tflush, layout_tclunk};
ghost use Rattle.common.specs.Records.{tversion, rversion, rauth, rattach, tflush, tclunk};

use layouts::ids::{Fid, Tag};
use layouts::qids;
use layouts::qids::Qid;
use numbers::{Place, Read};
use strings::Span;

#[derive(Clone, Copy)]
pub struct Tversion {
    pub msize: u32,
    pub version: Span,
}

pub fn read_tversion(s: &[u8], p: Place) -> Read<Tversion>
    ensures { Fields layout_tversion s.now p (tversion result.value) result.next }
{
    let msize = numbers::read_u32(s, p);
    let version = strings::read_str(s, msize.next);
    Read {
        value: Tversion {
            msize: msize.value,
            version: version.value,
        },
        next: version.next,
    }
}

pub fn write_tversion(out: &mut [u8], p: Place, lent: &[u8], m: Tversion) -> Place
    ensures { Written layout_tversion lent.now (tversion m) out.old p out.new result }
{
    let p1 = laying::advanced(p, 4);
    let end = laying::measure_str(lent, m.version, p1);
    let start = laying::begun(p, end, out.len());
    let q1 = numbers::put_u32(out, start, m.msize);
    let q2 = numbers::put_num(out, q1, m.version.len as u64, 2);
    strings::put_bytes(out, q2, lent, m.version)
}

#[derive(Clone, Copy)]
pub struct Rversion {
    pub msize: u32,
    pub version: Span,
}

pub fn read_rversion(s: &[u8], p: Place) -> Read<Rversion>
    ensures { Fields layout_rversion s.now p (rversion result.value) result.next }
{
    let msize = numbers::read_u32(s, p);
    let version = strings::read_str(s, msize.next);
    Read {
        value: Rversion {
            msize: msize.value,
            version: version.value,
        },
        next: version.next,
    }
}

pub fn write_rversion(out: &mut [u8], p: Place, lent: &[u8], m: Rversion) -> Place
    ensures { Written layout_rversion lent.now (rversion m) out.old p out.new result }
{
    let p1 = laying::advanced(p, 4);
    let end = laying::measure_str(lent, m.version, p1);
    let start = laying::begun(p, end, out.len());
    let q1 = numbers::put_u32(out, start, m.msize);
    let q2 = numbers::put_num(out, q1, m.version.len as u64, 2);
    strings::put_bytes(out, q2, lent, m.version)
}

#[derive(Clone, Copy)]
pub struct Rauth {
    pub aqid: Qid,
}

pub fn read_rauth(s: &[u8], p: Place) -> Read<Rauth>
    ensures { Fields layout_rauth s.now p (rauth result.value) result.next }
{
    let aqid = qids::read_qid(s, p);
    Read {
        value: Rauth { aqid: aqid.value },
        next: aqid.next,
    }
}

pub fn write_rauth(out: &mut [u8], p: Place, lent: &[u8], m: Rauth) -> Place
    ensures { Written layout_rauth lent.now (rauth m) out.old p out.new result }
{
    let end = laying::advanced(p, 13);
    let start = laying::begun(p, end, out.len());
    let q1 = numbers::put_u8(out, start, m.aqid.ty);
    let q2 = numbers::put_u32(out, q1, m.aqid.version);
    numbers::put_u64(out, q2, m.aqid.path)
}

#[derive(Clone, Copy)]
pub struct Rattach {
    pub qid: Qid,
}

pub fn read_rattach(s: &[u8], p: Place) -> Read<Rattach>
    ensures { Fields layout_rattach s.now p (rattach result.value) result.next }
{
    let qid = qids::read_qid(s, p);
    Read {
        value: Rattach { qid: qid.value },
        next: qid.next,
    }
}

pub fn write_rattach(out: &mut [u8], p: Place, lent: &[u8], m: Rattach) -> Place
    ensures { Written layout_rattach lent.now (rattach m) out.old p out.new result }
{
    let end = laying::advanced(p, 13);
    let start = laying::begun(p, end, out.len());
    let q1 = numbers::put_u8(out, start, m.qid.ty);
    let q2 = numbers::put_u32(out, q1, m.qid.version);
    numbers::put_u64(out, q2, m.qid.path)
}

#[derive(Clone, Copy)]
pub struct Tflush {
    pub oldtag: Tag,
}

pub fn read_tflush(s: &[u8], p: Place) -> Read<Tflush>
    ensures { Fields layout_tflush s.now p (tflush result.value) result.next }
{
    let oldtag = numbers::read_u16(s, p);
    Read {
        value: Tflush {
            oldtag: Tag(oldtag.value),
        },
        next: oldtag.next,
    }
}

pub fn write_tflush(out: &mut [u8], p: Place, lent: &[u8], m: Tflush) -> Place
    ensures { Written layout_tflush lent.now (tflush m) out.old p out.new result }
{
    let end = laying::advanced(p, 2);
    let start = laying::begun(p, end, out.len());
    numbers::put_u16(out, start, m.oldtag.0)
}

#[derive(Clone, Copy)]
pub struct Tclunk {
    pub fid: Fid,
}

pub fn read_tclunk(s: &[u8], p: Place) -> Read<Tclunk>
    ensures { Fields layout_tclunk s.now p (tclunk result.value) result.next }
{
    let fid = numbers::read_u32(s, p);
    Read {
        value: Tclunk {
            fid: Fid(fid.value),
        },
        next: fid.next,
    }
}

pub fn write_tclunk(out: &mut [u8], p: Place, lent: &[u8], m: Tclunk) -> Place
    ensures { Written layout_tclunk lent.now (tclunk m) out.old p out.new result }
{
    let end = laying::advanced(p, 4);
    let start = laying::begun(p, end, out.len());
    numbers::put_u32(out, start, m.fid.0)
}
