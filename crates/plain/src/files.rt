// Written by tools/messages from its table of messages.
// Files, as 9P2000 opens and makes them.

ghost use Rattle.fields.specs.Fields.{Fields};
ghost use Rattle.laying.specs.Laying.{Written};
ghost use Rattle.layouts.specs.Plain.{layout_topen, layout_ropen, layout_tcreate, layout_rcreate};
ghost use Rattle.plain.specs.Records.{topen, ropen, tcreate, rcreate};

use layouts::ids::Fid;
use layouts::qids;
use layouts::qids::Qid;
use numbers::{Place, Read};
use strings::Span;

#[derive(Clone, Copy)]
pub struct Topen {
    pub fid: Fid,
    pub mode: u8,
}

pub fn read_topen(s: &[u8], p: Place) -> Read<Topen>
    ensures { Fields layout_topen s.now p (topen result.value) result.next }
{
    let fid = numbers::read_u32(s, p);
    let mode = numbers::read_u8(s, fid.next);
    Read {
        value: Topen {
            fid: Fid(fid.value),
            mode: mode.value,
        },
        next: mode.next,
    }
}

pub fn write_topen(out: &mut [u8], p: Place, lent: &[u8], m: Topen) -> Place
    ensures { Written layout_topen lent.now (topen m) out.old p out.new result }
{
    let end = laying::advanced(p, 5);
    let start = laying::begun(p, end, out.len());
    let q1 = numbers::put_u32(out, start, m.fid.0);
    numbers::put_u8(out, q1, m.mode)
}

#[derive(Clone, Copy)]
pub struct Ropen {
    pub qid: Qid,
    pub iounit: u32,
}

pub fn read_ropen(s: &[u8], p: Place) -> Read<Ropen>
    ensures { Fields layout_ropen s.now p (ropen result.value) result.next }
{
    let qid = qids::read_qid(s, p);
    let iounit = numbers::read_u32(s, qid.next);
    Read {
        value: Ropen {
            qid: qid.value,
            iounit: iounit.value,
        },
        next: iounit.next,
    }
}

pub fn write_ropen(out: &mut [u8], p: Place, lent: &[u8], m: Ropen) -> Place
    ensures { Written layout_ropen lent.now (ropen m) out.old p out.new result }
{
    let end = laying::advanced(p, 17);
    let start = laying::begun(p, end, out.len());
    let q1 = numbers::put_u8(out, start, m.qid.ty);
    let q2 = numbers::put_u32(out, q1, m.qid.version);
    let q3 = numbers::put_u64(out, q2, m.qid.path);
    numbers::put_u32(out, q3, m.iounit)
}

#[derive(Clone, Copy)]
pub struct Tcreate {
    pub fid: Fid,
    pub name: Span,
    pub perm: u32,
    pub mode: u8,
}

pub fn read_tcreate(s: &[u8], p: Place) -> Read<Tcreate>
    ensures { Fields layout_tcreate s.now p (tcreate result.value) result.next }
{
    let fid = numbers::read_u32(s, p);
    let name = strings::read_str(s, fid.next);
    let perm = numbers::read_u32(s, name.next);
    let mode = numbers::read_u8(s, perm.next);
    Read {
        value: Tcreate {
            fid: Fid(fid.value),
            name: name.value,
            perm: perm.value,
            mode: mode.value,
        },
        next: mode.next,
    }
}

pub fn write_tcreate(out: &mut [u8], p: Place, lent: &[u8], m: Tcreate) -> Place
    ensures { Written layout_tcreate lent.now (tcreate m) out.old p out.new result }
{
    let p1 = laying::advanced(p, 4);
    let p2 = laying::measure_str(lent, m.name, p1);
    let end = laying::advanced(p2, 5);
    let start = laying::begun(p, end, out.len());
    let q1 = numbers::put_u32(out, start, m.fid.0);
    let q2 = numbers::put_num(out, q1, m.name.len as u64, 2);
    let q3 = strings::put_bytes(out, q2, lent, m.name);
    let q4 = numbers::put_u32(out, q3, m.perm);
    numbers::put_u8(out, q4, m.mode)
}

#[derive(Clone, Copy)]
pub struct Rcreate {
    pub qid: Qid,
    pub iounit: u32,
}

pub fn read_rcreate(s: &[u8], p: Place) -> Read<Rcreate>
    ensures { Fields layout_rcreate s.now p (rcreate result.value) result.next }
{
    let qid = qids::read_qid(s, p);
    let iounit = numbers::read_u32(s, qid.next);
    Read {
        value: Rcreate {
            qid: qid.value,
            iounit: iounit.value,
        },
        next: iounit.next,
    }
}

pub fn write_rcreate(out: &mut [u8], p: Place, lent: &[u8], m: Rcreate) -> Place
    ensures { Written layout_rcreate lent.now (rcreate m) out.old p out.new result }
{
    let end = laying::advanced(p, 17);
    let start = laying::begun(p, end, out.len());
    let q1 = numbers::put_u8(out, start, m.qid.ty);
    let q2 = numbers::put_u32(out, q1, m.qid.version);
    let q3 = numbers::put_u64(out, q2, m.qid.path);
    numbers::put_u32(out, q3, m.iounit)
}
