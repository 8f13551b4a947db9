// Written by tools/messages from its table of messages.
// Files: opened, made and synced.

ghost use Rattle.fields.specs.Fields.{Fields};
ghost use Rattle.laying.specs.Laying.{Written};
ghost use Rattle.layouts.specs.Tables.{layout_tlopen, layout_rlopen, layout_tlcreate, layout_rlcreate, layout_tfsync};
ghost use Rattle.messages.specs.Records.{tlopen, rlopen, tlcreate, rlcreate, tfsync};

use layouts::ids::{Fid, Gid};
use layouts::qids;
use layouts::qids::Qid;
use numbers::{Place, Read};
use strings::Span;

#[derive(Clone, Copy)]
pub struct Tlopen {
    pub fid: Fid,
    pub flags: u32,
}

pub fn read_tlopen(s: &[u8], p: Place) -> Read<Tlopen>
    ensures { Fields layout_tlopen s.now p (tlopen result.value) result.next }
{
    let fid = numbers::read_u32(s, p);
    let flags = numbers::read_u32(s, fid.next);
    Read {
        value: Tlopen {
            fid: Fid(fid.value),
            flags: flags.value,
        },
        next: flags.next,
    }
}

pub fn write_tlopen(out: &mut [u8], p: Place, lent: &[u8], m: Tlopen) -> Place
    ensures { Written layout_tlopen lent.now (tlopen m) out.old p out.new result }
{
    let end = laying::advanced(p, 8);
    let start = laying::begun(p, end, out.len());
    let q1 = numbers::put_u32(out, start, m.fid.0);
    numbers::put_u32(out, q1, m.flags)
}

#[derive(Clone, Copy)]
pub struct Rlopen {
    pub qid: Qid,
    pub iounit: u32,
}

pub fn read_rlopen(s: &[u8], p: Place) -> Read<Rlopen>
    ensures { Fields layout_rlopen s.now p (rlopen result.value) result.next }
{
    let qid = qids::read_qid(s, p);
    let iounit = numbers::read_u32(s, qid.next);
    Read {
        value: Rlopen {
            qid: qid.value,
            iounit: iounit.value,
        },
        next: iounit.next,
    }
}

pub fn write_rlopen(out: &mut [u8], p: Place, lent: &[u8], m: Rlopen) -> Place
    ensures { Written layout_rlopen lent.now (rlopen m) out.old p out.new result }
{
    let end = laying::advanced(p, 17);
    let start = laying::begun(p, end, out.len());
    let q1 = numbers::put_u8(out, start, m.qid.ty);
    let q2 = numbers::put_u32(out, q1, m.qid.version);
    let q3 = numbers::put_u64(out, q2, m.qid.path);
    numbers::put_u32(out, q3, m.iounit)
}

#[derive(Clone, Copy)]
pub struct Tlcreate {
    pub fid: Fid,
    pub name: Span,
    pub flags: u32,
    pub mode: u32,
    pub gid: Gid,
}

pub fn read_tlcreate(s: &[u8], p: Place) -> Read<Tlcreate>
    ensures { Fields layout_tlcreate s.now p (tlcreate result.value) result.next }
{
    let fid = numbers::read_u32(s, p);
    let name = strings::read_str(s, fid.next);
    let flags = numbers::read_u32(s, name.next);
    let mode = numbers::read_u32(s, flags.next);
    let gid = numbers::read_u32(s, mode.next);
    Read {
        value: Tlcreate {
            fid: Fid(fid.value),
            name: name.value,
            flags: flags.value,
            mode: mode.value,
            gid: Gid(gid.value),
        },
        next: gid.next,
    }
}

pub fn write_tlcreate(out: &mut [u8], p: Place, lent: &[u8], m: Tlcreate) -> Place
    ensures { Written layout_tlcreate lent.now (tlcreate m) out.old p out.new result }
{
    let p1 = laying::advanced(p, 4);
    let p2 = laying::measure_str(lent, m.name, p1);
    let end = laying::advanced(p2, 12);
    let start = laying::begun(p, end, out.len());
    let q1 = numbers::put_u32(out, start, m.fid.0);
    let q2 = numbers::put_num(out, q1, m.name.len as u64, 2);
    let q3 = strings::put_bytes(out, q2, lent, m.name);
    let q4 = numbers::put_u32(out, q3, m.flags);
    let q5 = numbers::put_u32(out, q4, m.mode);
    numbers::put_u32(out, q5, m.gid.0)
}

#[derive(Clone, Copy)]
pub struct Rlcreate {
    pub qid: Qid,
    pub iounit: u32,
}

pub fn read_rlcreate(s: &[u8], p: Place) -> Read<Rlcreate>
    ensures { Fields layout_rlcreate s.now p (rlcreate result.value) result.next }
{
    let qid = qids::read_qid(s, p);
    let iounit = numbers::read_u32(s, qid.next);
    Read {
        value: Rlcreate {
            qid: qid.value,
            iounit: iounit.value,
        },
        next: iounit.next,
    }
}

pub fn write_rlcreate(out: &mut [u8], p: Place, lent: &[u8], m: Rlcreate) -> Place
    ensures { Written layout_rlcreate lent.now (rlcreate m) out.old p out.new result }
{
    let end = laying::advanced(p, 17);
    let start = laying::begun(p, end, out.len());
    let q1 = numbers::put_u8(out, start, m.qid.ty);
    let q2 = numbers::put_u32(out, q1, m.qid.version);
    let q3 = numbers::put_u64(out, q2, m.qid.path);
    numbers::put_u32(out, q3, m.iounit)
}

#[derive(Clone, Copy)]
pub struct Tfsync {
    pub fid: Fid,
    pub datasync: u32,
}

pub fn read_tfsync(s: &[u8], p: Place) -> Read<Tfsync>
    ensures { Fields layout_tfsync s.now p (tfsync result.value) result.next }
{
    let fid = numbers::read_u32(s, p);
    let datasync = numbers::read_u32(s, fid.next);
    Read {
        value: Tfsync {
            fid: Fid(fid.value),
            datasync: datasync.value,
        },
        next: datasync.next,
    }
}

pub fn write_tfsync(out: &mut [u8], p: Place, lent: &[u8], m: Tfsync) -> Place
    ensures { Written layout_tfsync lent.now (tfsync m) out.old p out.new result }
{
    let end = laying::advanced(p, 8);
    let start = laying::begun(p, end, out.len());
    let q1 = numbers::put_u32(out, start, m.fid.0);
    numbers::put_u32(out, q1, m.datasync)
}
