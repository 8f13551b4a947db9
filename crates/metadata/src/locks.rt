// Written by tools/messages from its table of messages.
// Locks.

ghost use Rattle.fields.specs.Fields.{Fields};
ghost use Rattle.laying.specs.Laying.{Written};
ghost use Rattle.layouts.specs.Tables.{layout_tlock, layout_rlock, layout_tgetlock, layout_rgetlock};
ghost use Rattle.metadata.specs.Records.{tlock, rlock, tgetlock, rgetlock};

use layouts::ids::Fid;
use numbers::{Place, Read};
use strings::Span;

#[derive(Clone, Copy)]
pub struct Tlock {
    pub fid: Fid,
    pub type_: u8,
    pub flags: u32,
    pub start: u64,
    pub length: u64,
    pub proc_id: u32,
    pub client_id: Span,
}

pub fn read_tlock(s: &[u8], p: Place) -> Read<Tlock>
    ensures { Fields layout_tlock s.now p (tlock result.value) result.next }
{
    let fid = numbers::read_u32(s, p);
    let type_ = numbers::read_u8(s, fid.next);
    let flags = numbers::read_u32(s, type_.next);
    let start = numbers::read_u64(s, flags.next);
    let length = numbers::read_u64(s, start.next);
    let proc_id = numbers::read_u32(s, length.next);
    let client_id = strings::read_str(s, proc_id.next);
    Read {
        value: Tlock {
            fid: Fid(fid.value),
            type_: type_.value,
            flags: flags.value,
            start: start.value,
            length: length.value,
            proc_id: proc_id.value,
            client_id: client_id.value,
        },
        next: client_id.next,
    }
}

pub fn write_tlock(out: &mut [u8], p: Place, lent: &[u8], m: Tlock) -> Place
    ensures { Written layout_tlock lent.now (tlock m) out.old p out.new result }
{
    let p1 = laying::advanced(p, 29);
    let end = laying::measure_str(lent, m.client_id, p1);
    let start = laying::begun(p, end, out.len());
    let q1 = numbers::put_u32(out, start, m.fid.0);
    let q2 = numbers::put_u8(out, q1, m.type_);
    let q3 = numbers::put_u32(out, q2, m.flags);
    let q4 = numbers::put_u64(out, q3, m.start);
    let q5 = numbers::put_u64(out, q4, m.length);
    let q6 = numbers::put_u32(out, q5, m.proc_id);
    let q7 = numbers::put_num(out, q6, m.client_id.len as u64, 2);
    strings::put_bytes(out, q7, lent, m.client_id)
}

#[derive(Clone, Copy)]
pub struct Rlock {
    pub status: u8,
}

pub fn read_rlock(s: &[u8], p: Place) -> Read<Rlock>
    ensures { Fields layout_rlock s.now p (rlock result.value) result.next }
{
    let status = numbers::read_u8(s, p);
    Read {
        value: Rlock {
            status: status.value,
        },
        next: status.next,
    }
}

pub fn write_rlock(out: &mut [u8], p: Place, lent: &[u8], m: Rlock) -> Place
    ensures { Written layout_rlock lent.now (rlock m) out.old p out.new result }
{
    let end = laying::advanced(p, 1);
    let start = laying::begun(p, end, out.len());
    numbers::put_u8(out, start, m.status)
}

#[derive(Clone, Copy)]
pub struct Tgetlock {
    pub fid: Fid,
    pub type_: u8,
    pub start: u64,
    pub length: u64,
    pub proc_id: u32,
    pub client_id: Span,
}

pub fn read_tgetlock(s: &[u8], p: Place) -> Read<Tgetlock>
    ensures { Fields layout_tgetlock s.now p (tgetlock result.value) result.next }
{
    let fid = numbers::read_u32(s, p);
    let type_ = numbers::read_u8(s, fid.next);
    let start = numbers::read_u64(s, type_.next);
    let length = numbers::read_u64(s, start.next);
    let proc_id = numbers::read_u32(s, length.next);
    let client_id = strings::read_str(s, proc_id.next);
    Read {
        value: Tgetlock {
            fid: Fid(fid.value),
            type_: type_.value,
            start: start.value,
            length: length.value,
            proc_id: proc_id.value,
            client_id: client_id.value,
        },
        next: client_id.next,
    }
}

pub fn write_tgetlock(out: &mut [u8], p: Place, lent: &[u8], m: Tgetlock) -> Place
    ensures { Written layout_tgetlock lent.now (tgetlock m) out.old p out.new result }
{
    let p1 = laying::advanced(p, 25);
    let end = laying::measure_str(lent, m.client_id, p1);
    let start = laying::begun(p, end, out.len());
    let q1 = numbers::put_u32(out, start, m.fid.0);
    let q2 = numbers::put_u8(out, q1, m.type_);
    let q3 = numbers::put_u64(out, q2, m.start);
    let q4 = numbers::put_u64(out, q3, m.length);
    let q5 = numbers::put_u32(out, q4, m.proc_id);
    let q6 = numbers::put_num(out, q5, m.client_id.len as u64, 2);
    strings::put_bytes(out, q6, lent, m.client_id)
}

#[derive(Clone, Copy)]
pub struct Rgetlock {
    pub type_: u8,
    pub start: u64,
    pub length: u64,
    pub proc_id: u32,
    pub client_id: Span,
}

pub fn read_rgetlock(s: &[u8], p: Place) -> Read<Rgetlock>
    ensures { Fields layout_rgetlock s.now p (rgetlock result.value) result.next }
{
    let type_ = numbers::read_u8(s, p);
    let start = numbers::read_u64(s, type_.next);
    let length = numbers::read_u64(s, start.next);
    let proc_id = numbers::read_u32(s, length.next);
    let client_id = strings::read_str(s, proc_id.next);
    Read {
        value: Rgetlock {
            type_: type_.value,
            start: start.value,
            length: length.value,
            proc_id: proc_id.value,
            client_id: client_id.value,
        },
        next: client_id.next,
    }
}

pub fn write_rgetlock(out: &mut [u8], p: Place, lent: &[u8], m: Rgetlock) -> Place
    ensures { Written layout_rgetlock lent.now (rgetlock m) out.old p out.new result }
{
    let p1 = laying::advanced(p, 21);
    let end = laying::measure_str(lent, m.client_id, p1);
    let start = laying::begun(p, end, out.len());
    let q1 = numbers::put_u8(out, start, m.type_);
    let q2 = numbers::put_u64(out, q1, m.start);
    let q3 = numbers::put_u64(out, q2, m.length);
    let q4 = numbers::put_u32(out, q3, m.proc_id);
    let q5 = numbers::put_num(out, q4, m.client_id.len as u64, 2);
    strings::put_bytes(out, q5, lent, m.client_id)
}
