// Written by tools/messages from its table of messages.
// Files, as every dialect reads, writes and removes them.

ghost use Rattle.fields.specs.Fields.{Fields};
ghost use Rattle.laying.specs.Laying.{Written};
ghost use Rattle.layouts.specs.Tables.{layout_tread, layout_rread, layout_twrite, layout_rwrite, layout_tremove};
ghost use Rattle.common.specs.Records.{tread, rread, twrite, rwrite, tremove};

use layouts::ids::Fid;
use numbers::{Place, Read};
use strings::Span;

#[derive(Clone, Copy)]
pub struct Tread {
    pub fid: Fid,
    pub offset: u64,
    pub count: u32,
}

pub fn read_tread(s: &[u8], p: Place) -> Read<Tread>
    ensures { Fields layout_tread s.now p (tread result.value) result.next }
{
    let fid = numbers::read_u32(s, p);
    let offset = numbers::read_u64(s, fid.next);
    let count = numbers::read_u32(s, offset.next);
    Read {
        value: Tread {
            fid: Fid(fid.value),
            offset: offset.value,
            count: count.value,
        },
        next: count.next,
    }
}

pub fn write_tread(out: &mut [u8], p: Place, lent: &[u8], m: Tread) -> Place
    ensures { Written layout_tread lent.now (tread m) out.old p out.new result }
{
    let end = laying::advanced(p, 16);
    let start = laying::begun(p, end, out.len());
    let q1 = numbers::put_u32(out, start, m.fid.0);
    let q2 = numbers::put_u64(out, q1, m.offset);
    numbers::put_u32(out, q2, m.count)
}

#[derive(Clone, Copy)]
pub struct Rread {
    pub data: Span,
}

pub fn read_rread(s: &[u8], p: Place) -> Read<Rread>
    ensures { Fields layout_rread s.now p (rread result.value) result.next }
{
    let data = fields::read_data(s, p);
    Read {
        value: Rread { data: data.value },
        next: data.next,
    }
}

pub fn write_rread(out: &mut [u8], p: Place, lent: &[u8], m: Rread) -> Place
    ensures { Written layout_rread lent.now (rread m) out.old p out.new result }
{
    let end = laying::measure_data(lent, m.data, p);
    let start = laying::begun(p, end, out.len());
    let q1 = numbers::put_num(out, start, m.data.len as u64, 4);
    strings::put_bytes(out, q1, lent, m.data)
}

#[derive(Clone, Copy)]
pub struct Twrite {
    pub fid: Fid,
    pub offset: u64,
    pub data: Span,
}

pub fn read_twrite(s: &[u8], p: Place) -> Read<Twrite>
    ensures { Fields layout_twrite s.now p (twrite result.value) result.next }
{
    let fid = numbers::read_u32(s, p);
    let offset = numbers::read_u64(s, fid.next);
    let data = fields::read_data(s, offset.next);
    Read {
        value: Twrite {
            fid: Fid(fid.value),
            offset: offset.value,
            data: data.value,
        },
        next: data.next,
    }
}

pub fn write_twrite(out: &mut [u8], p: Place, lent: &[u8], m: Twrite) -> Place
    ensures { Written layout_twrite lent.now (twrite m) out.old p out.new result }
{
    let p1 = laying::advanced(p, 12);
    let end = laying::measure_data(lent, m.data, p1);
    let start = laying::begun(p, end, out.len());
    let q1 = numbers::put_u32(out, start, m.fid.0);
    let q2 = numbers::put_u64(out, q1, m.offset);
    let q3 = numbers::put_num(out, q2, m.data.len as u64, 4);
    strings::put_bytes(out, q3, lent, m.data)
}

#[derive(Clone, Copy)]
pub struct Rwrite {
    pub count: u32,
}

pub fn read_rwrite(s: &[u8], p: Place) -> Read<Rwrite>
    ensures { Fields layout_rwrite s.now p (rwrite result.value) result.next }
{
    let count = numbers::read_u32(s, p);
    Read {
        value: Rwrite { count: count.value },
        next: count.next,
    }
}

pub fn write_rwrite(out: &mut [u8], p: Place, lent: &[u8], m: Rwrite) -> Place
    ensures { Written layout_rwrite lent.now (rwrite m) out.old p out.new result }
{
    let end = laying::advanced(p, 4);
    let start = laying::begun(p, end, out.len());
    numbers::put_u32(out, start, m.count)
}

#[derive(Clone, Copy)]
pub struct Tremove {
    pub fid: Fid,
}

pub fn read_tremove(s: &[u8], p: Place) -> Read<Tremove>
    ensures { Fields layout_tremove s.now p (tremove result.value) result.next }
{
    let fid = numbers::read_u32(s, p);
    Read {
        value: Tremove {
            fid: Fid(fid.value),
        },
        next: fid.next,
    }
}

pub fn write_tremove(out: &mut [u8], p: Place, lent: &[u8], m: Tremove) -> Place
    ensures { Written layout_tremove lent.now (tremove m) out.old p out.new result }
{
    let end = laying::advanced(p, 4);
    let start = laying::begun(p, end, out.len());
    numbers::put_u32(out, start, m.fid.0)
}
