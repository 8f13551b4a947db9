// Written by tools/messages from its table of messages.
// Opening a session in 9P2000.L: auth, attach, and the error reply.

ghost use Rattle.fields.specs.Fields.{Fields};
ghost use Rattle.laying.specs.Laying.{Written};
ghost use Rattle.layouts.specs.Tables.{layout_tauth, layout_tattach, layout_rlerror};
ghost use Rattle.messages.specs.Records.{tauth, tattach, rlerror};

use layouts::ids::Fid;
use numbers::{Place, Read};
use strings::Span;

#[derive(Clone, Copy)]
pub struct Tauth {
    pub afid: Fid,
    pub uname: Span,
    pub aname: Span,
    pub n_uname: u32,
}

pub fn read_tauth(s: &[u8], p: Place) -> Read<Tauth>
    ensures { Fields layout_tauth s.now p (tauth result.value) result.next }
{
    let afid = numbers::read_u32(s, p);
    let uname = strings::read_str(s, afid.next);
    let aname = strings::read_str(s, uname.next);
    let n_uname = numbers::read_u32(s, aname.next);
    Read {
        value: Tauth {
            afid: Fid(afid.value),
            uname: uname.value,
            aname: aname.value,
            n_uname: n_uname.value,
        },
        next: n_uname.next,
    }
}

pub fn write_tauth(out: &mut [u8], p: Place, lent: &[u8], m: Tauth) -> Place
    ensures { Written layout_tauth lent.now (tauth m) out.old p out.new result }
{
    let p1 = laying::advanced(p, 4);
    let p2 = laying::measure_str(lent, m.uname, p1);
    let p3 = laying::measure_str(lent, m.aname, p2);
    let end = laying::advanced(p3, 4);
    let start = laying::begun(p, end, out.len());
    let q1 = numbers::put_u32(out, start, m.afid.0);
    let q2 = numbers::put_num(out, q1, m.uname.len as u64, 2);
    let q3 = strings::put_bytes(out, q2, lent, m.uname);
    let q4 = numbers::put_num(out, q3, m.aname.len as u64, 2);
    let q5 = strings::put_bytes(out, q4, lent, m.aname);
    numbers::put_u32(out, q5, m.n_uname)
}

#[derive(Clone, Copy)]
pub struct Tattach {
    pub fid: Fid,
    pub afid: Fid,
    pub uname: Span,
    pub aname: Span,
    pub n_uname: u32,
}

pub fn read_tattach(s: &[u8], p: Place) -> Read<Tattach>
    ensures { Fields layout_tattach s.now p (tattach result.value) result.next }
{
    let fid = numbers::read_u32(s, p);
    let afid = numbers::read_u32(s, fid.next);
    let uname = strings::read_str(s, afid.next);
    let aname = strings::read_str(s, uname.next);
    let n_uname = numbers::read_u32(s, aname.next);
    Read {
        value: Tattach {
            fid: Fid(fid.value),
            afid: Fid(afid.value),
            uname: uname.value,
            aname: aname.value,
            n_uname: n_uname.value,
        },
        next: n_uname.next,
    }
}

pub fn write_tattach(out: &mut [u8], p: Place, lent: &[u8], m: Tattach) -> Place
    ensures { Written layout_tattach lent.now (tattach m) out.old p out.new result }
{
    let p1 = laying::advanced(p, 8);
    let p2 = laying::measure_str(lent, m.uname, p1);
    let p3 = laying::measure_str(lent, m.aname, p2);
    let end = laying::advanced(p3, 4);
    let start = laying::begun(p, end, out.len());
    let q1 = numbers::put_u32(out, start, m.fid.0);
    let q2 = numbers::put_u32(out, q1, m.afid.0);
    let q3 = numbers::put_num(out, q2, m.uname.len as u64, 2);
    let q4 = strings::put_bytes(out, q3, lent, m.uname);
    let q5 = numbers::put_num(out, q4, m.aname.len as u64, 2);
    let q6 = strings::put_bytes(out, q5, lent, m.aname);
    numbers::put_u32(out, q6, m.n_uname)
}

#[derive(Clone, Copy)]
pub struct Rlerror {
    pub ecode: u32,
}

pub fn read_rlerror(s: &[u8], p: Place) -> Read<Rlerror>
    ensures { Fields layout_rlerror s.now p (rlerror result.value) result.next }
{
    let ecode = numbers::read_u32(s, p);
    Read {
        value: Rlerror { ecode: ecode.value },
        next: ecode.next,
    }
}

pub fn write_rlerror(out: &mut [u8], p: Place, lent: &[u8], m: Rlerror) -> Place
    ensures { Written layout_rlerror lent.now (rlerror m) out.old p out.new result }
{
    let end = laying::advanced(p, 4);
    let start = laying::begun(p, end, out.len());
    numbers::put_u32(out, start, m.ecode)
}
