// Written by tools/messages from its table of messages.
// Opening a session in 9P2000: auth, attach, and the error reply.

ghost use Rattle.fields.specs.Fields.{Fields};
ghost use Rattle.laying.specs.Laying.{Written};
ghost use Rattle.layouts.specs.Plain.{layout_tauth, layout_tattach, layout_rerror};
ghost use Rattle.plain.specs.Records.{tauth, tattach, rerror};

use layouts::ids::Fid;
use numbers::{Place, Read};
use strings::Span;

#[derive(Clone, Copy)]
pub struct Tauth {
    pub afid: Fid,
    pub uname: Span,
    pub aname: Span,
}

pub fn read_tauth(s: &[u8], p: Place) -> Read<Tauth>
    ensures { Fields layout_tauth s.now p (tauth result.value) result.next }
{
    let afid = numbers::read_u32(s, p);
    let uname = strings::read_str(s, afid.next);
    let aname = strings::read_str(s, uname.next);
    Read {
        value: Tauth {
            afid: Fid(afid.value),
            uname: uname.value,
            aname: aname.value,
        },
        next: aname.next,
    }
}

pub fn write_tauth(out: &mut [u8], p: Place, lent: &[u8], m: Tauth) -> Place
    ensures { Written layout_tauth lent.now (tauth m) out.old p out.new result }
{
    let p1 = laying::advanced(p, 4);
    let p2 = laying::measure_str(lent, m.uname, p1);
    let end = laying::measure_str(lent, m.aname, p2);
    let start = laying::begun(p, end, out.len());
    let q1 = numbers::put_u32(out, start, m.afid.0);
    let q2 = numbers::put_num(out, q1, m.uname.len as u64, 2);
    let q3 = strings::put_bytes(out, q2, lent, m.uname);
    let q4 = numbers::put_num(out, q3, m.aname.len as u64, 2);
    strings::put_bytes(out, q4, lent, m.aname)
}

#[derive(Clone, Copy)]
pub struct Tattach {
    pub fid: Fid,
    pub afid: Fid,
    pub uname: Span,
    pub aname: Span,
}

pub fn read_tattach(s: &[u8], p: Place) -> Read<Tattach>
    ensures { Fields layout_tattach s.now p (tattach result.value) result.next }
{
    let fid = numbers::read_u32(s, p);
    let afid = numbers::read_u32(s, fid.next);
    let uname = strings::read_str(s, afid.next);
    let aname = strings::read_str(s, uname.next);
    Read {
        value: Tattach {
            fid: Fid(fid.value),
            afid: Fid(afid.value),
            uname: uname.value,
            aname: aname.value,
        },
        next: aname.next,
    }
}

pub fn write_tattach(out: &mut [u8], p: Place, lent: &[u8], m: Tattach) -> Place
    ensures { Written layout_tattach lent.now (tattach m) out.old p out.new result }
{
    let p1 = laying::advanced(p, 8);
    let p2 = laying::measure_str(lent, m.uname, p1);
    let end = laying::measure_str(lent, m.aname, p2);
    let start = laying::begun(p, end, out.len());
    let q1 = numbers::put_u32(out, start, m.fid.0);
    let q2 = numbers::put_u32(out, q1, m.afid.0);
    let q3 = numbers::put_num(out, q2, m.uname.len as u64, 2);
    let q4 = strings::put_bytes(out, q3, lent, m.uname);
    let q5 = numbers::put_num(out, q4, m.aname.len as u64, 2);
    strings::put_bytes(out, q5, lent, m.aname)
}

#[derive(Clone, Copy)]
pub struct Rerror {
    pub ename: Span,
}

pub fn read_rerror(s: &[u8], p: Place) -> Read<Rerror>
    ensures { Fields layout_rerror s.now p (rerror result.value) result.next }
{
    let ename = strings::read_str(s, p);
    Read {
        value: Rerror { ename: ename.value },
        next: ename.next,
    }
}

pub fn write_rerror(out: &mut [u8], p: Place, lent: &[u8], m: Rerror) -> Place
    ensures { Written layout_rerror lent.now (rerror m) out.old p out.new result }
{
    let end = laying::measure_str(lent, m.ename, p);
    let start = laying::begun(p, end, out.len());
    let q1 = numbers::put_num(out, start, m.ename.len as u64, 2);
    strings::put_bytes(out, q1, lent, m.ename)
}
