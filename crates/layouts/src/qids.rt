// Qids: ty[1] version[4] path[8], 13 bytes.

ghost use Rattle.std.specs.Prelude.{[]};
ghost use Rattle.fields.specs.Layouts.{q};
ghost use Rattle.fields.specs.Fields.{Fields};
ghost use Rattle.laying.specs.Laying.{Written};
ghost use Rattle.layouts.specs.Records.{qid};

use numbers::{Place, Read};

// The layout is C's, so that Rust can lend a table of them.
#[repr(C)]
#[derive(Clone, Copy)]
pub struct Qid {
    pub ty: u8,
    pub version: u32,
    pub path: u64,
}

pub fn read_qid(s: &[u8], p: Place) -> Read<Qid>
    ensures { Fields q s.now p (qid result.value) result.next }
{
    let r1 = numbers::read_u8(s, p);
    let p1 = r1.next;
    let r2 = numbers::read_u32(s, p1);
    let p2 = r2.next;
    let r3 = numbers::read_u64(s, p2);
    let p3 = r3.next;
    let value = Qid {
        ty: r1.value,
        version: r2.value,
        path: r3.value,
    };
    Read { value, next: p3 }
}

// A qid written at a place, all 13 bytes or none: 10, then 11; a refusal leaves the output as it was.
pub fn write_qid(out: &mut [u8], p: Place, v: Qid) -> Place
    ensures { Written q [] (qid v) out.old p out.new result }
{
    let end = laying::advanced(p, 13);
    let start = laying::begun(p, end, out.len());
    let q1 = numbers::put_u8(out, start, v.ty);
    let q2 = numbers::put_u32(out, q1, v.version);
    numbers::put_u64(out, q2, v.path)
}
