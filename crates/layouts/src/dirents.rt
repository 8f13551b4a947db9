// Directory entries: a qid, offset[8], ty[1] and a name; 24 bytes and the name. They stand in no frame's layout, but in the data of an
// Rreaddir, and are read and written alone.

ghost use Rattle.fields.specs.Fields.{Fields};
ghost use Rattle.laying.specs.Laying.{Written};
ghost use Rattle.layouts.specs.Tables.{layout_dirent};
ghost use Rattle.layouts.specs.Records.{dirent};

use crate::qids;
use crate::qids::Qid;
use numbers::{Place, Read};
use strings::Span;

#[derive(Clone, Copy)]
pub struct Dirent {
    pub qid: Qid,
    pub offset: u64,
    pub ty: u8,
    pub name: Span,
}

pub fn read_dirent(s: &[u8], p: Place) -> Read<Dirent>
    ensures { Fields layout_dirent s.now p (dirent result.value) result.next }
{
    let r1 = qids::read_qid(s, p);
    let p1 = r1.next;
    let qid = r1.value;
    let r2 = numbers::read_u64(s, p1);
    let p2 = r2.next;
    let r3 = numbers::read_u8(s, p2);
    let p3 = r3.next;
    let r4 = strings::read_str(s, p3);
    let p4 = r4.next;
    let name = r4.value;
    let value = Dirent {
        qid,
        offset: r2.value,
        ty: r3.value,
        name,
    };
    Read { value, next: p4 }
}

// A whole entry written at a place: 9, 7, 5, 6, then 10, then 11; a refusal leaves the output as it was.
pub fn write_dirent(out: &mut [u8], p: Place, lent: &[u8], m: Dirent) -> Place
    ensures { Written layout_dirent lent.now (dirent m) out.old p out.new result }
{
    let p1 = laying::advanced(p, 22);
    let name = m.name;
    let end = laying::measure_str(lent, name, p1);
    let start = laying::begun(p, end, out.len());
    let qid = m.qid;
    let q1 = numbers::put_u8(out, start, qid.ty);
    let q2 = numbers::put_u32(out, q1, qid.version);
    let q3 = numbers::put_u64(out, q2, qid.path);
    let q4 = numbers::put_u64(out, q3, m.offset);
    let q5 = numbers::put_u8(out, q4, m.ty);
    let q6 = numbers::put_num(out, q5, name.len as u64, 2);
    strings::put_bytes(out, q6, lent, name)
}
