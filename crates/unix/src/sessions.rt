// Written by tools/messages from its table of messages.
// The error reply of 9P2000.u, with a number beside its words.

ghost use Rattle.fields.specs.Fields.{Fields};
ghost use Rattle.laying.specs.Laying.{Written};
ghost use Rattle.stats.specs.Unix.{layout_rerror};
ghost use Rattle.unix.specs.Records.{rerror};

use numbers::{Place, Read};
use strings::Span;

#[derive(Clone, Copy)]
pub struct Rerror {
    pub ename: Span,
    pub errno: u32,
}

pub fn read_rerror(s: &[u8], p: Place) -> Read<Rerror>
    ensures { Fields layout_rerror s.now p (rerror result.value) result.next }
{
    let ename = strings::read_str(s, p);
    let errno = numbers::read_u32(s, ename.next);
    Read {
        value: Rerror {
            ename: ename.value,
            errno: errno.value,
        },
        next: errno.next,
    }
}

pub fn write_rerror(out: &mut [u8], p: Place, lent: &[u8], m: Rerror) -> Place
    ensures { Written layout_rerror lent.now (rerror m) out.old p out.new result }
{
    let p1 = laying::measure_str(lent, m.ename, p);
    let end = laying::advanced(p1, 4);
    let start = laying::begun(p, end, out.len());
    let q1 = numbers::put_num(out, start, m.ename.len as u64, 2);
    let q2 = strings::put_bytes(out, q1, lent, m.ename);
    numbers::put_u32(out, q2, m.errno)
}
