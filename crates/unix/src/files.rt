// Written by tools/messages from its table of messages.
// Files, as 9P2000.u makes them: with an extension.

ghost use Rattle.fields.specs.Fields.{Fields};
ghost use Rattle.laying.specs.Laying.{Written};
ghost use Rattle.stats.specs.Unix.{layout_tcreate};
ghost use Rattle.unix.specs.Records.{tcreate};

use layouts::ids::Fid;
use numbers::{Place, Read};
use strings::Span;

#[derive(Clone, Copy)]
pub struct Tcreate {
    pub fid: Fid,
    pub name: Span,
    pub perm: u32,
    pub mode: u8,
    pub extension: Span,
}

pub fn read_tcreate(s: &[u8], p: Place) -> Read<Tcreate>
    ensures { Fields layout_tcreate s.now p (tcreate result.value) result.next }
{
    let fid = numbers::read_u32(s, p);
    let name = strings::read_str(s, fid.next);
    let perm = numbers::read_u32(s, name.next);
    let mode = numbers::read_u8(s, perm.next);
    let extension = strings::read_str(s, mode.next);
    Read {
        value: Tcreate {
            fid: Fid(fid.value),
            name: name.value,
            perm: perm.value,
            mode: mode.value,
            extension: extension.value,
        },
        next: extension.next,
    }
}

pub fn write_tcreate(out: &mut [u8], p: Place, lent: &[u8], m: Tcreate) -> Place
    ensures { Written layout_tcreate lent.now (tcreate m) out.old p out.new result }
{
    let p1 = laying::advanced(p, 4);
    let p2 = laying::measure_str(lent, m.name, p1);
    let p3 = laying::advanced(p2, 5);
    let end = laying::measure_str(lent, m.extension, p3);
    let start = laying::begun(p, end, out.len());
    let q1 = numbers::put_u32(out, start, m.fid.0);
    let q2 = numbers::put_num(out, q1, m.name.len as u64, 2);
    let q3 = strings::put_bytes(out, q2, lent, m.name);
    let q4 = numbers::put_u32(out, q3, m.perm);
    let q5 = numbers::put_u8(out, q4, m.mode);
    let q6 = numbers::put_num(out, q5, m.extension.len as u64, 2);
    strings::put_bytes(out, q6, lent, m.extension)
}
