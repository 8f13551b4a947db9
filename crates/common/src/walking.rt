// Written by tools/messages from its table of messages.
// Walking from a fid to another: names in the request, a qid for each step in the reply.

ghost use Rattle.fields.specs.Fields.{Fields};
ghost use Rattle.laying.specs.Laying.{Written};
ghost use Rattle.layouts.specs.Tables.{layout_twalk, layout_rwalk};
ghost use Rattle.common.specs.Records.{twalk, rwalk};

use fields::Part;
use layouts::ids::Fid;
use numbers::{Place, Read};

#[derive(Clone, Copy)]
pub struct Twalk {
    pub fid: Fid,
    pub newfid: Fid,
    pub wnames: Part,
}

pub fn read_twalk(s: &[u8], p: Place) -> Read<Twalk>
    ensures { Fields layout_twalk s.now p (twalk result.value) result.next }
{
    let fid = numbers::read_u32(s, p);
    let newfid = numbers::read_u32(s, fid.next);
    let wnames = fields::read_names(s, newfid.next);
    Read {
        value: Twalk {
            fid: Fid(fid.value),
            newfid: Fid(newfid.value),
            wnames: wnames.value,
        },
        next: wnames.next,
    }
}

pub fn write_twalk(out: &mut [u8], p: Place, lent: &[u8], m: Twalk) -> Place
    ensures { Written layout_twalk lent.now (twalk m) out.old p out.new result }
{
    let p1 = laying::advanced(p, 8);
    let end = laying::measure_names(lent, m.wnames, p1);
    let start = laying::begun(p, end, out.len());
    let q1 = numbers::put_u32(out, start, m.fid.0);
    let q2 = numbers::put_u32(out, q1, m.newfid.0);
    let q3 = numbers::put_u16(out, q2, m.wnames.count);
    strings::put_bytes(out, q3, lent, m.wnames.elements)
}

#[derive(Clone, Copy)]
pub struct Rwalk {
    pub wqids: Part,
}

pub fn read_rwalk(s: &[u8], p: Place) -> Read<Rwalk>
    ensures { Fields layout_rwalk s.now p (rwalk result.value) result.next }
{
    let wqids = fields::read_qids(s, p);
    Read {
        value: Rwalk { wqids: wqids.value },
        next: wqids.next,
    }
}

pub fn write_rwalk(out: &mut [u8], p: Place, lent: &[u8], m: Rwalk) -> Place
    ensures { Written layout_rwalk lent.now (rwalk m) out.old p out.new result }
{
    let end = laying::measure_qids(lent, m.wqids, p);
    let start = laying::begun(p, end, out.len());
    let q1 = numbers::put_u16(out, start, m.wqids.count);
    strings::put_bytes(out, q1, lent, m.wqids.elements)
}
