// Written by tools/messages from its table of messages.
// Attributes: a file's stat, asked for and changed.

ghost use Rattle.fields.specs.Fields.{Fields};
ghost use Rattle.laying.specs.Laying.{Written};
ghost use Rattle.layouts.specs.Plain.{layout_tstat, layout_rstat, layout_twstat};
ghost use Rattle.plain.specs.Records.{tstat, rstat, twstat};

use layouts::ids::Fid;
use numbers::{Place, Read};
use stats::Stat;

#[derive(Clone, Copy)]
pub struct Tstat {
    pub fid: Fid,
}

pub fn read_tstat(s: &[u8], p: Place) -> Read<Tstat>
    ensures { Fields layout_tstat s.now p (tstat result.value) result.next }
{
    let fid = numbers::read_u32(s, p);
    Read {
        value: Tstat {
            fid: Fid(fid.value),
        },
        next: fid.next,
    }
}

pub fn write_tstat(out: &mut [u8], p: Place, lent: &[u8], m: Tstat) -> Place
    ensures { Written layout_tstat lent.now (tstat m) out.old p out.new result }
{
    let end = laying::advanced(p, 4);
    let start = laying::begun(p, end, out.len());
    numbers::put_u32(out, start, m.fid.0)
}

#[derive(Clone, Copy)]
pub struct Rstat {
    pub stat: Stat,
}

pub fn read_rstat(s: &[u8], p: Place) -> Read<Rstat>
    ensures { Fields layout_rstat s.now p (rstat result.value) result.next }
{
    let stat = stats::read_stat(s, p);
    Read {
        value: Rstat { stat: stat.value },
        next: stat.next,
    }
}

pub fn write_rstat(out: &mut [u8], p: Place, lent: &[u8], m: Rstat) -> Place
    ensures { Written layout_rstat lent.now (rstat m) out.old p out.new result }
{
    let end = stats::measure_stat(lent, m.stat, p);
    let start = laying::begun(p, end, out.len());
    stats::put_stat(out, start, lent, m.stat)
}

#[derive(Clone, Copy)]
pub struct Twstat {
    pub fid: Fid,
    pub stat: Stat,
}

pub fn read_twstat(s: &[u8], p: Place) -> Read<Twstat>
    ensures { Fields layout_twstat s.now p (twstat result.value) result.next }
{
    let fid = numbers::read_u32(s, p);
    let stat = stats::read_stat(s, fid.next);
    Read {
        value: Twstat {
            fid: Fid(fid.value),
            stat: stat.value,
        },
        next: stat.next,
    }
}

pub fn write_twstat(out: &mut [u8], p: Place, lent: &[u8], m: Twstat) -> Place
    ensures { Written layout_twstat lent.now (twstat m) out.old p out.new result }
{
    let p1 = laying::advanced(p, 4);
    let end = stats::measure_stat(lent, m.stat, p1);
    let start = laying::begun(p, end, out.len());
    let q1 = numbers::put_u32(out, start, m.fid.0);
    stats::put_stat(out, q1, lent, m.stat)
}
