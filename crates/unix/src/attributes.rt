// Written by tools/messages from its table of messages.
// Attributes: 9P2000.u's longer stat, answered and changed.

ghost use Rattle.fields.specs.Fields.{Fields};
ghost use Rattle.laying.specs.Laying.{Written};
ghost use Rattle.stats.specs.Unix.{layout_rstat, layout_twstat};
ghost use Rattle.unix.specs.Records.{rstat, twstat};

use layouts::ids::Fid;
use numbers::{Place, Read};
use stats::unix::UnixStat;

#[derive(Clone, Copy)]
pub struct Rstat {
    pub stat: UnixStat,
}

pub fn read_rstat(s: &[u8], p: Place) -> Read<Rstat>
    ensures { Fields layout_rstat s.now p (rstat result.value) result.next }
{
    let stat = stats::unix::read_stat(s, p);
    Read {
        value: Rstat { stat: stat.value },
        next: stat.next,
    }
}

pub fn write_rstat(out: &mut [u8], p: Place, lent: &[u8], m: Rstat) -> Place
    ensures { Written layout_rstat lent.now (rstat m) out.old p out.new result }
{
    let end = stats::unix::measure_stat(lent, m.stat, p);
    let start = laying::begun(p, end, out.len());
    stats::unix::put_stat(out, start, lent, m.stat)
}

#[derive(Clone, Copy)]
pub struct Twstat {
    pub fid: Fid,
    pub stat: UnixStat,
}

pub fn read_twstat(s: &[u8], p: Place) -> Read<Twstat>
    ensures { Fields layout_twstat s.now p (twstat result.value) result.next }
{
    let fid = numbers::read_u32(s, p);
    let stat = stats::unix::read_stat(s, fid.next);
    Read {
        value: Twstat {
            fid: Fid(fid.value),
            stat: stat.value,
        },
        next: stat.next,
    }
}

pub fn write_twstat(out: &mut [u8], p: Place, lent: &[u8], m: Twstat) -> Place
    ensures { Written layout_twstat lent.now (twstat m) out.old p out.new result }
{
    let p1 = laying::advanced(p, 4);
    let end = stats::unix::measure_stat(lent, m.stat, p1);
    let start = laying::begun(p, end, out.len());
    let q1 = numbers::put_u32(out, start, m.fid.0);
    stats::unix::put_stat(out, q1, lent, m.stat)
}
