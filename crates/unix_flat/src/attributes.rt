// Written by tools/messages from its table of messages.
// The records that hold a stat of 9P2000.u, laid flat and put together.

ghost use Rattle.std.specs.Prelude.{◌≡◌};
ghost use Rattle.stats.specs.Unix.{layout_rstat, layout_twstat};
ghost use Rattle.unix.specs.Records.{rstat, twstat};
ghost use Rattle.flat.specs.Flat.{flat_values, stored, field_values};

use flat::U32;
use plain_flat::{WIDTH_R, WIDTH_T};
use stats::unix::UnixStat;
use strings::Span;
use unix::attributes::{Rstat, Twstat};

pub fn flat_rstat(m: Rstat, values: &mut [u64; WIDTH_R])
    ensures { values.new ≡ stored values.old 0 (flat_values (rstat m)) }
{
    let shorter = plain::attributes::Rstat { stat: m.stat.plain };
    plain_flat::attributes::flat_rstat(shorter, values);
    values[17] = m.stat.extension.start as u64;
    values[18] = m.stat.extension.len as u64;
    values[19] = m.stat.n_uid as u64;
    values[20] = m.stat.n_gid as u64;
    values[21] = m.stat.n_muid as u64;
}

pub fn rstat_of(v: [u64; WIDTH_R]) -> Rstat
    ensures { rstat result ≡ field_values layout_rstat v }
{
    let shorter = plain_flat::attributes::rstat_of(v);
    Rstat {
        stat: UnixStat {
            plain: shorter.stat,
            extension: Span {
                start: v[17] as usize,
                len: v[18] as usize,
            },
            n_uid: (v[19] % U32) as u32,
            n_gid: (v[20] % U32) as u32,
            n_muid: (v[21] % U32) as u32,
        },
    }
}

pub fn flat_twstat(m: Twstat, values: &mut [u64; WIDTH_T])
    ensures { values.new ≡ stored values.old 0 (flat_values (twstat m)) }
{
    let shorter = plain::attributes::Twstat {
        fid: m.fid,
        stat: m.stat.plain,
    };
    plain_flat::attributes::flat_twstat(shorter, values);
    values[18] = m.stat.extension.start as u64;
    values[19] = m.stat.extension.len as u64;
    values[20] = m.stat.n_uid as u64;
    values[21] = m.stat.n_gid as u64;
    values[22] = m.stat.n_muid as u64;
}

pub fn twstat_of(v: [u64; WIDTH_T]) -> Twstat
    ensures { twstat result ≡ field_values layout_twstat v }
{
    let shorter = plain_flat::attributes::twstat_of(v);
    Twstat {
        fid: shorter.fid,
        stat: UnixStat {
            plain: shorter.stat,
            extension: Span {
                start: v[18] as usize,
                len: v[19] as usize,
            },
            n_uid: (v[20] % U32) as u32,
            n_gid: (v[21] % U32) as u32,
            n_muid: (v[22] % U32) as u32,
        },
    }
}
