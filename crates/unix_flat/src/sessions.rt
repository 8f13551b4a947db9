// Written by tools/messages from its table of messages.
// The records that open a session of 9P2000.u, and its error, laid flat and put together.

ghost use Rattle.std.specs.Prelude.{◌≡◌};
ghost use Rattle.layouts.specs.Tables.{layout_tauth, layout_tattach};
ghost use Rattle.stats.specs.Unix.{layout_rerror};
ghost use Rattle.messages.specs.Records.{tauth, tattach};
ghost use Rattle.unix.specs.Records.{rerror};
ghost use Rattle.flat.specs.Flat.{flat_values, stored, field_values};

use flat::U32;
use layouts::ids::Fid;
use messages::sessions::{Tattach, Tauth};
use plain_flat::{WIDTH_R, WIDTH_T};
use strings::Span;
use unix::sessions::Rerror;

pub fn flat_tauth(m: Tauth, values: &mut [u64; WIDTH_T])
    ensures { values.new ≡ stored values.old 0 (flat_values (tauth m)) }
{
    values[0] = m.afid.0 as u64;
    values[1] = m.uname.start as u64;
    values[2] = m.uname.len as u64;
    values[3] = m.aname.start as u64;
    values[4] = m.aname.len as u64;
    values[5] = m.n_uname as u64;
}

pub fn tauth_of(v: [u64; WIDTH_T]) -> Tauth
    ensures { tauth result ≡ field_values layout_tauth v }
{
    Tauth {
        afid: Fid((v[0] % U32) as u32),
        uname: Span {
            start: v[1] as usize,
            len: v[2] as usize,
        },
        aname: Span {
            start: v[3] as usize,
            len: v[4] as usize,
        },
        n_uname: (v[5] % U32) as u32,
    }
}

pub fn flat_tattach(m: Tattach, values: &mut [u64; WIDTH_T])
    ensures { values.new ≡ stored values.old 0 (flat_values (tattach m)) }
{
    values[0] = m.fid.0 as u64;
    values[1] = m.afid.0 as u64;
    values[2] = m.uname.start as u64;
    values[3] = m.uname.len as u64;
    values[4] = m.aname.start as u64;
    values[5] = m.aname.len as u64;
    values[6] = m.n_uname as u64;
}

pub fn tattach_of(v: [u64; WIDTH_T]) -> Tattach
    ensures { tattach result ≡ field_values layout_tattach v }
{
    Tattach {
        fid: Fid((v[0] % U32) as u32),
        afid: Fid((v[1] % U32) as u32),
        uname: Span {
            start: v[2] as usize,
            len: v[3] as usize,
        },
        aname: Span {
            start: v[4] as usize,
            len: v[5] as usize,
        },
        n_uname: (v[6] % U32) as u32,
    }
}

pub fn flat_rerror(m: Rerror, values: &mut [u64; WIDTH_R])
    ensures { values.new ≡ stored values.old 0 (flat_values (rerror m)) }
{
    values[0] = m.ename.start as u64;
    values[1] = m.ename.len as u64;
    values[2] = m.errno as u64;
}

pub fn rerror_of(v: [u64; WIDTH_R]) -> Rerror
    ensures { rerror result ≡ field_values layout_rerror v }
{
    Rerror {
        ename: Span {
            start: v[0] as usize,
            len: v[1] as usize,
        },
        errno: (v[2] % U32) as u32,
    }
}
