// Written by tools/messages from its table of messages.
// The records of 9P2000.u's files, laid flat and put together.

ghost use Rattle.std.specs.Prelude.{◌≡◌};
ghost use Rattle.stats.specs.Unix.{layout_tcreate};
ghost use Rattle.unix.specs.Records.{tcreate};
ghost use Rattle.flat.specs.Flat.{flat_values, stored, field_values};

use flat::{U8, U32};
use layouts::ids::Fid;
use plain_flat::WIDTH_T;
use strings::Span;
use unix::files::Tcreate;

pub fn flat_tcreate(m: Tcreate, values: &mut [u64; WIDTH_T])
    ensures { values.new ≡ stored values.old 0 (flat_values (tcreate m)) }
{
    values[0] = m.fid.0 as u64;
    values[1] = m.name.start as u64;
    values[2] = m.name.len as u64;
    values[3] = m.perm as u64;
    values[4] = m.mode as u64;
    values[5] = m.extension.start as u64;
    values[6] = m.extension.len as u64;
}

pub fn tcreate_of(v: [u64; WIDTH_T]) -> Tcreate
    ensures { tcreate result ≡ field_values layout_tcreate v }
{
    Tcreate {
        fid: Fid((v[0] % U32) as u32),
        name: Span {
            start: v[1] as usize,
            len: v[2] as usize,
        },
        perm: (v[3] % U32) as u32,
        mode: (v[4] % U8) as u8,
        extension: Span {
            start: v[5] as usize,
            len: v[6] as usize,
        },
    }
}
