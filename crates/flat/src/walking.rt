// Written by tools/messages from its table of messages.
// The records of walking, laid flat and put together.

ghost use Rattle.std.specs.Prelude.{◌≡◌};
ghost use Rattle.layouts.specs.Tables.{layout_twalk, layout_rwalk};
ghost use Rattle.common.specs.Records.{twalk, rwalk};
ghost use Rattle.flat.specs.Flat.{flat_values, stored, field_values};

use crate::{U16, U32, WIDTH_R, WIDTH_T};
use common::walking::{Rwalk, Twalk};
use fields::Part;
use layouts::ids::Fid;
use strings::Span;

pub fn flat_twalk(m: Twalk, values: &mut [u64; WIDTH_T])
    ensures { values.new ≡ stored values.old 0 (flat_values (twalk m)) }
{
    values[0] = m.fid.0 as u64;
    values[1] = m.newfid.0 as u64;
    values[2] = m.wnames.count as u64;
    values[3] = m.wnames.elements.start as u64;
    values[4] = m.wnames.elements.len as u64;
}

pub fn twalk_of(v: [u64; WIDTH_T]) -> Twalk
    ensures { twalk result ≡ field_values layout_twalk v }
{
    Twalk {
        fid: Fid((v[0] % U32) as u32),
        newfid: Fid((v[1] % U32) as u32),
        wnames: Part {
            count: (v[2] % U16) as u16,
            elements: Span {
                start: v[3] as usize,
                len: v[4] as usize,
            },
        },
    }
}

pub fn flat_rwalk(m: Rwalk, values: &mut [u64; WIDTH_R])
    ensures { values.new ≡ stored values.old 0 (flat_values (rwalk m)) }
{
    values[0] = m.wqids.count as u64;
    values[1] = m.wqids.elements.start as u64;
    values[2] = m.wqids.elements.len as u64;
}

pub fn rwalk_of(v: [u64; WIDTH_R]) -> Rwalk
    ensures { rwalk result ≡ field_values layout_rwalk v }
{
    Rwalk {
        wqids: Part {
            count: (v[0] % U16) as u16,
            elements: Span {
                start: v[1] as usize,
                len: v[2] as usize,
            },
        },
    }
}
