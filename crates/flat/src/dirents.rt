// A directory entry, laid flat and put together: the qid's type, version and path, the offset, the type, and the name's span.

ghost use Rattle.std.specs.Prelude.{◌≡◌};
ghost use Rattle.layouts.specs.Tables.{layout_dirent};
ghost use Rattle.layouts.specs.Records.{dirent};
ghost use Rattle.flat.specs.Flat.{flat_values, stored, field_values};

use crate::{U8, U32};
use layouts::dirents::Dirent;
use layouts::qids::Qid;
use strings::Span;

pub fn flat_dirent(d: Dirent, values: &mut [u64; 7])
    ensures { values.new ≡ stored values.old 0 (flat_values (dirent d)) }
{
    let qid = d.qid;
    let name = d.name;
    values[0] = qid.ty as u64;
    values[1] = qid.version as u64;
    values[2] = qid.path;
    values[3] = d.offset;
    values[4] = d.ty as u64;
    values[5] = name.start as u64;
    values[6] = name.len as u64;
}

pub fn dirent_of(v: [u64; 7]) -> Dirent
    ensures { dirent result ≡ field_values layout_dirent v }
{
    let qid = Qid {
        ty: (v[0] % U8) as u8,
        version: (v[1] % U32) as u32,
        path: v[2],
    };
    let name = Span {
        start: v[5] as usize,
        len: v[6] as usize,
    };
    Dirent {
        qid,
        offset: v[3],
        ty: (v[4] % U8) as u8,
        name,
    }
}
