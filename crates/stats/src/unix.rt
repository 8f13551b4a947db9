// A stat of 9P2000.u: one of 9P2000, and four fields after it.

ghost use Rattle.fields.specs.Layouts.{boxed};
ghost use Rattle.fields.specs.Fields.{FieldRead, Fields};
ghost use Rattle.fields.specs.BoxLaws.{plain_of};
ghost use Rattle.laying.specs.BoxLaws.{value_of};
ghost use Rattle.std.specs.Prelude.{map};
ghost use Rattle.laying.specs.Laying.{FieldMeasured, CellsPut, with_sizes, sized};
ghost use Rattle.stats.specs.Unix.{stat_shape};
ghost use Rattle.stats.specs.Stats.{unix_slots, unix_of, Blank, Sized};

use crate::{MORE_NUMBERS, Stat};
use numbers::{Place, Read};
use strings::Span;

#[derive(Clone, Copy)]
pub struct UnixStat {
    pub plain: Stat,
    pub extension: Span,
    pub n_uid: u32,
    pub n_gid: u32,
    pub n_muid: u32,
}

fn no_stat(next: Place) -> Read<UnixStat>
    ensures { Blank stat_shape (unix_slots result.value) result.next next }
{
    let value = UnixStat {
        plain: crate::no_stat(next).value,
        extension: Span { start: 0, len: 0 },
        n_uid: 0,
        n_gid: 0,
        n_muid: 0,
    };
    Read { value, next }
}

// The fields of a stat that has been opened, one after another.
fn read_fields(t: &[u8], p: Place) -> Read<UnixStat>
    ensures { Fields (map plain_of stat_shape) t.now p (map value_of (unix_slots result.value)) result.next }
{
    let plain = crate::read_fields(t, p);
    let extension = strings::read_str(t, plain.next);
    let n_uid = numbers::read_u32(t, extension.next);
    let n_gid = numbers::read_u32(t, n_uid.next);
    let n_muid = numbers::read_u32(t, n_gid.next);
    let value = UnixStat {
        plain: plain.value,
        extension: extension.value,
        n_uid: n_uid.value,
        n_gid: n_gid.value,
        n_muid: n_muid.value,
    };
    Read {
        value,
        next: n_muid.next,
    }
}

// A stat at a place: 1, then 18, then 5 and 6 of its strings.
pub fn read_stat(s: &[u8], p: Place) -> Read<UnixStat>
    ensures { FieldRead (boxed stat_shape) s.now p (unix_of result.value) result.next }
{
    let open = crate::open_stat(s, p, true);
    let r = read_fields(&s[..open.end], open.at);
    let Ok(_) = r.next else {
        return no_stat(r.next);
    };
    r
}

fn size_of(v: UnixStat) -> usize
    ensures { Sized stat_shape (unix_slots v) result }
{
    crate::size_of(v.plain) + crate::size_of_str(v.extension) + MORE_NUMBERS
}

// A stat at a place, checked: its strings' 9, 7, 5, 6, then 18; then the place after it.
pub fn measure_stat(lent: &[u8], v: UnixStat, p: Place) -> Place
    ensures { FieldMeasured (boxed stat_shape) lent.now (unix_of v) p result }
{
    let start = laying::advanced(p, 4);
    let plain = crate::measure_fields(lent, v.plain, start);
    let extension = laying::measure_str(lent, v.extension, plain);
    let end = laying::advanced(extension, MORE_NUMBERS);
    crate::counted(end, 2 + size_of(v))
}

// The bytes of a stat at a place: its count, its size, its fields. It is for `measure_stat` to say that they may be put.
pub fn put_stat(out: &mut [u8], p: Place, lent: &[u8], v: UnixStat) -> Place
    ensures { CellsPut (with_sizes stat_shape) lent.now (sized stat_shape (unix_slots v)) out.old p out.new result }
{
    let size = size_of(v);
    let count = numbers::put_num(out, p, (2 + size) as u64, 2);
    let start = numbers::put_num(out, count, size as u64, 2);
    let plain = crate::put_fields(out, start, lent, v.plain);
    let extension = crate::put_text(out, plain, lent, v.extension);
    let n_uid = numbers::put_u32(out, extension, v.n_uid);
    let n_gid = numbers::put_u32(out, n_uid, v.n_gid);
    numbers::put_u32(out, n_gid, v.n_muid)
}
