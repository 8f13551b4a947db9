// A stat: what a file is. It stands after its own count, and begins with its size. That of 9P2000 is here; that of 9P2000.u, which has four
// fields more, is in `unix`, and both are opened by the same code.

#![tactic(auto)]

pub mod unix;

ghost use Rattle.std.specs.Prelude.{◌+◌, ◌≤◌, ◌<◌, ◌≡◌, min, [], ◌∷◌, map, length, drop};
ghost use Rattle.fields.specs.Values.{text};
ghost use Rattle.fields.specs.Layouts.{fixed, worded, boxed, agrees};
ghost use Rattle.fields.specs.Fields.{FieldRead, Fields};
ghost use Rattle.fields.specs.BoxLaws.{plain_of, Opened};
ghost use Rattle.laying.specs.Laying.{FieldMeasured, Measured, CellsPut, Countable, with_sizes, sized};
ghost use Rattle.laying.specs.BoxLaws.{value_of};
ghost use Rattle.layouts.specs.Plain.{stat_shape};
ghost use Rattle.stats.specs.Stats.{slots, stat_of, shape_of, Followed, Blank, Sized};

use layouts::qids;
use layouts::qids::Qid;
use numbers::{Fault, Place, Read, Refusal};
use strings::Span;

#[derive(Clone, Copy)]
pub struct Stat {
    pub ty: u16,
    pub dev: u32,
    pub qid: Qid,
    pub mode: u32,
    pub atime: u32,
    pub mtime: u32,
    pub length: u64,
    pub name: Span,
    pub uid: Span,
    pub gid: Span,
    pub muid: Span,
}

// Where the fields of a stat begin, if its counts agree, and where they end; refused, the end is that of the bytes, so that a reader goes on
// through its fields without a branch.
#[derive(Clone, Copy)]
pub(crate) struct Open {
    pub(crate) at: Place,
    pub(crate) end: usize,
}

// The bytes of a stat's numbers: type[2] dev[4] qid[13] mode[4] atime[4] mtime[4] length[8].
const NUMBERS: usize = 39;

// The bytes of the three numbers that end a stat of 9P2000.u: n_uid[4] n_gid[4] n_muid[4].
const MORE_NUMBERS: usize = 12;

// The greatest number of two bytes, which a stat's counts and its strings' have.
const GREATEST: usize = 65535;

// The place after `n` bytes.
#[tactic(auto, using(crate::specs::Following::skip_held, crate::specs::Following::skip_short))]
fn skip(s: &[u8], p: Place, n: usize) -> Place
    requires { 0 < n }
    ensures { Followed (fixed n ∷ []) s.now p result }
{
    let at = p?;
    if !numbers::within(at, n, s.len()) {
        return Err(Fault(Refusal::Short, 0));
    }
    Ok(at + n)
}

// The place after a string, whose text is not looked at.
fn pass(s: &[u8], p: Place) -> Place
    ensures { Followed (worded ∷ []) s.now p result }
{
    let count = numbers::read_u16(s, p);
    let start = count.next?;
    let len = count.value as usize;
    if !numbers::within(start, len, s.len()) {
        return Err(Fault(Refusal::Short, 0));
    }
    Ok(start + len)
}

// The place after the fields of a stat: its numbers, then its four strings; or after those of 9P2000.u's, which has a string and three
// numbers more. A switch, since one code opens both and they part only here.
fn follow(s: &[u8], p: Place, longer: bool) -> Place
    ensures { Followed (shape_of longer) s.now p result }
{
    let numbers = skip(s, p, NUMBERS);
    let name = pass(s, numbers);
    let uid = pass(s, name);
    let gid = pass(s, uid);
    let muid = pass(s, gid);
    if !longer {
        return muid;
    }
    let extension = pass(s, muid);
    skip(s, extension, MORE_NUMBERS)
}

// Whether the bytes from `start` on are a size and the fields of a stat, which end where the bytes do.
#[tactic(auto, using(crate::specs::StatLaws::first_within, crate::specs::StatLaws::agree_short, crate::specs::StatLaws::agree_size, crate::specs::StatLaws::agree_refused, crate::specs::StatLaws::agree_end))]
fn agree(s: &[u8], start: usize, longer: bool) -> bool
    requires { start ≤ length s.now }
    ensures { result ≡ agrees (shape_of longer) (drop start s.now) }
{
    let size = numbers::read_u16(s, Ok(start));
    let Ok(first) = size.next else {
        return false;
    };
    if size.value as usize != s.len() - first {
        return false;
    }
    match follow(s, Ok(first), longer) {
        Ok(end) => end == s.len(),
        Err(_) => false,
    }
}

// The n bytes that a stat's count names must be held: 1; then they must agree: 18.
pub(crate) fn open_stat(s: &[u8], p: Place, longer: bool) -> Open
    ensures { Opened (shape_of longer) s.now p result.at result.end }
{
    let count = numbers::read_u16(s, p);
    let Ok(start) = count.next else {
        return Open {
            at: count.next,
            end: s.len(),
        };
    };
    let n = count.value as usize;
    if !numbers::within(start, n, s.len()) {
        return Open {
            at: Err(Fault(Refusal::Short, 0)),
            end: s.len(),
        };
    }
    let end = start + n;
    if !agree(&s[..end], start, longer) {
        return Open {
            at: Err(Fault(Refusal::StatMalformed, 0)),
            end: s.len(),
        };
    }
    Open {
        at: Ok(start + 2),
        end,
    }
}

pub(crate) fn no_stat(next: Place) -> Read<Stat>
    ensures { Blank stat_shape (slots result.value) result.next next }
{
    let none = Span { start: 0, len: 0 };
    let qid = Qid {
        ty: 0,
        version: 0,
        path: 0,
    };
    let value = Stat {
        ty: 0,
        dev: 0,
        qid,
        mode: 0,
        atime: 0,
        mtime: 0,
        length: 0,
        name: none,
        uid: none,
        gid: none,
        muid: none,
    };
    Read { value, next }
}

// The fields of a stat that has been opened, one after another.
pub(crate) fn read_fields(t: &[u8], p: Place) -> Read<Stat>
    ensures { Fields (map plain_of stat_shape) t.now p (map value_of (slots result.value)) result.next }
{
    let ty = numbers::read_u16(t, p);
    let dev = numbers::read_u32(t, ty.next);
    let qid = qids::read_qid(t, dev.next);
    let mode = numbers::read_u32(t, qid.next);
    let atime = numbers::read_u32(t, mode.next);
    let mtime = numbers::read_u32(t, atime.next);
    let length = numbers::read_u64(t, mtime.next);
    let name = strings::read_str(t, length.next);
    let uid = strings::read_str(t, name.next);
    let gid = strings::read_str(t, uid.next);
    let muid = strings::read_str(t, gid.next);
    let value = Stat {
        ty: ty.value,
        dev: dev.value,
        qid: qid.value,
        mode: mode.value,
        atime: atime.value,
        mtime: mtime.value,
        length: length.value,
        name: name.value,
        uid: uid.value,
        gid: gid.value,
        muid: muid.value,
    };
    Read {
        value,
        next: muid.next,
    }
}

// A stat at a place: 1, then 18, then 5 and 6 of its strings.
pub fn read_stat(s: &[u8], p: Place) -> Read<Stat>
    ensures { FieldRead (boxed stat_shape) s.now p (stat_of result.value) result.next }
{
    let open = open_stat(s, p, false);
    let r = read_fields(&s[..open.end], open.at);
    let Ok(_) = r.next else {
        return no_stat(r.next);
    };
    r
}

// How long a string is with its count; one that may not be written counts for as much as refuses the stat, so that no sum wraps.
pub(crate) fn size_of_str(v: Span) -> usize
    ensures { result ≡ 2 + min v.len 65536 }
{
    2 + v.len.min(GREATEST + 1)
}

// How long a stat's fields are.
pub(crate) fn size_of(v: Stat) -> usize
    ensures { Sized stat_shape (slots v) result }
{
    NUMBERS + size_of_str(v.name) + size_of_str(v.uid) + size_of_str(v.gid) + size_of_str(v.muid)
}

// A place, unless a count above 65,535 would have to stand before what was measured up to it: 18.
pub(crate) fn counted(p: Place, n: usize) -> Place
    ensures { Countable n p result }
{
    let at = p?;
    if GREATEST < n {
        return Err(Fault(Refusal::StatMalformed, 0));
    }
    Ok(at)
}

// The fields of a stat at a place, checked.
pub(crate) fn measure_fields(lent: &[u8], v: Stat, p: Place) -> Place
    ensures { Measured (map plain_of stat_shape) lent.now (map value_of (slots v)) p result }
{
    let numbers = laying::advanced(p, NUMBERS);
    let name = laying::measure_str(lent, v.name, numbers);
    let uid = laying::measure_str(lent, v.uid, name);
    let gid = laying::measure_str(lent, v.gid, uid);
    laying::measure_str(lent, v.muid, gid)
}

// A stat at a place, checked: its strings' 9, 7, 5, 6, then 18; then the place after it.
pub fn measure_stat(lent: &[u8], v: Stat, p: Place) -> Place
    ensures { FieldMeasured (boxed stat_shape) lent.now (stat_of v) p result }
{
    let start = laying::advanced(p, 4);
    let end = measure_fields(lent, v, start);
    counted(end, 2 + size_of(v))
}

// A string at a place, its count before it. It is for `measure_stat` to say that it may be put.
pub(crate) fn put_text(out: &mut [u8], p: Place, lent: &[u8], v: Span) -> Place
    ensures { CellsPut (worded ∷ []) lent.now (text v.start v.len ∷ []) out.old p out.new result }
{
    let q = numbers::put_num(out, p, v.len as u64, 2);
    strings::put_bytes(out, q, lent, v)
}

// The fields of a stat, put at a place.
pub(crate) fn put_fields(out: &mut [u8], p: Place, lent: &[u8], v: Stat) -> Place
    ensures { CellsPut stat_shape lent.now (slots v) out.old p out.new result }
{
    let ty = numbers::put_u16(out, p, v.ty);
    let dev = numbers::put_u32(out, ty, v.dev);
    let kind = numbers::put_u8(out, dev, v.qid.ty);
    let version = numbers::put_u32(out, kind, v.qid.version);
    let path = numbers::put_u64(out, version, v.qid.path);
    let mode = numbers::put_u32(out, path, v.mode);
    let atime = numbers::put_u32(out, mode, v.atime);
    let mtime = numbers::put_u32(out, atime, v.mtime);
    let length = numbers::put_u64(out, mtime, v.length);
    let name = put_text(out, length, lent, v.name);
    let uid = put_text(out, name, lent, v.uid);
    let gid = put_text(out, uid, lent, v.gid);
    put_text(out, gid, lent, v.muid)
}

// The bytes of a stat at a place: its count, its size, its fields. It is for `measure_stat` to say that they may be put.
pub fn put_stat(out: &mut [u8], p: Place, lent: &[u8], v: Stat) -> Place
    ensures { CellsPut (with_sizes stat_shape) lent.now (sized stat_shape (slots v)) out.old p out.new result }
{
    let size = size_of(v);
    let count = numbers::put_num(out, p, (2 + size) as u64, 2);
    let start = numbers::put_num(out, count, size as u64, 2);
    put_fields(out, start, lent, v)
}
