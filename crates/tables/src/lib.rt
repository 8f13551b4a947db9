// Walks written from tables that the caller lends: names as spans of the lent bytes, qids as structs.

#![tactic(auto)]

ghost use Rattle.std.specs.Prelude.{◌≡◌, ◌+◌, ◌*◌, ◌≤◌, length};
ghost use Rattle.laying.specs.Laying.{Measured, PutAll};
ghost use Rattle.tables.specs.Tables.{name_fields, name_values, walk_fields, walk_values, TwalkWritten, RwalkWritten};
ghost use Rattle.tables.specs.Qids.{put_qid, placed, rwalk_past};

use layouts::ids::{Fid, Tag};
use layouts::qids::Qid;
use numbers::{Fault, Place, Refusal};
use strings::Span;

// The types of a walk and of its answer (F3.2).
const TWALK: u8 = 110;

const RWALK: u8 = 111;

// A qid has so many bytes, and the first of an Rwalk stands after its header and their count.
const QID: usize = 13;

const FIRST_QID: usize = 9;

// The names of a table, in order, each a string, measured from a place. A row of the table is a span: its start and its length.
fn measure_names(lent: &[u8], names: &[[usize; 2]], p: Place) -> Place
    ensures { Measured (name_fields names.now) lent.now (name_values names.now) p result }
{
    let mut at = p;
    for &[start, len] in names {
        at = laying::measure_str(lent, Span { start, len }, at);
    }
    at
}

// The same names put at a place, each after its count.
fn put_names(out: &mut [u8], p: Place, lent: &[u8], names: &[[usize; 2]]) -> Place
    ensures { PutAll (name_fields names.now) lent.now (name_values names.now) out.old p out.new result }
{
    let mut at = p;
    for &[start, len] in names {
        let text = numbers::put_num(out, at, len as u64, 2);
        at = strings::put_bytes(out, text, lent, Span { start, len });
    }
    at
}

// The body of a Twalk put at a place.
fn put_twalk(
    out: &mut [u8],
    p: Place,
    fid: Fid,
    newfid: Fid,
    count: u16,
    lent: &[u8],
    names: &[[usize; 2]],
) -> Place
    ensures { PutAll (walk_fields names.now) lent.now (walk_values fid.0 newfid.0 count names.now) out.old p out.new result }
{
    let a = numbers::put_u32(out, p, fid.0);
    let b = numbers::put_u32(out, a, newfid.0);
    let c = numbers::put_u16(out, b, count);
    put_names(out, c, lent, names)
}

// A Twalk whose names are spans of the lent bytes: 17; then the names in order; then 10; then 11. The answer is its length.
pub fn write_twalk(
    out: &mut [u8],
    tag: Tag,
    fid: Fid,
    newfid: Fid,
    lent: &[u8],
    names: &[[usize; 2]],
) -> Place
    ensures { TwalkWritten tag.0 fid.0 newfid.0 lent.now names.now out.old out.new result }
{
    let at = fields::check_count(names.len(), Ok(framing::BODY))?;
    let count = names.len() as u16;
    let first = laying::advanced(Ok(at), 10);
    let end = measure_names(lent, names, first);
    let start = laying::begun(Ok(at), end, out.len());
    let past = put_twalk(out, start, fid, newfid, count, lent, names);
    framing::put_header(out, past, TWALK, tag.0)
}

// One qid at its place among those from `at` on.
fn put_qid(out: &mut [u8], at: usize, i: usize, q: Qid)
    requires { at + 13 * i + 13 ≤ length out.old }
    ensures { out.new ≡ put_qid out.old at i q }
{
    let version = numbers::put_u8(out, Ok(at + QID * i), q.ty);
    let path = numbers::put_u32(out, version, q.version);
    let _ = numbers::put_u64(out, path, q.path);
}

// The qids of a table, one after the other from `at` on.
fn put_qids(out: &mut [u8], at: usize, qids: &[Qid])
    requires { at + 13 * length qids.now ≤ length out.old }
    ensures { out.new ≡ placed out.old at qids.now (length qids.now) }
{
    for (i, &q) in qids.iter().enumerate() {
        put_qid(out, at, i, q);
    }
}

// Where an Rwalk of so many qids ends in so much room: 17, then 11, else the frame's length. It is below the limit of 10.
fn rwalk_past(room: usize, count: usize) -> Place
    ensures { result ≡ rwalk_past room count }
{
    let head = fields::check_count(count, Ok(FIRST_QID))?;
    let size = head + QID * count;
    if room < size {
        return Err(Fault(Refusal::NoRoom, 0));
    }
    Ok(size)
}

// An Rwalk whose qids are a table of structs: 17; then 11. The answer is its length.
pub fn write_rwalk(out: &mut [u8], tag: Tag, qids: &[Qid]) -> Place
    ensures { RwalkWritten tag.0 qids.now out.old out.new result }
{
    let end = rwalk_past(out.len(), qids.len())?;
    let _ = framing::put_header(out, Ok(end), RWALK, tag.0);
    let _ = numbers::put_u16(out, Ok(framing::BODY), qids.len() as u16);
    put_qids(out, FIRST_QID, qids);
    Ok(end)
}
