// Walks: the elements of a vector that was read, a qid, and walks written from tables that the caller lends.

ghost use Rattle.std.specs.Prelude.{◌≡◌};
ghost use Rattle.fields.specs.Layouts.{q, strs, quids};
ghost use Rattle.fields.specs.Values.{part};
ghost use Rattle.laying.specs.Elements.{element_at, view_element};
ghost use Rattle.layouts.specs.Records.{qid};
ghost use Rattle.flat.specs.Flat.{flat_values, stored};
ghost use Rattle.exports.specs.Answers.{FieldsRead};
ghost use Rattle.exports.specs.Elements.{Ends, SpanLaid, Spanned};
ghost use Rattle.exports.specs.Walks.{twalk_of, rwalk_of, TableWrote};

use crate::Outcome;
use fields::Part;
use layouts::ids::{Fid, Tag};
use layouts::qids;
use layouts::qids::Qid;
use numbers::{Fault, Place};
use strings::Span;

// An element's start and length, and the place after it. Refused, the two numbers are as they were.
#[tactic(auto, unfolding(laying::specs::Elements::view_element))]
fn spanned(found: Result<Span, Fault>, span: &mut [u64; 2]) -> Place
    requires { Ends (view_element found) }
    ensures { SpanLaid (view_element found) span.old span.new result }
{
    let s = found?;
    span[0] = s.start as u64;
    span[1] = s.len as u64;
    Ok(s.start + s.len)
}

// Name `i` of a vector of strings, without its count.
pub fn sheafsledge_name_at(
    lent: &[u8],
    count: u16,
    start: usize,
    len: usize,
    i: usize,
    span: &mut [u64; 2],
) -> Outcome
    ensures { Spanned (element_at strs lent.now (part count start len) i) span.old span.new result }
{
    let v = Part {
        count,
        elements: Span { start, len },
    };
    crate::ended(spanned(laying::elements::name_at(lent, v, i), span))
}

// Qid `i` of a vector of qids, whole.
pub fn sheafsledge_qid_at(
    lent: &[u8],
    count: u16,
    start: usize,
    len: usize,
    i: usize,
    span: &mut [u64; 2],
) -> Outcome
    ensures { Spanned (element_at quids lent.now (part count start len) i) span.old span.new result }
{
    let v = Part {
        count,
        elements: Span { start, len },
    };
    crate::ended(spanned(laying::elements::qid_at(lent, v, i), span))
}

fn flat_qid(v: Qid, values: &mut [u64; 3])
    ensures { values.new ≡ stored values.old 0 (flat_values (qid v)) }
{
    values[0] = v.ty as u64;
    values[1] = v.version as u64;
    values[2] = v.path;
}

// Refused, the values are as they were.
pub fn sheafsledge_read_qid(bytes: &[u8], at: usize, values: &mut [u64; 3]) -> Outcome
    ensures { FieldsRead q bytes.now (Ok at) values.old values.new result }
{
    let r = qids::read_qid(bytes, Ok(at));
    if r.next.is_ok() {
        flat_qid(r.value, values);
    }
    crate::ended(r.next)
}

// A Twalk whose names are spans of the lent bytes: a row of the table is a start and a length.
pub fn sheafsledge_write_twalk(
    out: &mut [u8],
    lent: &[u8],
    tag: Tag,
    fid: Fid,
    newfid: Fid,
    names: &[[usize; 2]],
) -> Outcome
    ensures { TableWrote 110 tag.0 (twalk_of fid.0 newfid.0 lent.now names.now) out.old out.new result }
{
    crate::ended(tables::write_twalk(out, tag, fid, newfid, lent, names))
}

// An Rwalk whose qids are a table of structs. It has no branch: a slice of structs is walked by hand.
pub fn sheafsledge_write_rwalk(out: &mut [u8], tag: u16, qids: &[Qid]) -> Outcome
    ensures { TableWrote 111 tag (rwalk_of qids.now) out.old out.new result }
{
    crate::ended(tables::write_rwalk(out, Tag(tag), qids))
}
