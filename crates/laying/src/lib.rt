// Fields checked and measured at places. No output is touched here but by the writers of data and of vectors: a writer measures all its
// fields, asks `begun`, and only then puts bytes, so that a refusal leaves the output as it was, and no text is looked at twice.

#![tactic(auto)]

pub mod elements;

ghost use Rattle.std.specs.Prelude.{◌≡◌, [], ◌∷◌};
ghost use Rattle.fields.specs.Layouts.{str, dat, strs, quids};
ghost use Rattle.fields.specs.Values.{span, part, cut_off};
ghost use Rattle.laying.specs.Laying.{Advanced, FieldMeasured, PartCheck, ShowCheck, Filled, Settled, Begun, Written};

use fields::Part;
use numbers::{Fault, Place, Refusal};
use strings::Span;

// One more than the largest frame has bytes (F1.3).
const LIMIT: usize = 4294967296;

// The place `n` bytes on; past the largest frame every place is the limit, so that no sum wraps.
pub fn advanced(p: Place, n: usize) -> Place
    ensures { Advanced n p result }
{
    let at = p?;
    if LIMIT <= at || LIMIT - at <= n {
        return Ok(LIMIT);
    }
    Ok(at + n)
}

// A string at a place, checked: 9, 7, 5, 6; then the place after its count and its text.
pub fn measure_str(lent: &[u8], v: Span, p: Place) -> Place
    ensures { FieldMeasured str lent.now (span v.start v.len) p result }
{
    let q = strings::check_str(lent, v, p);
    advanced(advanced(q, 2), v.len)
}

// Data at a place, checked: 9; then the place after its count and its bytes.
pub fn measure_data(lent: &[u8], v: Span, p: Place) -> Place
    ensures { FieldMeasured dat lent.now (span v.start v.len) p result }
{
    let q = strings::check_span(lent, v, p);
    advanced(advanced(q, 4), v.len)
}

// Whether a scan of a part's elements ends where the part does: if not, the part is malformed, unless an element's text is to blame.
fn filled(end: Place, stop: usize, p: Place) -> Place
    ensures { Filled end stop p result }
{
    match end {
        Ok(n) if n == stop => p,
        Ok(_) => Err(Fault(Refusal::PartMalformed, 0)),
        Err(Fault(k, n)) => Err(Fault(cut_off(k), n)),
    }
}

fn cut_off(k: Refusal) -> Refusal
    ensures { result ≡ cut_off k }
{
    match k {
        Refusal::Short => Refusal::PartMalformed,
        _ => k,
    }
}

// The part that a vector is written from, or asked for an element: 17, then 9.
fn check_part(lent: &[u8], v: Part, p: Place) -> Place
    ensures { PartCheck lent.now v.count v.elements.start v.elements.len p result }
{
    let q = fields::check_count(v.count as usize, p);
    strings::check_span(lent, v.elements, q)
}

// The elements of a vector of strings that is to be written: the place itself; or 17, then 9, then the first failing one's 14, 5 or 6, then 14.
pub fn check_names(lent: &[u8], v: Part, p: Place) -> Place
    ensures { ShowCheck strs lent.now (part v.count v.elements.start v.elements.len) p result }
{
    let at = check_part(lent, v, p)?;
    let stop = v.elements.start + v.elements.len;
    let end = fields::scan(&lent[..stop], v.elements.start, v.count);
    filled(end, stop, Ok(at))
}

// The elements of a vector of qids that is to be written: the place itself; or 17, then 9, then 14 unless they are 13 bytes each.
pub fn check_qids(lent: &[u8], v: Part, p: Place) -> Place
    ensures { ShowCheck quids lent.now (part v.count v.elements.start v.elements.len) p result }
{
    let at = check_part(lent, v, p)?;
    if v.elements.len != 13 * (v.count as usize) {
        return Err(Fault(Refusal::PartMalformed, 0));
    }
    Ok(at)
}

// A vector of strings at a place, checked; then the place after its count and its elements.
pub fn measure_names(lent: &[u8], v: Part, p: Place) -> Place
    ensures { FieldMeasured strs lent.now (part v.count v.elements.start v.elements.len) p result }
{
    let q = check_names(lent, v, p);
    advanced(advanced(q, 2), v.elements.len)
}

// A vector of qids at a place, checked; then the place after its count and its elements.
pub fn measure_qids(lent: &[u8], v: Part, p: Place) -> Place
    ensures { FieldMeasured quids lent.now (part v.count v.elements.start v.elements.len) p result }
{
    let q = check_qids(lent, v, p);
    advanced(advanced(q, 2), v.elements.len)
}

// What the end that measuring found means in an output of `len` bytes: 10, then 11, or the bytes may be put.
pub fn settled(end: Place, len: usize) -> Place
    ensures { Settled end len result }
{
    let n = end?;
    if LIMIT <= n {
        return Err(Fault(Refusal::FrameTooLong, 0));
    }
    if len < n {
        return Err(Fault(Refusal::NoRoom, 0));
    }
    Ok(n)
}

// Where putting begins: where measuring did, or nowhere if that found a reason to refuse.
pub fn begun(p: Place, end: Place, len: usize) -> Place
    ensures { Begun p end len result }
{
    settled(end, len)?;
    p
}

// Data written at a place, its count before it: 9, then 10, then 11; a refusal leaves the output as it was.
pub fn write_data(out: &mut [u8], p: Place, lent: &[u8], v: Span) -> Place
    ensures { Written (dat ∷ []) lent.now (span v.start v.len ∷ []) out.old p out.new result }
{
    let end = measure_data(lent, v, p);
    let start = begun(p, end, out.len());
    let q = numbers::put_num(out, start, v.len as u64, 4);
    strings::put_bytes(out, q, lent, v)
}

// A vector of strings written at a place: what `check_names` refuses, then 10, then 11; a refusal leaves the output as it was.
pub fn write_names(out: &mut [u8], p: Place, lent: &[u8], v: Part) -> Place
    ensures { Written (strs ∷ []) lent.now (part v.count v.elements.start v.elements.len ∷ []) out.old p out.new result }
{
    let end = measure_names(lent, v, p);
    let start = begun(p, end, out.len());
    let q = numbers::put_u16(out, start, v.count);
    strings::put_bytes(out, q, lent, v.elements)
}

// A vector of qids written at a place: what `check_qids` refuses, then 10, then 11; a refusal leaves the output as it was.
pub fn write_qids(out: &mut [u8], p: Place, lent: &[u8], v: Part) -> Place
    ensures { Written (quids ∷ []) lent.now (part v.count v.elements.start v.elements.len ∷ []) out.old p out.new result }
{
    let end = measure_qids(lent, v, p);
    let start = begun(p, end, out.len());
    let q = numbers::put_u16(out, start, v.count);
    strings::put_bytes(out, q, lent, v.elements)
}
