// The elements of a vector, each answered as a part of the caller's bytes.

ghost use Rattle.std.specs.Prelude.{◌≡◌};
ghost use Rattle.fields.specs.Layouts.{strs, quids};
ghost use Rattle.fields.specs.Values.{part};
ghost use Rattle.laying.specs.Elements.{ElementAsked, element_at, view_element};

use fields::Part;
use numbers::{Fault, Place, Refusal};
use strings::Span;

// What comes before the elements are looked at: 17, then 9, then 15.
fn asked(lent: &[u8], v: Part, i: usize) -> Place
    ensures { ElementAsked lent.now (part v.count v.elements.start v.elements.len) i result }
{
    let at = crate::check_part(lent, v, Ok(0))?;
    if v.count as usize <= i {
        return Err(Fault(Refusal::NoSuchElement, 0));
    }
    Ok(at)
}

// Where name `i` of a vector of strings stands among the lent bytes, without its count: 17, then 9, then 15, then the whole part as the
// writer checks it.
pub fn name_at(lent: &[u8], v: Part, i: usize) -> Result<Span, Fault>
    ensures { view_element result ≡ element_at strs lent.now (part v.count v.elements.start v.elements.len) i }
{
    let p = asked(lent, v, i);
    crate::check_names(lent, v, p)?;
    let start = v.elements.start;
    let part = &lent[..start + v.elements.len];
    let before = fields::scan(part, start, i as u16);
    Ok(strings::read_str(part, before).value)
}

// Where qid `i` of a vector of qids stands, whole: 17, then 9, then 15, then 14 unless the part is 13 bytes for each.
pub fn qid_at(lent: &[u8], v: Part, i: usize) -> Result<Span, Fault>
    ensures { view_element result ≡ element_at quids lent.now (part v.count v.elements.start v.elements.len) i }
{
    let p = asked(lent, v, i);
    crate::check_qids(lent, v, p)?;
    Ok(Span {
        start: v.elements.start + 13 * i,
        len: 13,
    })
}
