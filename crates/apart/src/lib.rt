// The four requests of two strings, written from flat values and from two slices: each string is all of one. So a caller whose strings lie
// apart need not copy them together.

#![tactic(auto)]

ghost use Rattle.std.specs.Prelude.{[], ◌∷◌, ◌++◌, length};
ghost use Rattle.std.proofs.Math.Option.{some};
ghost use Rattle.numbers.specs.Numbers.{to_le};
ghost use Rattle.numbers.specs.Places.{Put};
ghost use Rattle.fields.specs.Layouts.{str};
ghost use Rattle.fields.specs.Values.{span};
ghost use Rattle.laying.specs.Laying.{FieldMeasured, PutAll};
ghost use Rattle.layouts.specs.Tables.{layout_tsymlink, layout_trenameat, layout_tattach, lookup};
ghost use Rattle.flat.specs.Flat.{low};
ghost use Rattle.apart.specs.Apart.{table_two, ApartWritten};
ghost use Rattle.apart.specs.SecondLaws.{Passed};

use flat::{U32, WIDTH_T};
use numbers::{Fault, Place, Refusal};
use strings::Span;

// The longest string, whose length two bytes can tell.
const LONGEST: usize = 65_535;

// A string that is all of a slice, measured at a place: 7, 5, 6; then the place after its count and its text.
fn measure(text: &[u8], p: Place) -> Place
    ensures { FieldMeasured str text.now (span 0 (length text.now)) p result }
{
    let all = Span {
        start: 0,
        len: text.len(),
    };
    laying::measure_str(text, all, p)
}

// The second string, measured at a place as where the two slices are one: a place in its text counts on from the first (F2.7). No sum is
// large, since the first was measured before.
fn measure_second(first: &[u8], second: &[u8], p: Place) -> Place
    requires { Passed first.now p }
    ensures { FieldMeasured str (first.now ++ second.now) (span (length first.now) (length second.now)) p result }
{
    p?;
    if LONGEST < second.len() {
        return Err(Fault(Refusal::StringTooLong, 0));
    }
    match measure(second, p) {
        Ok(end) => Ok(end),
        Err(Fault(k, n)) => Err(Fault(k, first.len() + n)),
    }
}

// A string that is all of a slice put at a place, after its count.
fn put(out: &mut [u8], p: Place, text: &[u8]) -> Place
    ensures { PutAll (str ∷ []) text.now (span 0 (length text.now) ∷ []) out.old p out.new result }
{
    let all = Span {
        start: 0,
        len: text.len(),
    };
    let q = numbers::put_num(out, p, text.len() as u64, 2);
    strings::put_bytes(out, q, text, all)
}

// A number of four bytes put at a place, the lowest of its value.
fn put_low(out: &mut [u8], p: Place, value: u64) -> Place
    ensures { Put (to_le 4 (low 4 value)) out.old p out.new result }
{
    numbers::put_u32(out, p, (value % U32) as u32)
}

// The three writers differ in their fields' order alone. Each is one straight line, as the writers of `flat` are: no row of a table is
// asked at run time.

// A Tsymlink, or a Tauth: 4 s s 4.
fn write_4ss4(
    out: &mut [u8],
    p: Place,
    first: &[u8],
    second: &[u8],
    values: &[u64; WIDTH_T],
) -> Place
    ensures { ApartWritten (some layout_tsymlink) first.now second.now values.now out.old p out.new result }
{
    let p1 = laying::advanced(p, 4);
    let p2 = measure(first, p1);
    let p3 = measure_second(first, second, p2);
    let end = laying::advanced(p3, 4);
    let start = laying::begun(p, end, out.len());
    let q1 = put_low(out, start, values[0]);
    let q2 = put(out, q1, first);
    let q3 = put(out, q2, second);
    put_low(out, q3, values[5])
}

// A Trenameat: 4 s 4 s.
fn write_4s4s(
    out: &mut [u8],
    p: Place,
    first: &[u8],
    second: &[u8],
    values: &[u64; WIDTH_T],
) -> Place
    ensures { ApartWritten (some layout_trenameat) first.now second.now values.now out.old p out.new result }
{
    let p1 = laying::advanced(p, 4);
    let p2 = measure(first, p1);
    let p3 = laying::advanced(p2, 4);
    let end = measure_second(first, second, p3);
    let start = laying::begun(p, end, out.len());
    let q1 = put_low(out, start, values[0]);
    let q2 = put(out, q1, first);
    let q3 = put_low(out, q2, values[3]);
    put(out, q3, second)
}

// A Tattach: 4 4 s s 4.
fn write_44ss4(
    out: &mut [u8],
    p: Place,
    first: &[u8],
    second: &[u8],
    values: &[u64; WIDTH_T],
) -> Place
    ensures { ApartWritten (some layout_tattach) first.now second.now values.now out.old p out.new result }
{
    let p1 = laying::advanced(p, 8);
    let p2 = measure(first, p1);
    let p3 = measure_second(first, second, p2);
    let end = laying::advanced(p3, 4);
    let start = laying::begun(p, end, out.len());
    let q1 = put_low(out, start, values[0]);
    let q2 = put_low(out, q1, values[1]);
    let q3 = put(out, q2, first);
    let q4 = put(out, q3, second);
    put_low(out, q4, values[6])
}

// A body written at a place: its strings' refusals in order, then 10, then 11; 3 where the type has not two strings. A refusal leaves the
// output as it was.
pub fn write_flat(
    out: &mut [u8],
    p: Place,
    first: &[u8],
    second: &[u8],
    ty: u8,
    values: &[u64; WIDTH_T],
) -> Place
    ensures { ApartWritten (lookup table_two ty) first.now second.now values.now out.old p out.new result }
{
    match ty {
        16 | 102 => write_4ss4(out, p, first, second, values),
        74 => write_4s4s(out, p, first, second, values),
        104 => write_44ss4(out, p, first, second, values),
        _ => Err(Fault(Refusal::UnknownType, 0)),
    }
}
