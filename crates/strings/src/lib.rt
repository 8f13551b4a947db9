// Strings: n[2] and n bytes of well-formed UTF-8 with no zero byte, read and put by spans.

#![tactic(auto)]

ghost use Rattle.std.specs.Prelude.{◌≡◌, ◌+◌, ◌≤◌, length, take, drop};
ghost use Rattle.numbers.specs.Places.{over};
ghost use Rattle.strings.specs.Spans.{TextCheck, Shown, SpanCheck, StrCheck, StrRead, SpanPut, StrPut};

use numbers::{Fault, Place, Read, Refusal};

// A part of some bytes: where it starts among them, and its length.
#[derive(Clone, Copy)]
pub struct Span {
    pub start: usize,
    pub len: usize,
}

// The part of the lent bytes that a span shows; the empty part where it lies outside them.
pub fn shown(lent: &[u8], v: Span) -> &[u8]
    ensures { Shown lent.now v.start v.len result.now }
{
    if !numbers::within(v.start, v.len, lent.len()) {
        return &[];
    }
    &lent[v.start..v.start + v.len]
}

// A span of the lent bytes that is to be written: the place itself; or 9.
pub fn check_span(lent: &[u8], v: Span, p: Place) -> Place
    ensures { SpanCheck lent.now v.start v.len p result }
{
    let at = p?;
    if !numbers::within(v.start, v.len, lent.len()) {
        return Err(Fault(Refusal::SpanOutside, 0));
    }
    Ok(at)
}

// The longest string: its count has two bytes (F1.9).
const LONGEST: usize = 65535;

// The least byte that is not ASCII's.
const BEYOND_ASCII: u8 = 128;

// The check of a string's bytes, a part of some bytes: the place itself; or 5, then 6, each with where in these bytes the text breaks. It is
// lent all of them, and not the part cut out, so that a position in the text counts as the span does.
fn check_text(s: &[u8], v: Span, p: Place) -> Place
    requires { v.start + v.len ≤ length s.now }
    ensures { TextCheck s.now v.start v.len p result }
{
    let at = p?;
    let text = &s[v.start..v.start + v.len];
    let e = utf8::extremes_of(text);
    if BEYOND_ASCII <= e.high {
        let n = utf8::sound_start(text);
        if n < text.len() {
            return Err(Fault(Refusal::NotUtf8, v.start + n));
        }
    }
    if e.low == 0 {
        return Err(Fault(Refusal::ZeroByte, v.start + utf8::zero_at(text)));
    }
    Ok(at)
}

// A string of the lent bytes that is to be written: the place itself; or 9, 7, 5, 6.
pub fn check_str(lent: &[u8], v: Span, p: Place) -> Place
    ensures { StrCheck lent.now v.start v.len p result }
{
    let at = check_span(lent, v, p)?;
    if LONGEST < v.len {
        return Err(Fault(Refusal::StringTooLong, 0));
    }
    check_text(lent, v, Ok(at))
}

// What a reader of bytes answers where it is refused.
fn no_span(next: Place) -> Read<Span>
    ensures { (result.value.start ≡ 0) × (result.value.len ≡ 0) × (result.next ≡ next) }
{
    Read {
        value: Span { start: 0, len: 0 },
        next,
    }
}

// A string at a place: count, bytes, UTF-8, zero byte. Short cut: a short plain text, as most names are, passes without a call. `check_str` has
// none: walks are scanned by one of their own, and it would only be in their way.
#[inline(always)] // Out of line, the place goes through memory and is read back wider than it was written: 40 in a hundred of a Tsymlink.
pub fn read_str(s: &[u8], p: Place) -> Read<Span>
    ensures { StrRead s.now p result.value.start result.value.len result.next }
{
    let count = numbers::read_u16(s, p);
    let Ok(start) = count.next else {
        return no_span(count.next);
    };
    let some = Span {
        start,
        len: count.value as usize,
    };
    if !numbers::within(start, some.len, s.len()) {
        return no_span(Err(Fault(Refusal::Short, 0)));
    }
    let end = start + some.len;
    if utf8::short_plain(&s[start..end]) {
        return Read {
            value: some,
            next: Ok(end),
        };
    }
    let next = check_text(s, some, Ok(end));
    let Ok(_) = next else {
        return no_span(next);
    };
    Read { value: some, next }
}

// A copy goes by blocks of so many bytes.
const BLOCK: usize = 65536;

// One block of the lent bytes from `start` on, over those of the output from `at` on, by way of an array. For all the compiler knows the
// output overlaps the lent bytes; an array of our own it knows to lie apart, so it makes a move of each copy, one move of the two, and no
// array of what is left. One `copy_from_slice` from the lent bytes to the output was tried: it looks for an overlap each time, and writing
// a walk takes half as long again.
fn copy_block(out: &mut [u8], at: usize, lent: &[u8], start: usize, len: usize)
    requires { (len ≤ 65536) × (at + len ≤ length out.old) × (start + len ≤ length lent.now) }
    ensures { out.new ≡ over out.old at (take len (drop start lent.now)) }
{
    let mut block = [0u8; BLOCK];
    block[..len].copy_from_slice(&lent[start..start + len]);
    out[at..at + len].copy_from_slice(&block[..len]);
}

// The same for any length, block by block; no `for`, since the last may be shorter.
fn copy_blocks(out: &mut [u8], at: usize, lent: &[u8], start: usize, len: usize)
    requires { (at + len ≤ length out.old) × (start + len ≤ length lent.now) }
    ensures { out.new ≡ over out.old at (take len (drop start lent.now)) }
{
    let mut done = 0;
    while done < len {
        let n = (len - done).min(BLOCK);
        copy_block(out, at + done, lent, start + done, n);
        done += n;
    }
}

// The same again. Eight to sixteen bytes, as most names have, are two blocks of eight, which may overlap: each is the move of one number.
fn copy(out: &mut [u8], at: usize, lent: &[u8], start: usize, len: usize)
    requires { (at + len ≤ length out.old) × (start + len ≤ length lent.now) }
    ensures { out.new ≡ over out.old at (take len (drop start lent.now)) }
{
    if 8 <= len && len <= 16 {
        let last = len - 8;
        copy_block(out, at, lent, start, 8);
        copy_block(out, at + last, lent, start + last, 8);
    } else {
        copy_blocks(out, at, lent, start, len);
    }
}

// The bytes that a span shows, put at a place: 9, 11.
pub fn put_bytes(out: &mut [u8], p: Place, lent: &[u8], v: Span) -> Place
    ensures { SpanPut lent.now v.start v.len out.old p out.new result }
{
    let at = check_span(lent, v, p)?;
    if !numbers::within(at, v.len, out.len()) {
        return Err(Fault(Refusal::NoRoom, 0));
    }
    copy(out, at, lent, v.start, v.len);
    Ok(at + v.len)
}

// A string of the lent bytes, put at a place as n[2] and its bytes: 9, 7, 5, 6, 11. The room is tested once, for both.
pub fn put_str(out: &mut [u8], p: Place, lent: &[u8], v: Span) -> Place
    ensures { StrPut lent.now v.start v.len out.old p out.new result }
{
    let at = check_str(lent, v, p)?;
    if !numbers::within(at, v.len + 2, out.len()) {
        return Err(Fault(Refusal::NoRoom, 0));
    }
    let text = numbers::put_u16(out, Ok(at), v.len as u16);
    put_bytes(out, text, lent, v)
}
