// Data and vectors, read at a place of a slice as a span or a part.

#![tactic(auto)]

ghost use Rattle.std.specs.Prelude.{◌+◌, ◌≤◌, ◌<◌, ◌≡◌, length};
ghost use Rattle.fields.specs.Layouts.{dat, strs, quids};
ghost use Rattle.fields.specs.Values.{span, part};
ghost use Rattle.fields.specs.Fields.{FieldRead, CountCheck, CountRead, ManyRead, Nowhere};
ghost use Rattle.fields.specs.Runs.{Run};

use numbers::{Fault, Place, Read, Refusal};
use strings::Span;
use utf8::{eight_plain, is_plain};

// The elements of a vector: how many they are, and the part of the bytes that holds them.
#[derive(Clone, Copy)]
pub struct Part {
    pub count: u16,
    pub elements: Span,
}

// The most data of a frame (F4.10).
const MOST_DATA: usize = 33554432;

// The most elements of a vector.
const MOST_ELEMENTS: usize = 16;

// A qid has so many bytes.
const QID: usize = 13;

// Data at a place: count, then the limit, then bytes.
pub fn read_data(s: &[u8], p: Place) -> Read<Span>
    ensures { FieldRead dat s.now p (span result.value.start result.value.len) result.next }
{
    let none = Span { start: 0, len: 0 };
    let count = numbers::read_u32(s, p);
    let Ok(start) = count.next else {
        return Read {
            value: none,
            next: count.next,
        };
    };
    let len = count.value as usize;
    if MOST_DATA < len {
        return Read {
            value: none,
            next: Err(Fault(Refusal::DataTooLong, 0)),
        };
    }
    if !numbers::within(start, len, s.len()) {
        return Read {
            value: none,
            next: Err(Fault(Refusal::Short, 0)),
        };
    }
    Read {
        value: Span { start, len },
        next: Ok(start + len),
    }
}

// How many plain bytes are seen at once from `i` on: eight of them, the last eight of the text where fewer are left, and of a shorter
// text one; 0 if one of these is not plain.
fn plain_from(s: &[u8], i: usize) -> usize
    requires { i < length s.now }
    ensures { Run s.now i result }
{
    if s.len() < 8 {
        return if is_plain(s[i]) { 1 } else { 0 };
    }
    let last = s.len() - 8;
    if i <= last {
        return if eight_plain(s, i) { 8 } else { 0 };
    }
    if eight_plain(s, last) { s.len() - i } else { 0 }
}

// The count of a vector, in bytes that are read or lent, in a table, or of one that an element is asked of: the place itself; or 17.
pub fn check_count(count: usize, p: Place) -> Place
    ensures { CountCheck count p result }
{
    let at = p?;
    if MOST_ELEMENTS < count {
        return Err(Fault(Refusal::TooManyElements, 0));
    }
    Ok(at)
}

// A vector's count at a place: 1, then 17.
fn read_count(s: &[u8], p: Place) -> Read<u16>
    ensures { CountRead s.now p result.value result.next }
{
    let count = numbers::read_u16(s, p);
    Read {
        value: count.value,
        next: check_count(count.value as usize, count.next),
    }
}

// So many strings from a position on: the place after them, or the refusal of the first that fails, whichever that is. Names are plain but
// for a few: a byte that is not has all of the name looked at.
fn scan_names(s: &[u8], from: usize, count: u16) -> Place
    requires { from ≤ length s.now }
    ensures { ManyRead count s.now from result }
{
    let mut at = from;
    let mut n = count;
    'names: loop {
        if n == 0 {
            break 'names Ok(at);
        }
        let c = numbers::read_u16(s, Ok(at));
        let Ok(start) = c.next else {
            break 'names c.next;
        };
        let len = c.value as usize;
        if !numbers::within(start, len, s.len()) {
            break 'names Err(Fault(Refusal::Short, 0));
        }
        let end = start + len;
        let name = &s[start..end];
        let mut i = 0;
        while i < len {
            let k = plain_from(name, i);
            if 0 < k {
                i += k;
            } else {
                let q = strings::check_str(s, Span { start, len }, Ok(end));
                let Ok(_) = q else {
                    break 'names q;
                };
                i = len;
            }
        }
        at = end;
        n -= 1;
    }
}

// So many strings from a position on, which may lie past the end, where there are none.
pub fn scan(s: &[u8], from: usize, count: u16) -> Place
    ensures { ManyRead count s.now from result }
{
    scan_names(s, from.min(s.len()), count)
}

// A vector of strings at a place.
pub fn read_names(s: &[u8], p: Place) -> Read<Part>
    ensures { FieldRead strs s.now p (part result.value.count result.value.elements.start result.value.elements.len) result.next }
{
    let c = read_count(s, p);
    let Ok(start) = c.next else {
        return no_part(c.next);
    };
    let end = scan_names(s, start, c.value);
    let Ok(stop) = end else {
        return no_part(end);
    };
    Read {
        value: Part {
            count: c.value,
            elements: Span {
                start,
                len: stop - start,
            },
        },
        next: end,
    }
}

fn no_part(next: Place) -> Read<Part>
    ensures { Nowhere (part result.value.count result.value.elements.start result.value.elements.len) result.next next }
{
    Read {
        value: Part {
            count: 0,
            elements: Span { start: 0, len: 0 },
        },
        next,
    }
}

// A vector of qids at a place, each of 13 bytes.
pub fn read_qids(s: &[u8], p: Place) -> Read<Part>
    ensures { FieldRead quids s.now p (part result.value.count result.value.elements.start result.value.elements.len) result.next }
{
    let c = read_count(s, p);
    let Ok(start) = c.next else {
        return no_part(c.next);
    };
    let len = QID * (c.value as usize);
    if !numbers::within(start, len, s.len()) {
        return no_part(Err(Fault(Refusal::Short, 0)));
    }
    Read {
        value: Part {
            count: c.value,
            elements: Span { start, len },
        },
        next: Ok(start + len),
    }
}
