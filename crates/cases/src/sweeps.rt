// Every string of a product of ranges is tried, and counted by what it is answered.

ghost use Rattle.std.specs.Prelude.{◌<◌};

use strings::Span;

// The byte at `i` of the ranges; 0 where there is none, so that a range that is not given has one byte.
fn byte(ranges: &[u8], i: usize) -> u8 {
    ranges.get(i).copied().unwrap_or(0)
}

// How many bytes a range has, from `low` on.
fn width(low: u8, high: u8) -> u64
    ensures { 0 < result }
{
    high.saturating_sub(low) as u64 + 1
}

fn nth(low: u8, n: u64) -> u8 {
    std::num::wrapping_add_u8(low, (n % 256) as u8)
}

// 0 where it is text and its place stays; else its refusal's number; 7 for anything that no text is answered.
fn answer(s: &[u8]) -> usize {
    let all = Span {
        start: 0,
        len: s.len(),
    };
    match strings::check_str(s, all, Ok(3)) {
        Ok(3) => 0,
        Ok(_) => 7,
        Err(f) => (numbers::number(f.0) as usize).min(7),
    }
}

fn count(counts: &mut [u64; 14], i: usize) {
    let k = i % 14;
    counts[k] = std::num::wrapping_add_u64(counts[k], 1);
}

// One string more: by `check_str` at 0 to 7, by `char_at` at 8 to 12, by `is_utf8` at 13.
fn try_one(counts: &mut [u64; 14], s: &[u8]) {
    count(counts, answer(s));
    let len = utf8::char_at(s, 0);
    if len < 5 {
        count(counts, len + 8);
    } else {
        count(counts, 7);
    }
    if utf8::is_utf8(s) {
        count(counts, 13);
    }
}

// Up to four ranges, each by its first and its last byte. There are at most 2^32 strings.
pub(crate) fn sweep(r: &[u8]) {
    let a = byte(r, 0);
    let b = byte(r, 2);
    let c = byte(r, 4);
    let d = byte(r, 6);
    let firsts = width(a, byte(r, 1));
    let seconds = width(b, byte(r, 3));
    let thirds = width(c, byte(r, 5));
    let fourths = width(d, byte(r, 7));
    let mut counts = [0u64; 14];
    for n in 0..0x100000000 {
        let turn = n / fourths / thirds / seconds;
        if firsts <= turn {
            break;
        }
        let s = [
            nth(a, turn),
            nth(b, n / fourths / thirds % seconds),
            nth(c, n / fourths % thirds),
            nth(d, n % fourths),
        ];
        try_one(&mut counts, questions::part(&s, 0, r.len() / 2));
    }
    questions::list(&counts);
}
