// UTF-8 by the rows of RFC 3629, section 4.

#![tactic(auto)]

ghost use Rattle.std.specs.Prelude.{◌≡◌, ◌<◌, length, map};
ghost use Rattle.utf8.specs.Utf8.{◌to◌, in_range, fits, CharAt, utf8, sound_start, zero_at};
ghost use Rattle.utf8.specs.Utf8Laws.{Rest, least_of, greatest_of};
ghost use Rattle.utf8.specs.Plain.{plain_at, short_plain};

// ---- The rows of RFC 3629, section 4, in their order (F2.1): an arm a row, with the range of each of its octets

// The octets from the first to the second, as the RFC's %x00-7F.
#[derive(Clone, Copy, PartialEq, Eq, Debug)]
struct Octets(u8, u8);

impl Octets {
    fn contains(self, b: u8) -> bool
        ensures { result ≡ in_range (self.0 to self.1) b }
    {
        (self.0..=self.1).contains(&b)
    }
}

// UTF8-tail = %x80-BF
const TAIL: Octets = Octets(0x80, 0xbf);

// UTF8-char = UTF8-1 / UTF8-2 / UTF8-3 / UTF8-4: the length of the character at `i`, 0 where the bytes fit no row (F2.2).
#[tactic(auto, using(crate::proofs::Rows::short_rows))]
pub fn char_at(s: &[u8], i: usize) -> usize
    ensures { CharAt s.now i result }
{
    if s.len() <= i {
        return 0;
    }
    let b = s[i];
    // Nested by length: in one flat `match` the single octets become a jump table, which text of two-byte letters pays for.
    match b {
        0x00..=0x7f => 1, // UTF8-1 = %x00-7F
        0xc2..=0xdf => rest(s, i, &[TAIL]), // UTF8-2 = %xC2-DF UTF8-tail
        0xe0..=0xef => match b {
            0xe0 => rest(s, i, &[Octets(0xa0, 0xbf), TAIL]), // UTF8-3 = %xE0 %xA0-BF UTF8-tail /
            0xe1..=0xec => rest(s, i, &[TAIL, TAIL]), // %xE1-EC 2( UTF8-tail ) /
            0xed => rest(s, i, &[Octets(0x80, 0x9f), TAIL]), // %xED %x80-9F UTF8-tail /
            0xee..=0xef => rest(s, i, &[TAIL, TAIL]), // %xEE-EF 2( UTF8-tail )
            _ => 0,
        },
        0xf0..=0xf4 => match b {
            0xf0 => rest(s, i, &[Octets(0x90, 0xbf), TAIL, TAIL]), // UTF8-4 = %xF0 %x90-BF 2( UTF8-tail ) /
            0xf1..=0xf3 => rest(s, i, &[TAIL, TAIL, TAIL]), // %xF1-F3 3( UTF8-tail ) /
            0xf4 => rest(s, i, &[Octets(0x80, 0x8f), TAIL, TAIL]), // %xF4 %x80-8F 2( UTF8-tail )
            _ => 0,
        },
        _ => 0,
    }
}

// A row whose first octet stands at `i`: its length if the bytes after that are there and in the row's other ranges, else 0.
fn rest(s: &[u8], i: usize, ranges: &[Octets]) -> usize
    requires { i < length s.now }
    ensures { Rest (map (λ r. r.0 to r.1) ranges.now) s.now i result }
{
    if begins(&s[i + 1..], ranges) {
        1 + ranges.len()
    } else {
        0
    }
}

// Whether the bytes begin with an octet of each range.
#[tactic(auto, using(crate::proofs::Rows::too_few_octets))]
fn begins(s: &[u8], ranges: &[Octets]) -> bool
    ensures { result ≡ fits (map (λ r. r.0 to r.1) ranges.now) s.now }
{
    ranges.len() <= s.len() && s.iter().zip(ranges).all(|(&b, r)| r.contains(b))
}

// ---- A text as a whole, with short cuts, since most text is plain: each says why it answers as the rows do

// UTF8-octets = *( UTF8-char ): how many bytes the longest start has that is characters (F2.7). Short cut: a byte below 128 is passed over,
// and no row is asked for. It is UTF8-1, for which `char_at` answers 1.
#[tactic(auto, using(crate::proofs::StartLaws::sound_steps))]
pub fn sound_start(s: &[u8]) -> usize
    ensures { result ≡ sound_start s.now }
{
    let mut i = 0;
    // No `for`: the step is a character's length.
    while i < s.len() {
        let b = s[i];
        if b < 0x80 {
            i += 1;
        } else {
            let k = char_at(s, i);
            if k == 0 {
                return i;
            }
            i += k;
        }
    }
    i
}

// Whether the bytes are characters to their end. Short cut: where the greatest byte is below 128, each byte is UTF8-1, and no character is looked for.
#[tactic(auto, using(crate::proofs::Utf8Laws::ascii_text, crate::proofs::StartLaws::sound_test))]
pub fn is_utf8(s: &[u8]) -> bool
    ensures { result ≡ utf8 s.now }
{
    extremes_of(s).high < 0x80 || s.len() <= sound_start(s)
}

// How many bytes stand before the first zero byte.
pub fn zero_at(s: &[u8]) -> usize
    ensures { result ≡ zero_at s.now }
{
    s.iter().position(|&b| b == 0).unwrap_or(s.len())
}

// Whether a byte is a character by itself, and not zero. Short cut, for who sees many bytes at once: where all are plain, each is UTF8-1,
// and none is the zero byte (F2.4).
pub fn is_plain(b: u8) -> bool
    ensures { result ≡ in_range (1 to 127) b }
{
    (1..=127).contains(&b)
}

// Whether the eight bytes from `i` on are there, and plain. All are looked at, so that the compiler compares them at once.
#[tactic(auto, using(crate::proofs::Plain::plain_at_is, std::proofs::lemmas::Bool::Decides::nat_tests))]
pub fn eight_plain(s: &[u8], i: usize) -> bool
    ensures { result ≡ plain_at s.now i 8 }
{
    8 <= s.len() && i <= s.len() - 8 && s[i..i + 8].iter().fold(true, |all, &b| all & is_plain(b))
}

// Whether a text of eight to sixteen bytes, as most names are, is plain. Short cut: its first eight bytes and its last eight are all of it.
#[tactic(auto, using(crate::proofs::Plain::short_plain_is, std::proofs::lemmas::Bool::Decides::nat_tests))]
pub fn short_plain(s: &[u8]) -> bool
    ensures { result ≡ short_plain s.now }
{
    (8..=16).contains(&s.len()) && (eight_plain(s, 0) & eight_plain(s, s.len() - 8))
}

// The least and the greatest of some bytes; of none, 255 and 0.
#[derive(Clone, Copy, PartialEq, Eq, Debug)]
pub struct Extremes {
    pub low: u8,
    pub high: u8,
}

// Short cut: one pass with no early exit, which the compiler makes of vectors. If the greatest is below 128, so is each byte; if the least
// is not zero, none is.
pub fn extremes_of(s: &[u8]) -> Extremes
    ensures { (result.low ≡ least_of s.now) × (result.high ≡ greatest_of s.now) }
{
    let mut low: u8 = 255;
    let mut high: u8 = 0;
    for &b in s {
        low = low.min(b);
        high = high.max(b);
    }
    Extremes { low, high }
}
