// Refusals, places, and numbers of 1, 2, 4 and 8 bytes, little endian: read at a place of a slice, put at a place of an output.

#![tactic(auto)]

ghost use Rattle.std.specs.Prelude.{◌≡◌, ◌+◌, ◌-◌, ◌^◌, ◌≤◌, ◌<◌, min as lesser, length, take, drop};
ghost use Rattle.numbers.specs.Refusals.{number_of};
ghost use Rattle.numbers.specs.Numbers.{from_le, to_le};
ghost use Rattle.numbers.specs.Places.{Within, NumRead, Put, over};

// Why a reading or a writing is refused, by its number (F9).
#[derive(Clone, Copy, Debug, PartialEq, Eq)]
pub enum Refusal {
    Short = 1,
    SizeBelowFour = 2,
    UnknownType = 3,
    DataTooLong = 4,
    NotUtf8 = 5,
    ZeroByte = 6,
    StringTooLong = 7,
    TableTooLong = 8,
    SpanOutside = 9,
    FrameTooLong = 10,
    NoRoom = 11,
    StretchCut = 12,
    StretchSize = 13,
    PartMalformed = 14,
    NoSuchElement = 15,
    HoldsRefusal = 16,
    TooManyElements = 17,
    StatMalformed = 18,
    Trailer = 19,
    TagOpen = 20,
    NoRequest = 21,
    FidInUse = 22,
    FidUnknown = 23,
    TableFull = 24,
    Capture = 25,
    MsizeTooSmall = 26,
    EndTooFar = 27,
}

// The refusal's number (F9).
pub fn number(k: Refusal) -> u8
    ensures { result ≡ number_of k }
{
    k as u8
}

// Why a reading or a writing is refused, and where a text breaks (F2.7); with any other refusal of a place it is 0.
#[derive(Clone, Copy, Debug, PartialEq, Eq)]
pub struct Fault(pub Refusal, pub usize);

// The refusal alone, for who knows the place.
impl From<Fault> for Refusal {
    ghost from_gives = { λ f k. k ≡ f.0 };

    fn from(f: Fault) -> Refusal {
        f.0
    }
}

// A refusal that has no place of its own.
impl From<Refusal> for Fault {
    ghost from_gives = { λ k f. f ≡ (k, 0) };

    fn from(k: Refusal) -> Fault {
        Fault(k, 0)
    }
}

// Where a reading or a writing stands: at a position, or refused. It goes through the fields by value, so that a record's reader is one
// straight line: whatever is asked at a refused place answers the same refusal.
pub type Place = Result<usize, Fault>;

// The lesser of two lengths.
pub fn min(a: usize, b: usize) -> usize
    ensures { result ≡ lesser a b }
{
    a.min(b)
}

// The difference, 0 where there is none.
pub fn saturating_sub(a: usize, b: usize) -> usize
    ensures { result ≡ a - b }
{
    a.saturating_sub(b)
}

// Whether `n` bytes at `at` lie within `len` bytes. The sum is never formed, so nothing wraps.
pub fn within(at: usize, n: usize, len: usize) -> bool
    ensures { Within at n len result }
{
    n <= len && at <= len - n
}

// What was read at a place, all 0 if it was refused, and the place after it.
#[derive(Clone, Copy)]
pub struct Read<T> {
    pub value: T,
    pub next: Place,
}

// The number that the `width` bytes at `at` hold: the one loop after every width.
fn le_at(s: &[u8], at: usize, width: usize) -> u64
    requires { (width ≤ 8) × (at + width ≤ length s.now) }
    ensures { result ≡ from_le (take width (drop at s.now)) }
{
    let mut v = 0;
    for &b in s[at..at + width].iter().rev() {
        v = v * 256 + u64::from(b);
    }
    v
}

fn read_num(s: &[u8], p: Place, width: usize) -> Read<u64>
    requires { (0 < width) × (width ≤ 8) }
    ensures { NumRead width s.now p result.value result.next × (result.value < 256 ^ width) }
{
    let Ok(at) = p else {
        return Read { value: 0, next: p };
    };
    if !within(at, width, s.len()) {
        return Read {
            value: 0,
            next: Err(Fault(Refusal::Short, 0)),
        };
    }
    Read {
        value: le_at(s, at, width),
        next: Ok(at + width),
    }
}

pub fn read_u8(s: &[u8], p: Place) -> Read<u8>
    ensures { NumRead 1 s.now p result.value result.next }
{
    let r = read_num(s, p, 1);
    Read {
        value: r.value as u8,
        next: r.next,
    }
}

pub fn read_u16(s: &[u8], p: Place) -> Read<u16>
    ensures { NumRead 2 s.now p result.value result.next }
{
    let r = read_num(s, p, 2);
    Read {
        value: r.value as u16,
        next: r.next,
    }
}

pub fn read_u32(s: &[u8], p: Place) -> Read<u32>
    ensures { NumRead 4 s.now p result.value result.next }
{
    let r = read_num(s, p, 4);
    Read {
        value: r.value as u32,
        next: r.next,
    }
}

pub fn read_u64(s: &[u8], p: Place) -> Read<u64>
    ensures { NumRead 8 s.now p result.value result.next }
{
    read_num(s, p, 8)
}

// The `width` bytes of `x`, the lowest first, over those from `at` on: the one loop after every width.
fn put_le(out: &mut [u8], at: usize, x: u64, width: usize)
    requires { at + width ≤ length out.old }
    ensures { out.new ≡ over out.old at (to_le width x) }
{
    let mut v = x;
    for b in &mut out[at..at + width] {
        *b = (v % 256) as u8;
        v /= 256;
    }
}

// The lowest `width` bytes of a number.
pub fn put_num(out: &mut [u8], p: Place, x: u64, width: usize) -> Place
    ensures { Put (to_le width x) out.old p out.new result }
{
    let at = p?;
    if !within(at, width, out.len()) {
        return Err(Fault(Refusal::NoRoom, 0));
    }
    put_le(out, at, x, width);
    Ok(at + width)
}

pub fn put_u8(out: &mut [u8], p: Place, x: u8) -> Place
    ensures { Put (to_le 1 x) out.old p out.new result }
{
    put_num(out, p, x as u64, 1)
}

pub fn put_u16(out: &mut [u8], p: Place, x: u16) -> Place
    ensures { Put (to_le 2 x) out.old p out.new result }
{
    put_num(out, p, x as u64, 2)
}

pub fn put_u32(out: &mut [u8], p: Place, x: u32) -> Place
    ensures { Put (to_le 4 x) out.old p out.new result }
{
    put_num(out, p, x as u64, 4)
}

pub fn put_u64(out: &mut [u8], p: Place, x: u64) -> Place
    ensures { Put (to_le 8 x) out.old p out.new result }
{
    put_num(out, p, x, 8)
}
