// What the two programs of cases share: a line read, a question taken apart, and answers printed.
//
// A question is a letter, decimal numbers, a slash and bytes by their hexadecimal digits. A number that is left out is 0. The first is
// a place in many of them, and `!K` there is a place that is refused by K already. Where a number is 1 or 0, it says yes or no. `*N K`
// after the numbers makes N bytes of those given, the last K of them over and over. T and R, the seller's questions, have no numbers and
// no slash. Any other line is `malformed`, and its bytes are those before the first fault.

#![tactic(auto)]

ghost use Rattle.std.specs.Prelude.{◌≡◌, ◌+◌, ◌-◌, ◌*◌, ◌<◌, ◌≤◌, min, length, take, drop, replicate, slice_index, slice_index_or};
ghost use Rattle.questions.specs.Parts.{Room, part_of, LineHeld, Numbered, Placed};
ghost use Rattle.questions.specs.Questions.{is_figure, run, ends, next_at, tens, figures_in, value, spelt, grown, sound_at, Laid, Taken};

use numbers::{Fault, Place, Refusal};

// What stands in a room or an output that nothing has been put into.
const UNUSED: u8 = 0xee;

// As much room as any line, its bytes or an output want, all ee. The promise has its length too, which lending the array asks.
pub fn room() -> [u8; 170000]
    ensures { Room result }
{
    [UNUSED; 170000]
}

// The bytes from `from` up to `to`; none where they are not all there. A test of its own, and not `strings::shown`, which is under test.
#[tactic(auto, unfolding(crate::specs::Parts::part_of), using(std::proofs::lemmas::Bool::Decides::nat_tests))]
pub fn part(s: &[u8], from: usize, to: usize) -> &[u8]
    ensures { result.now ≡ part_of s.now from to }
{
    if from <= to && to <= s.len() {
        &s[from..to]
    } else {
        &[]
    }
}

// The first `n` bytes of an output; all of it where it is shorter.
pub fn front(out: &mut [u8], n: usize) -> &mut [u8]
    ensures { result.now ≡ take n out.old }
{
    let len = n.min(out.len());
    &mut out[..len]
}

// The byte at an index; another one where there is none.
fn byte_at(s: &[u8], i: usize, other: u8) -> u8
    ensures { result ≡ slice_index_or s.now i other }
{
    s.get(i).copied().unwrap_or(other)
}

// What stands after an index; nothing where that is the last byte or past it.
fn after(s: &[u8], i: usize) -> &[u8]
    ensures { result.now ≡ drop (i + 1) s.now }
{
    if i < s.len() { &s[i + 1..] } else { &[] }
}

// No line. A number and no Option, as both programs compare with it.
pub const ENDED: usize = usize::MAX;

// One character more of a line, and how many are held then. A line that is too long stays full, as no question does.
fn taken(line: &mut [u8], n: usize, c: u8) -> usize
    requires { n ≤ length line.old }
    ensures { result ≤ length line.old }
{
    if n == line.len() {
        return n;
    }
    line[n] = c;
    n + 1
}

// The next line of standard input, without its end: how many characters it has; ENDED where there is none. A proved loop has to end, and
// nothing says that the input does: it reads a number of times that no run uses up.
pub fn next_line(line: &mut [u8]) -> usize
    ensures { LineHeld line.new result }
{
    let mut n = 0;
    for _ in 0..u64::MAX {
        let mut c = [0u8; 1];
        if io::read_full(0, &mut c) != 1 {
            return ENDED;
        }
        if c[0] == b'\n' {
            return n;
        }
        n = taken(line, n, c[0]);
    }
    ENDED
}

// Whether a character stands in numbers: a digit, a space, a star or a mark.
#[tactic(auto, unfolding(crate::specs::Questions::is_figure), using(std::proofs::lemmas::Bool::Decides::nat_tests))]
fn is_figure(c: u8) -> bool
    ensures { result ≡ is_figure c }
{
    matches!(c, b' ' | b'!' | b'*' | b'0'..=b'9')
}

// Where the numbers end that stand after the letter.
fn past_figures(line: &[u8]) -> usize
    ensures { result ≡ 1 + run (drop 1 line.now) }
{
    1 + after(line, 0).iter().take_while(|&&c| is_figure(c)).count()
}

// T and R have no numbers, and a space for the slash.
#[tactic(auto, unfolding(crate::specs::Questions::ends), using(std::proofs::lemmas::Bool::Decides::nat_tests))]
fn end_of(line: &[u8]) -> usize
    ensures { result ≡ ends line.now }
{
    match byte_at(line, 0, 0) {
        b'T' | b'R' => 1,
        _ => past_figures(line),
    }
}

// How many numbers a question has; the last two are N and K.
const NUMBERS: usize = 16;

const N: usize = NUMBERS - 2;

const K: usize = NUMBERS - 1;

// Which number the next digit is one of: a space steps on, from the last to the first, and a star to the last two.
#[tactic(auto, unfolding(crate::specs::Questions::next_at), using(std::proofs::lemmas::Bool::Decides::nat_tests))]
fn next_at(at: usize, c: u8) -> usize
    requires { at < 16 }
    ensures { (result ≡ next_at at c) × (result < 16) }
{
    match c {
        b' ' => (at + 1) % NUMBERS,
        b'*' => N,
        _ => at,
    }
}

// One digit more. What is too great for a number is the greatest; any other character leaves it as it is.
#[tactic(auto, unfolding(crate::specs::Questions::tens), using(std::proofs::lemmas::Bool::Decides::nat_tests))]
fn more(n: u64, c: u8) -> u64
    ensures { result ≡ tens n c }
{
    match c {
        b'0'..=b'9' => n.saturating_mul(10).saturating_add(u64::from(c - b'0')),
        _ => n,
    }
}

// The numbers, 0 where there are fewer. The space before the first of them steps on from the last.
fn numbers_of(figures: &[u8]) -> [u64; NUMBERS]
    ensures { result ≡ figures_in 15 (replicate 16 0) figures.now }
{
    let mut numbers = [0u64; NUMBERS];
    let mut at = K;
    for &c in figures {
        at = next_at(at, c);
        numbers[at] = more(numbers[at], c);
    }
    numbers
}

// A hexadecimal digit's value; 256 for any other character, so that a pair with one spells more than a byte holds.
#[tactic(auto, unfolding(crate::specs::Questions::value), using(std::proofs::lemmas::Bool::Decides::nat_tests))]
fn digit(c: u8) -> usize
    ensures { (result ≡ value c) × (result ≤ 256) }
{
    match c {
        b'0'..=b'9' => usize::from(c - b'0'),
        b'a'..=b'f' => usize::from(c - b'a') + 10,
        _ => 256,
    }
}

// The bytes that pairs of digits spell, at the front of the output, until it is full or a pair spells none: how many they are.
fn spell(hex: &[u8], out: &mut [u8]) -> usize
    ensures { Laid (take (length out.old) (spelt hex.now)) out.old out.new result }
{
    let end = out.len().min(hex.len() / 2);
    for i in 0..end {
        let byte = digit(hex[i * 2]) * 16 + digit(hex[i * 2 + 1]);
        if 255 < byte {
            return i;
        }
        out[i] = byte as u8;
    }
    end
}

// What stands `back` bytes before index `i`; 0 where nothing does.
fn earlier(out: &[u8], i: usize, back: usize) -> u8
    requires { i ≤ length out.now }
    ensures { result ≡ slice_index (take i out.now) (i - back) }
{
    byte_at(&out[..i], i.saturating_sub(back), 0)
}

// From `count` on, until there are `most` bytes or the output ends: what stands `back` bytes before.
fn repeat(out: &mut [u8], count: usize, most: usize, back: usize) -> usize
    requires { count ≤ length out.old }
    ensures { Laid (grown (min most (length out.old) - count) back (take count out.old)) out.old out.new result }
{
    let end = most.min(out.len());
    for i in count..end {
        out[i] = earlier(out, i, back);
    }
    count.max(end)
}

// Whether a slash, or the space of T and R, ends the numbers, and all digits have spelt bytes.
#[tactic(auto, unfolding(crate::specs::Questions::sound_at), using(std::proofs::lemmas::Bool::Decides::nat_tests))]
fn is_sound(c: u8, given: usize, digits: usize) -> bool
    requires { given * 2 ≤ digits }
    ensures { result ≡ sound_at c given digits }
{
    matches!(c, b'/' | b' ') && given * 2 == digits
}

// A question's numbers; whether the first is marked; how many bytes it has; and whether it is well formed.
#[derive(Clone, Copy)]
pub struct Question {
    pub numbers: [u64; NUMBERS],
    pub marked: bool,
    pub held: usize,
    pub sound: bool,
}

// A line taken apart. Its bytes go to the front of the room.
pub fn read(line: &[u8], bytes: &mut [u8]) -> Question
    ensures { Taken line.now bytes.old result bytes.new }
{
    let end = end_of(line);
    let numbers = numbers_of(part(line, 1, end));
    let hex = after(line, end);
    let given = spell(hex, bytes);
    let held = repeat(bytes, given, numbers[N] as usize, numbers[K] as usize);
    Question {
        numbers,
        marked: byte_at(line, 2, 0) == b'!',
        held,
        sound: is_sound(byte_at(line, end, b'/'), given, hex.len()),
    }
}

// The refusal of that number among those of frames, F9.1 to F9.17, or of the nearest there.
fn refusal(n: u64) -> Refusal
    ensures { Numbered n result }
{
    match n {
        0 | 1 => Refusal::Short,
        2 => Refusal::SizeBelowFour,
        3 => Refusal::UnknownType,
        4 => Refusal::DataTooLong,
        5 => Refusal::NotUtf8,
        6 => Refusal::ZeroByte,
        7 => Refusal::StringTooLong,
        8 => Refusal::TableTooLong,
        9 => Refusal::SpanOutside,
        10 => Refusal::FrameTooLong,
        11 => Refusal::NoRoom,
        12 => Refusal::StretchCut,
        13 => Refusal::StretchSize,
        14 => Refusal::PartMalformed,
        15 => Refusal::NoSuchElement,
        16 => Refusal::HoldsRefusal,
        _ => Refusal::TooManyElements,
    }
}

// A place: a position, or, where the number is marked, refused by it.
pub fn place(n: u64, marked: bool) -> Place
    ensures { Placed n marked result }
{
    if marked {
        Err(Fault(refusal(n), 0))
    } else {
        Ok(n as usize)
    }
}

pub fn word(text: &[u8]) {
    io::write_all(1, text);
}

// Says a heading again, or the letter of a question, so that the answers stand beside their questions; T and R are answered as the seller
// answers, without. Whether the line is a question, and which.
pub fn begin(line: &[u8]) -> u8
    ensures { result ≡ slice_index line.now 0 }
{
    let kind = byte_at(line, 0, 0);
    match kind {
        b'#' => word(line),
        b'T' | b'R' => {}
        _ => word(part(line, 0, 1)),
    }
    kind
}

// A number, and the space before it.
pub fn figure(n: u64) {
    word(b" ");
    io::print_decimal(1, n);
}

pub fn list(numbers: &[u64]) {
    for &n in numbers {
        figure(n);
    }
}

// Where a reading or a putting ended; or why it was refused, by its number, 0 for none. No Place, as most callers have a position alone.
pub fn at(refusal: u8, n: usize) {
    if refusal == 0 {
        word(b" at");
        figure(n as u64);
        return;
    }
    word(b" refused");
    figure(refusal as u64);
}

pub fn placed(p: Place) {
    match p {
        Ok(n) => at(0, n),
        Err(Fault(k, _)) => at(numbers::number(k), 0),
    }
}

fn print_run(b: u8, run: usize) {
    io::print_hex(1, u64::from(b), 2);
    if 1 < run {
        word(b"*");
        io::print_decimal(1, run as u64);
        word(b".");
    }
}

// More bytes than these are printed by their runs.
const FEW: usize = 1024;

// Bytes, and the space before them: their digits, or, of more than 1,024, their runs, as `ff*2.61*65535.`.
pub fn print(s: &[u8]) {
    if s.is_empty() {
        return;
    }
    word(b" ");
    let few = s.len() <= FEW;
    for run in s.chunk_by(|a, b| !few && a == b) {
        print_run(run[0], run.len());
    }
}

// What reading a frame says: its type, its tag and the bytes used; or the refusal, by its number as in `at`, and the tag where there is one.
pub fn head(refusal: u8, ty: u8, tag: u16, tagged: bool, used: usize) {
    if refusal == 0 {
        word(b"accepted");
        list(&[ty as u64, tag as u64, used as u64]);
        return;
    }
    word(b"refused");
    figure(refusal as u64);
    if tagged {
        figure(tag as u64);
        return;
    }
    word(b" -");
}

// How many bytes of an output are looked at after a putting.
const LOOKED_AT: usize = 1024;

// The frame as it was written, or why it was not; and whether any byte after it was altered.
pub fn again(out: &[u8], p: Place) {
    let end = match p {
        Ok(n) => {
            print(part(out, 0, n));
            n
        }
        Err(Fault(k, _)) => {
            figure(numbers::number(k) as u64);
            0
        }
    };
    let kept = [UNUSED; LOOKED_AT];
    if !check::same(part(out, end, LOOKED_AT), part(&kept, end, LOOKED_AT)) {
        word(b" and more");
    }
}

// The type that a frame says it has; 0 where it is too short for one.
pub fn type_of(s: &[u8]) -> u8
    ensures { result ≡ slice_index s.now 4 }
{
    byte_at(s, 4, 0)
}
