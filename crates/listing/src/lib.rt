// The lister's text: a stretch of frames, a line for each, made in a room that the caller lends.

#![tactic(auto)]

pub mod input;

ghost use Rattle.std.specs.Prelude.{◌≡◌};
ghost use Rattle.numbers.specs.Places.{Put};
ghost use Rattle.numbers.specs.Refusals.{number_of};
ghost use Rattle.stretch.specs.Views.{view_body};
ghost use Rattle.listing.specs.Text.{answer_number, header, end_word, stop_word, too_long, DecimalPut, FieldPut, TailPut, FramePut, LinePut, LastPut, LinesPut, ReportPut, position_of, Reported};

use numbers::{Place, Refusal};
use replies::Rbody;
use requests::Tbody;
use stretch::{Body, Listed};
use strings::Span;

pub fn put_text(out: &mut [u8], p: Place, text: &[u8]) -> Place
    ensures { Put text.now out.old p out.new result }
{
    let all = Span {
        start: 0,
        len: text.len(),
    };
    strings::put_bytes(out, p, text, all)
}

fn put_decimal(out: &mut [u8], p: Place, n: u64) -> Place
    ensures { DecimalPut n out.old p out.new result }
{
    let mut text = [0u8; 20];
    let len = io::decimal(n, &mut text);
    put_text(out, p, &text[..len])
}

// A decimal field and what stands after it.
fn put_field(out: &mut [u8], p: Place, n: u64, next: &[u8]) -> Place
    ensures { FieldPut n next.now out.old p out.new result }
{
    let q = put_decimal(out, p, n);
    put_text(out, q, next)
}

// 0, or the number of the refusal.
fn answer_of(body: Body) -> u8
    ensures { result ≡ answer_number (view_body body) }
{
    match body {
        Body::Request(b) => match b {
            Ok(_) => 0,
            Err(f) => numbers::number(f.0),
        },
        Body::Reply(b) => match b {
            Ok(_) => 0,
            Err(f) => numbers::number(f.0),
        },
    }
}

// The last field of a line, by the answer before it.
fn put_tail(out: &mut [u8], p: Place, answer: u8, tail: usize) -> Place
    ensures { TailPut answer tail out.old p out.new result }
{
    if answer == 0 {
        return put_field(out, p, tail as u64, b"\n");
    }
    put_text(out, p, b"-\n")
}

// Position, size, type, tag, answer and tail; the answer is told.
pub fn put_frame(out: &mut [u8], p: Place, l: Listed, answer: u8) -> Place
    ensures { FramePut l answer out.old p out.new result }
{
    let a = put_field(out, p, l.at as u64, b" ");
    let b = put_field(out, a, l.size as u64, b" ");
    let c = put_field(out, b, l.ty as u64, b" ");
    let d = put_field(out, c, l.tag.0 as u64, b" ");
    let e = put_field(out, d, answer as u64, b" ");
    put_tail(out, e, answer, l.tail)
}

// A frame's line, with the answer of its body.
fn put_line(out: &mut [u8], p: Place, l: Listed) -> Place
    ensures { LinePut l out.old p out.new result }
{
    put_frame(out, p, l, answer_of(l.body))
}

// The last line: a word and two figures.
fn put_last(out: &mut [u8], p: Place, word: &[u8], position: usize, n: u64) -> Place
    ensures { LastPut word.now position n out.old p out.new result }
{
    let a = put_text(out, p, word);
    let b = put_field(out, a, position as u64, b" ");
    put_field(out, b, n, b"\n")
}

// The stretch was read to its end, after n frames.
pub fn put_end(out: &mut [u8], p: Place, position: usize, n: u64) -> Place
    ensures { LastPut end_word position n out.old p out.new result }
{
    put_last(out, p, b"end ", position, n)
}

// It cannot be read on.
pub fn put_stop(out: &mut [u8], p: Place, position: usize, k: Refusal) -> Place
    ensures { LastPut stop_word position (number_of k) out.old p out.new result }
{
    put_last(out, p, b"stop ", position, numbers::number(k) as u64)
}

// A line for each frame, and the last line. No `for`: a step is a frame's size, which the cut tells.
fn put_lines(out: &mut [u8], from: Place, bytes: &[u8]) -> Place
    ensures { LinesPut bytes.now out.old from out.new result }
{
    let mut p = from;
    let mut at = 0;
    let mut n: u64 = 0;
    loop {
        match stretch::frame_at(bytes, at) {
            Ok(Some(l)) => {
                p = put_line(out, p, l);
                at = l.next;
                n += 1;
            }
            Ok(None) => return put_end(out, p, at, n),
            Err(f) => return put_stop(out, p, f.1, f.0),
        }
    }
}

// All that is said of an input of more bytes than are taken.
pub fn put_too_long(out: &mut [u8], p: Place) -> Place
    ensures { Put too_long out.old p out.new result }
{
    put_text(out, p, b"input too long\n")
}

// The first line.
pub fn put_header(out: &mut [u8], p: Place) -> Place
    ensures { Put header out.old p out.new result }
{
    put_text(out, p, b"at size type tag answer tail\n")
}

// The whole text, at the front of an output.
fn put_report(out: &mut [u8], input: &[u8]) -> Place
    ensures { ReportPut input.now out.old out.new result }
{
    if 65536 < input.len() {
        return put_too_long(out, Ok(0));
    }
    let p = put_header(out, Ok(0));
    put_lines(out, p, input)
}

// Where a place is; 0 where it is refused, as no text that fits the room is.
pub fn position(p: Place) -> usize
    ensures { result ≡ position_of p }
{
    p.unwrap_or(0)
}

// The text of any input fits: its header has 29 bytes, its lines at most 31 each, of which there are at most 9,362, since a frame has
// seven bytes or more, and its last line has at most 15. The proof is `text_most`, specs/RoomLaws.antt.
pub const ROOM: usize = 290266;

// What the lister writes of its input, at the front of the room: how many bytes that is.
pub fn report(out: &mut [u8; ROOM], input: &[u8]) -> usize
    ensures { Reported input.now out.old out.new result }
{
    position(put_report(out, input))
}
