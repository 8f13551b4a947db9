// Capture files (F13): the frames of one as a stretch, with their times in a lent table; and a stretch with such a table as a file. What is
// lent is written only once all of the other side was looked at. No sum is formed that could wrap.

#![tactic(auto)]

ghost use Rattle.std.specs.Prelude.{◌≡◌, ◌+◌, ◌≤◌, [], ◌++◌, length, take, drop, get_or};
ghost use Rattle.numbers.specs.Places.{over};
ghost use Rattle.framing.specs.Stretch.{frame_at};
ghost use Rattle.captures.specs.Captures.{num_in, headed, bytes_in, times_in, tallied, Imports, cut_up, header, record_bytes, Exports};
ghost use Rattle.captures.specs.Steps.{is_big, OrderIs, size_at, from, Roomy, step_to, countable, RoomFor, records, Ready};

use numbers::{Fault, Place, Refusal};
use strings::Span;

const MAGIC: u32 = 2_712_847_316;

const MAJOR: u16 = 2;

const MINOR: u16 = 4;

const SNAPSHOT: u32 = 65_535;

const LINK: u32 = 147;

// What a file has before its records, and a record before its frame.
const HEAD: usize = 24;

const RECORD: usize = 16;

// The sizes that a frame may have.
const LEAST: u32 = 7;

const MOST: u32 = 65_535;

// How many bytes a stretch has, and how many frames.
#[derive(Clone, Copy)]
pub struct Imported {
    pub bytes: usize,
    pub frames: usize,
}

// The order of a file's bytes.
#[derive(Clone, Copy)]
enum Order {
    Little,
    Big,
}

// The two bytes at `at` in the file's order.
fn short(file: &[u8], at: usize, order: Order) -> u16
    requires { at + 2 ≤ length file.now }
    ensures { result ≡ num_in (is_big order) 2 at file.now }
{
    let bytes = [file[at], file[at + 1]];
    match order {
        Order::Little => u16::from_le_bytes(bytes),
        Order::Big => u16::from_be_bytes(bytes),
    }
}

// The four bytes at `at` in the file's order.
fn number(file: &[u8], at: usize, order: Order) -> u32
    requires { at + 4 ≤ length file.now }
    ensures { result ≡ num_in (is_big order) 4 at file.now }
{
    let bytes = [file[at], file[at + 1], file[at + 2], file[at + 3]];
    match order {
        Order::Little => u32::from_le_bytes(bytes),
        Order::Big => u32::from_be_bytes(bytes),
    }
}

// Whether a header in this order stands at the front. Zone, accuracy and snapshot length may be anything.
#[tactic(auto, unfolding(crate::specs::Captures::headed))]
fn headed(file: &[u8], order: Order) -> bool
    ensures { result ≡ headed (is_big order) file.now }
{
    if file.len() < HEAD {
        return false;
    }
    let magic = number(file, 0, order);
    let major = short(file, 4, order);
    let minor = short(file, 6, order);
    let link = number(file, 20, order);
    magic == MAGIC && major == MAJOR && minor == MINOR && link == LINK
}

// The order in which a header stands at the front, if there is one.
#[tactic(auto, unfolding(crate::specs::Captures::order_of))]
fn order_of(file: &[u8]) -> Option<Order>
    ensures { OrderIs file.now result }
{
    if headed(file, Order::Little) {
        return Some(Order::Little);
    }
    if headed(file, Order::Big) {
        return Some(Order::Big);
    }
    None
}

// The size of the frame of the record at `at`; 25 where no record stands whole there. The frame's size is little endian always.
fn frame_size(file: &[u8], at: usize, order: Order) -> Place
    ensures { result ≡ size_at (is_big order) at (drop at file.now) }
{
    let none = Err(Fault(Refusal::Capture, at));
    if !numbers::within(at, RECORD, file.len()) {
        return none;
    }
    let captured = number(file, at + 8, order);
    if captured != number(file, at + 12, order) {
        return none;
    }
    if captured < LEAST || MOST < captured {
        return none;
    }
    let start = at + RECORD;
    if !numbers::within(start, captured as usize, file.len()) {
        return none;
    }
    if number(file, start, Order::Little) != captured {
        return none;
    }
    Ok(captured as usize)
}

// How many bytes of frames and how many frames the records hold, all of which are looked at; 25. A step is a record's size: no range has it.
fn tally(file: &[u8], order: Order) -> Result<Imported, Fault>
    requires { 24 ≤ length file.now }
    ensures { result ≡ tallied 0 0 (from (is_big order) file.now 24) }
{
    let mut at = HEAD;
    let mut bytes = 0;
    let mut frames = 0;
    while at < file.len() {
        let size = frame_size(file, at, order)?;
        bytes += size;
        frames += 1;
        at += RECORD + size;
    }
    Ok(Imported { bytes, frames })
}

// The frames over the first bytes of the output, the times over the first rows of the table. `tally` has looked at each record before.
// No `for` here either.
fn take_packets(out: &mut [u8], times: &mut [[u32; 2]], file: &[u8], order: Order)
    requires { Roomy file.now (from (is_big order) file.now 24) out.old times.old }
    ensures { (out.new ≡ over out.old 0 (bytes_in (from (is_big order) file.now 24))) × (times.new ≡ times_in (from (is_big order) file.now 24) ++ drop (length (times_in (from (is_big order) file.now 24))) times.old) }
{
    let mut at = HEAD;
    let mut to = 0;
    let mut i = 0;
    while at < file.len() {
        let Ok(len) = frame_size(file, at, order) else {
            return;
        };
        let seconds = number(file, at, order);
        let micros = number(file, at + 4, order);
        times[i] = [seconds, micros];
        let start = at + RECORD;
        let _ = strings::put_bytes(out, Ok(to), file, Span { start, len });
        to += len;
        i += 1;
        at = start + len;
    }
}

// The frames of a capture file as a stretch, and their times: 25, with the position of the record, or 0 for the header; then 24; then 11.
pub fn import(out: &mut [u8], times: &mut [[u32; 2]], file: &[u8]) -> Result<Imported, Fault>
    ensures { Imports file.now out.old times.old out.new times.new result }
{
    let Some(order) = order_of(file) else {
        return Err(Fault(Refusal::Capture, 0));
    };
    let told = tally(file, order)?;
    if times.len() < told.frames {
        return Err(Fault(Refusal::TableFull, 0));
    }
    if out.len() < told.bytes {
        return Err(Fault(Refusal::NoRoom, 0));
    }
    take_packets(out, times, file, order);
    Ok(told)
}

// Where the frame at `at` ends; 12, 13 with the position.
fn frame_end(stretch: &[u8], at: usize) -> Place
    ensures { result ≡ step_to (frame_at [] [] stretch.now at) }
{
    match framing::cut_at(stretch, at) {
        Ok(Some(cut)) => Ok(cut.next),
        Ok(None) => Err(Fault(Refusal::StretchCut, at)),
        Err(k) => Err(Fault(k, at)),
    }
}

// How many frames the stretch has: 12, 13; then, once it is cut to its end, 25 at the first that no record holds. A step is a frame's size,
// here and below: no range has it.
fn count(stretch: &[u8]) -> Place
    ensures { result ≡ countable (cut_up stretch.now) }
{
    let mut at = 0;
    let mut frames = 0;
    let mut fit: Place = Ok(0);
    while at < stretch.len() {
        let next = frame_end(stretch, at)?;
        if fit.is_ok() && (MOST as usize) < next - at {
            fit = Err(Fault(Refusal::Capture, at));
        }
        at = next;
        frames += 1;
    }
    fit?;
    Ok(frames)
}

// Whether the output has room for a header, so many bytes and so many records.
fn room_for(room: usize, len: usize, n: usize) -> bool
    ensures { RoomFor room len n result }
{
    HEAD <= room && len <= room - HEAD && n <= (room - HEAD - len) / RECORD
}

fn put_head(out: &mut [u8])
    requires { 24 ≤ length out.old }
    ensures { out.new ≡ over out.old 0 header }
{
    let a = numbers::put_u32(out, Ok(0), MAGIC);
    let b = numbers::put_u16(out, a, MAJOR);
    let c = numbers::put_u16(out, b, MINOR);
    let d = numbers::put_u32(out, c, 0);
    let e = numbers::put_u32(out, d, 0);
    let f = numbers::put_u32(out, e, SNAPSHOT);
    let _ = numbers::put_u32(out, f, LINK);
}

// A record, whose frame is a span of the stretch.
fn put_record(out: &mut [u8], to: usize, time: [u32; 2], stretch: &[u8], frame: Span)
    requires { (frame.start + frame.len ≤ length stretch.now) × (to + 16 + frame.len ≤ length out.old) }
    ensures { out.new ≡ over out.old to (record_bytes (get_or time 0 0) (get_or time 1 0) (take frame.len (drop frame.start stretch.now))) }
{
    let a = numbers::put_u32(out, Ok(to), time[0]);
    let b = numbers::put_u32(out, a, time[1]);
    let c = numbers::put_num(out, b, frame.len as u64, 4);
    let d = numbers::put_num(out, c, frame.len as u64, 4);
    let _ = strings::put_bytes(out, d, stretch, frame);
}

// A record for each frame, after the header. `count` has cut the stretch before; no `for` here either.
fn put_records(out: &mut [u8], stretch: &[u8], times: &[[u32; 2]])
    requires { Ready stretch.now times.now out.old }
    ensures { out.new ≡ over out.old 24 (records stretch.now times.now) }
{
    let mut at = 0;
    let mut to = HEAD;
    let mut i = 0;
    while at < stretch.len() {
        let Ok(next) = frame_end(stretch, at) else {
            return;
        };
        let len = next - at;
        put_record(out, to, times[i], stretch, Span { start: at, len });
        to += RECORD + len;
        i += 1;
        at = next;
    }
}

// A stretch and the times of its frames as a capture file, and its length: 12 or 13, then 25, each with its position; then 24; then 11.
pub fn export(out: &mut [u8], stretch: &[u8], times: &[[u32; 2]]) -> Place
    ensures { Exports stretch.now times.now out.old out.new result }
{
    let frames = count(stretch)?;
    if times.len() < frames {
        return Err(Fault(Refusal::TableFull, 0));
    }
    if !room_for(out.len(), stretch.len(), frames) {
        return Err(Fault(Refusal::NoRoom, 0));
    }
    put_head(out);
    put_records(out, stretch, times);
    Ok(HEAD + stretch.len() + frames * RECORD)
}
