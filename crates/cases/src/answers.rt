// A question's answer, in one line.

use crate::{outputs, request, sweeps};
use numbers::Place;
use strings::Span;

// A number of 1, 2, 4 or 8 bytes.
fn number(p: Place, width: u64, s: &[u8]) {
    match width {
        1 => {
            let r = numbers::read_u8(s, p);
            questions::placed(r.next);
            questions::figure(r.value as u64);
        }
        2 => {
            let r = numbers::read_u16(s, p);
            questions::placed(r.next);
            questions::figure(r.value as u64);
        }
        4 => {
            let r = numbers::read_u32(s, p);
            questions::placed(r.next);
            questions::figure(r.value as u64);
        }
        _ => {
            let r = numbers::read_u64(s, p);
            questions::placed(r.next);
            questions::figure(r.value);
        }
    }
}

fn string(p: Place, s: &[u8]) {
    let r = strings::read_str(s, p);
    questions::placed(r.next);
    questions::list(&[r.value.start as u64, r.value.len as u64]);
}

// A span, as a part of the bytes, as a string, and its text by itself.
fn span(p: Place, start: u64, len: u64, s: &[u8]) {
    let v = Span {
        start: start as usize,
        len: len as usize,
    };
    questions::placed(strings::check_span(s, v, p));
    questions::placed(strings::check_str(s, v, p));
    let shown = strings::shown(s, v);
    let all = Span {
        start: 0,
        len: shown.len(),
    };
    questions::placed(strings::check_str(shown, all, p));
    questions::figure(utf8::is_utf8(shown) as u64);
    questions::print(shown);
}

// A string with its count: its text checked, read, and put into 32 bytes.
fn text(s: &[u8]) {
    let len = questions::part(s, 2, s.len()).len() as u64;
    span(Ok(3), 2, len, s);
    string(Ok(0), s);
    let n = [0, 0, 2, len, 0, 0, 0, 0, 0, 0, 0, 0, 0, 0, 0, 0];
    outputs::write(b'e', 32, Ok(0), &n, s);
}

// The questions that want no output.
fn small(kind: u8, p: Place, n: &[u64; 16], s: &[u8]) {
    let at = n[0] as usize;
    match kind {
        b'i' => questions::figure(numbers::within(at, n[1] as usize, n[2] as usize) as u64),
        b'n' => number(p, n[1], s),
        b'c' => questions::figure(utf8::char_at(s, at) as u64),
        b'g' => string(p, s),
        b's' => span(p, n[1], n[2], s),
        b'u' => text(s),
        b'v' => sweeps::sweep(s),
        _ => questions::word(b" malformed"),
    }
}

fn ask(kind: u8, p: Place, n: &[u64; 16], s: &[u8]) {
    match kind {
        b'T' | b'B' => request::ask(kind, p, n, s),
        b'p' | b'b' | b'e' => outputs::write(kind, n[1], p, n, s),
        _ => small(kind, p, n, s),
    }
}

fn question(kind: u8, line: &[u8]) {
    let mut bytes = questions::room();
    let q = questions::read(line, &mut bytes);
    if !q.sound {
        questions::word(b" malformed");
        return;
    }
    let n = q.numbers;
    let p = questions::place(n[0], q.marked);
    ask(kind, p, &n, questions::part(&bytes, 0, q.held));
}

pub(crate) fn answer(line: &[u8]) {
    let kind = questions::begin(line);
    if kind != b'#' {
        question(kind, line);
    }
    questions::word(b"\n");
}
