// What is written: into an output of so much room that was all ee, and answered with the whole of it.

use numbers::Place;
use strings::Span;

fn number(out: &mut [u8], p: Place, width: u64, x: u64) -> Place {
    match width {
        1 => numbers::put_u8(out, p, (x % 0x100) as u8),
        2 => numbers::put_u16(out, p, (x % 0x10000) as u16),
        4 => numbers::put_u32(out, p, (x % 0x100000000) as u32),
        _ => numbers::put_u64(out, p, x),
    }
}

fn put(kind: u8, out: &mut [u8], p: Place, n: &[u64; 16], s: &[u8]) {
    let c = n[2];
    let d = n[3];
    let v = Span {
        start: c as usize,
        len: d as usize,
    };
    match kind {
        b'p' => questions::placed(number(out, p, c, d)),
        b'b' => questions::placed(strings::put_bytes(out, p, s, v)),
        _ => questions::placed(strings::put_str(out, p, s, v)),
    }
}

pub(crate) fn write(kind: u8, room: u64, p: Place, n: &[u64; 16], s: &[u8]) {
    let mut out = questions::room();
    put(kind, questions::front(&mut out, room as usize), p, n, s);
    questions::print(questions::part(&out, 0, room as usize));
}
