// The lister's text of a stretch, in one line.

// Each line end becomes a bar, so that a listing is one line.
fn join(text: &mut [u8]) {
    for c in text {
        if *c == b'\n' {
            *c = b'|';
        }
    }
}

// The lister's text, a bar for each line end, at the front of the room: how long it is. The room stays an array here and in `show`, whose
// type says its length; a slice of it would need a proof of that.
fn put_joined(out: &mut [u8; listing::ROOM], s: &[u8]) -> usize {
    let n = listing::report(out, s);
    join(out);
    n
}

fn show(text: &[u8; listing::ROOM], from: usize, to: usize) {
    questions::word(questions::part(text, from, to));
}

// How long the lister's text is, and the text from a position up to another, or to its end.
pub(crate) fn list(from: usize, to: usize, s: &[u8]) {
    let mut out = [0xee; listing::ROOM];
    let n = put_joined(&mut out, s);
    questions::at(0, n);
    questions::word(b" ");
    show(&out, from, n.min(to));
}
