// Requests, as the functions over records have them.

use numbers::Place;

// A body read at a place and written again there.
fn body(out: &mut [u8], ty: u8, p: Place, s: &[u8]) -> Place {
    let (m, end) = requests::read_tmessage(s, ty, p)?;
    questions::at(0, end);
    requests::write_tmessage(out, p, s, m)
}

// The answer is where writing ended; 0 where there is no frame to write.
fn frame(s: &[u8], ty: u8, out: &mut [u8]) -> Place {
    match frames::read_tframe(s) {
        Ok(f) => {
            match f.msg {
                Ok((_, used)) => questions::head(0, ty, f.tag.0, true, used),
                Err(e) => questions::head(numbers::number(e.0), 0, f.tag.0, true, 0),
            }
            frames::write_tframe(out, s, f)
        }
        Err(k) => {
            questions::head(numbers::number(k), 0, 0, false, 0);
            Ok(0)
        }
    }
}

pub(crate) fn ask(kind: u8, p: Place, n: &[u64; 16], s: &[u8]) {
    let mut out = questions::room();
    if kind == b'T' {
        let end = frame(s, questions::type_of(s), questions::front(&mut out, 1024));
        questions::again(&out, end);
        return;
    }
    let room = n[2] as usize;
    let ty = (n[1] % 256) as u8;
    let end = body(questions::front(&mut out, room), ty, p, s);
    questions::placed(end);
    questions::print(questions::part(&out, 0, room));
}
