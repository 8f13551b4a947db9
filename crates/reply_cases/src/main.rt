// Answers questions about replies, as the functions over records have them, and about the lister's text. Standard input has a question a line,
// and standard output gets an answer a line; the file `stdout` beside `src` has what each is owed. The headings say what is asked, and what
// is answered; `questions` says how.

#![tactic(auto)]

mod listed;

use numbers::Place;

// A body read at a place and written again there.
fn body(out: &mut [u8], ty: u8, p: Place, s: &[u8]) -> Place {
    let (m, end) = replies::read_rmessage(s, ty, p)?;
    questions::at(0, end);
    replies::write_rmessage(out, p, s, m)
}

// The answer is where writing ended; 0 where there is no frame to write.
fn reply(s: &[u8], ty: u8, out: &mut [u8]) -> Place {
    match frames::read_rframe(s) {
        Ok((f, used)) => {
            questions::head(0, ty, f.tag.0, true, used);
            frames::write_rframe(out, s, f)
        }
        Err(e) => {
            questions::head(numbers::number(e.0), 0, 0, false, 0);
            Ok(0)
        }
    }
}

fn question(kind: u8, line: &[u8]) {
    let mut bytes = questions::room();
    let q = questions::read(line, &mut bytes);
    if !q.sound {
        questions::word(b" malformed");
        return;
    }
    let n = q.numbers;
    let s = questions::part(&bytes, 0, q.held);
    let mut out = questions::room();
    match kind {
        b'R' => {
            let end = reply(s, questions::type_of(s), questions::front(&mut out, 1024));
            questions::again(&out, end);
        }
        b'l' => listed::list(n[0] as usize, n[1] as usize, s),
        b'B' => {
            let room = n[2] as usize;
            let ty = (n[1] % 256) as u8;
            let p = questions::place(n[0], q.marked);
            let end = body(questions::front(&mut out, room), ty, p, s);
            questions::placed(end);
            questions::print(questions::part(&out, 0, room));
        }
        _ => questions::word(b" malformed"),
    }
}

fn main() {
    let mut line = questions::room();
    for _ in 0..u64::MAX {
        let n = questions::next_line(&mut line);
        if n == questions::ENDED {
            return;
        }
        let text = questions::part(&line, 0, n);
        let kind = questions::begin(text);
        if kind != b'#' {
            question(kind, text);
        }
        questions::word(b"\n");
    }
}
