// A recording followed (F15): the frames of a file with a trailer, each an event to the session, and the text of what the session answers.

#![tactic(auto)]

ghost use Rattle.std.specs.Prelude.{◌≡◌};
ghost use Rattle.replaying.specs.Replays.{answer_of, LinesPut, ReplayPut, Replayed};

use numbers::{Place, Refusal};

// 0, or the number of the refusal.
pub fn answer_of(a: Result<(), Refusal>) -> u8
    ensures { result ≡ answer_of a }
{
    match a {
        Ok(()) => 0,
        Err(k) => numbers::number(k),
    }
}

// A line for each frame, with the session's answer, and the last line. No `for`: a step is a frame's size, which the cut tells.
fn put_lines(out: &mut [u8], from: Place, stretch: &[u8]) -> Place
    ensures { LinesPut stretch.now out.old from out.new result }
{
    let mut s = session::fresh();
    let mut p = from;
    let mut at = 0;
    let mut n: u64 = 0;
    loop {
        match stretch::frame_at(stretch, at) {
            Ok(Some(l)) => {
                let d = session::turn(s, stretch, events::event_of(l));
                p = listing::put_frame(out, p, l, answer_of(d.answer));
                s = d.session;
                at = l.next;
                n += 1;
            }
            Ok(None) => return listing::put_end(out, p, at, n),
            Err(f) => return listing::put_stop(out, p, f.1, f.0),
        }
    }
}

// The text of a file, at the front of an output.
fn put_replay(out: &mut [u8], file: &[u8]) -> Place
    ensures { ReplayPut file.now out.old out.new result }
{
    if 65536 < file.len() {
        return listing::put_too_long(out, Ok(0));
    }
    if sealing::sealed(file) {
        let end = file.len().saturating_sub(sealing::TRAILER);
        let p = listing::put_header(out, Ok(0));
        return put_lines(out, p, &file[..end]);
    }
    listing::put_stop(out, Ok(0), 0, Refusal::Trailer)
}

// What the program writes of a file, at the front of the room: how many bytes that is. A replay is no longer than the listing of its stretch may be.
pub fn report(out: &mut [u8; listing::ROOM], file: &[u8]) -> usize
    ensures { Replayed file.now out.old out.new result }
{
    listing::position(put_replay(out, file))
}
