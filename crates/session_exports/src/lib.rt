// A guest's session and the trailer of its recording, for Rust (F15). They have a crate, and an archive, of their own, so that no crate of the
// frames relies on them. The session crosses whole: Rust keeps the record and hands it over with each frame.

#![tactic(auto)]

ghost use Rattle.std.specs.Prelude.{◌≡◌};
ghost use Rattle.layouts.specs.Tables.{table_t, table_r};
ghost use Rattle.framing.specs.Stretch.{frame_at};
ghost use Rattle.stretch.specs.Views.{view_body};
ghost use Rattle.sealing.specs.Trailers.{sealed};
ghost use Rattle.session.specs.Rules.{fresh};
ghost use Rattle.session_exports.specs.Follows.{told_of, passed, followed_by, followed_at, PathMade, TrailerMade};

use exports::Outcome;
use numbers::Refusal;
use session::{NONE, Session};
use stretch::Listed;

// What crosses of a frame that a session has followed: an `Outcome`, the tail, and the fid that the frame is about, 4,294,967,297 if there is
// none. Refused, a frame has no tail and is about no fid.
#[repr(C)]
#[derive(Clone, Copy)]
pub struct Told {
    pub refusal: u8,
    pub ty: u8,
    pub tag: u16,
    pub held: bool,
    pub place: usize,
    pub tail: usize,
    pub fid: u64,
}

// The session after it.
#[repr(C)]
#[derive(Clone, Copy)]
pub struct Followed {
    pub session: Session,
    pub told: Told,
}

pub fn sheafsledge_session() -> Session
    ensures { result ≡ fresh }
{
    session::fresh()
}

// Of a frame, by the session's answer.
fn told_of(ty: u8, tag: u16, next: usize, tail: usize, fid: u64, a: Result<(), Refusal>) -> Told
    ensures { result ≡ told_of ty tag next tail fid a }
{
    match a {
        Ok(()) => Told {
            refusal: 0,
            ty,
            tag,
            held: true,
            place: next,
            tail,
            fid,
        },
        Err(k) => Told {
            refusal: numbers::number(k),
            ty,
            tag,
            held: true,
            place: next,
            tail: 0,
            fid: NONE,
        },
    }
}

// Where there is no frame: the end, or why the stretch cannot be read on.
fn passed(refusal: u8, position: usize) -> Told
    ensures { result ≡ passed refusal position }
{
    Told {
        refusal,
        ty: 0,
        tag: 0,
        held: false,
        place: position,
        tail: 0,
        fid: NONE,
    }
}

#[tactic(auto, unfolding(crate::specs::Follows::followed_by))]
fn follow(s: Session, stretch: &[u8], l: Listed) -> Followed
    ensures { result ≡ followed_by stretch.now s l.ty l.tag.0 (view_body l.body) l.tail l.next }
{
    let e = events::event_of(l);
    let fid = session::fid_of(s, e);
    let d = session::step(s, stretch, e);
    Followed {
        session: d.session,
        told: told_of(l.ty, l.tag.0, l.next, l.tail, fid, d.answer),
    }
}

// The frame at a position of the stretch, followed.
pub fn sheafsledge_follow(s: Session, stretch: &[u8], position: usize) -> Followed
    ensures { result ≡ followed_at stretch.now s (frame_at table_t table_r stretch.now position) }
{
    match stretch::frame_at(stretch, position) {
        Ok(Some(l)) => follow(s, stretch, l),
        Ok(None) => Followed {
            session: s,
            told: passed(0, position),
        },
        Err(f) => Followed {
            session: s,
            told: passed(numbers::number(f.0), f.1),
        },
    }
}

// The place that is answered is that after the path: so many bytes it has.
pub fn sheafsledge_path(out: &mut [u8], s: Session, fid: u32, stretch: &[u8]) -> Outcome
    ensures { PathMade stretch.now s fid out.old out.new result }
{
    exports::ended(session::write_path(out, s, fid, stretch))
}

pub fn sheafsledge_sealed(file: &[u8]) -> bool
    ensures { result ≡ sealed file.now }
{
    sealing::sealed(file)
}

pub fn sheafsledge_trailer(out: &mut [u8], stretch: &[u8]) -> Outcome
    ensures { TrailerMade stretch.now out.old out.new result }
{
    exports::ended(sealing::write_trailer(out, stretch))
}
