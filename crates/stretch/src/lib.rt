// A stretch: frames back to back, and one frame at a position.

#![tactic(auto)]

ghost use Rattle.std.specs.Prelude.{◌≡◌, ◌-◌};
ghost use Rattle.stretch.specs.Views.{BodyOf, Leaves, view_body, ListedAs, Asked};

use layouts::ids::Tag;
use numbers::Fault;
use replies::Rbody;
use requests::Tbody;

// A frame's body as it was read: that of a request if the type is even, else that of a reply.
#[derive(Clone, Copy)]
pub enum Body {
    Request(Tbody),
    Reply(Rbody),
}

// A frame as it is listed. Spans and places count from the first byte of the stretch; bytes used, size and tail are no positions. The tail is 0
// where the body is refused.
#[derive(Clone, Copy)]
pub struct Listed {
    pub at: usize,
    pub size: usize,
    pub ty: u8,
    pub tag: Tag,
    pub body: Body,
    pub tail: usize,
    pub next: usize,
}

// Of a frame that stands from `at` to the end of the bytes.
fn read_body(s: &[u8], ty: u8, at: usize) -> Body
    ensures { BodyOf s.now ty at result }
{
    if ty % 2 == 0 {
        Body::Request(frames::request_at(s, ty, at))
    } else {
        Body::Reply(frames::reply_at(s, ty, at))
    }
}

// Where the fields of an accepted frame end; its end where the body is refused, so that there is no tail.
fn used_of(size: usize, body: Body) -> usize
    ensures { Leaves size (view_body body) result }
{
    match body {
        Body::Request(b) => match b {
            Ok((_, used)) => used,
            Err(_) => size,
        },
        Body::Reply(b) => match b {
            Ok((_, used)) => used,
            Err(_) => size,
        },
    }
}

// A frame that stands from `at` to the end of the bytes: what the reader of its direction says of its body.
fn whole_frame(s: &[u8], ty: u8, tag: u16, at: usize) -> Listed
    ensures { ListedAs s.now ty tag at result }
{
    let body = read_body(s, ty, at);
    let next = s.len();
    let size = next.saturating_sub(at);
    let tail = size.saturating_sub(used_of(size, body));
    let tag = Tag(tag);
    Listed {
        at,
        size,
        ty,
        tag,
        body,
        tail,
        next,
    }
}

// One frame and the next position; none at the end, where exactly nothing is left; or 12, 13 with the position.
pub fn frame_at(bytes: &[u8], position: usize) -> Result<Option<Listed>, Fault>
    ensures { Asked bytes.now position result }
{
    match framing::cut_at(bytes, position) {
        Ok(Some(c)) => Ok(Some(whole_frame(&bytes[..c.next], c.ty, c.tag, position))),
        Ok(None) => Ok(None),
        Err(k) => Err(Fault(k, position)),
    }
}
