// One frame, in both directions, read and written.

#![tactic(auto)]

ghost use Rattle.std.specs.Prelude.{◌≡◌};
ghost use Rattle.layouts.specs.Tables.{table_t, table_r};
ghost use Rattle.replies.specs.Views.{type_r, layout_r, values_r, view_r};
ghost use Rattle.framing.specs.Writing.{FrameWritten};
ghost use Rattle.framing.specs.Frames.{read_frame, refused_whole};
ghost use Rattle.framing.specs.Raising.{body_from, read_frame_at};
ghost use Rattle.requests.specs.Views.{view_t};
ghost use Rattle.frames.specs.Views.{view_tframe, view_rframe, TframeWritten};

use layouts::ids::Tag;
use numbers::{Fault, Place, Refusal};
use replies::{Rbody, Rmessage};
use requests::Tbody;

// The frame's position in the bytes that it was read from, and its tag beside either a message, with the bytes used, or a refusal. Spans, parts
// and places count from the first of those bytes, the bytes used from the frame's.
#[derive(Clone, Copy)]
pub struct Tframe {
    pub at: usize,
    pub tag: Tag,
    pub msg: Tbody,
}

#[derive(Clone, Copy)]
pub struct Rframe {
    pub at: usize,
    pub tag: Tag,
    pub msg: Rmessage,
}

// The body of the request that stands from `at` to the end of the bytes.
pub fn request_at(s: &[u8], ty: u8, at: usize) -> Tbody
    ensures { view_t result ≡ body_from table_t ty s.now at }
{
    let (m, end) = requests::read_tmessage(s, ty, framing::body_at(s, at))?;
    Ok((m, end.saturating_sub(at)))
}

// The body of the reply that stands there.
pub fn reply_at(s: &[u8], ty: u8, at: usize) -> Rbody
    ensures { view_r result ≡ body_from table_r ty s.now at }
{
    let (m, end) = replies::read_rmessage(s, ty, framing::body_at(s, at))?;
    Ok((m, end.saturating_sub(at)))
}

// A request that stands at a position: its tag beside its message or its refusal; or, where the header can't be read, that refusal and nothing
// else.
pub fn read_tframe_at(s: &[u8], position: usize) -> Result<Tframe, Refusal>
    ensures { view_tframe result ≡ read_frame_at table_t s.now position }
{
    let at = position.min(s.len());
    let read = framing::read_header(&s[at..]);
    let Ok(head) = read else {
        return Err(read.unwrap_err());
    };
    Ok(Tframe {
        at,
        tag: Tag(head.tag),
        msg: request_at(&s[..at + head.len], head.ty, at),
    })
}

// A single request stands at 0.
pub fn read_tframe(s: &[u8]) -> Result<Tframe, Refusal>
    ensures { view_tframe result ≡ read_frame table_t s.now }
{
    read_tframe_at(s, 0)
}

// A reply that stands at a position: its tag and message, with the bytes used; or the refusal of its header, or of its body with its place:
// in this direction a failed body refuses the frame.
pub fn read_rframe_at(s: &[u8], position: usize) -> Result<(Rframe, usize), Fault>
    ensures { view_rframe result ≡ refused_whole (read_frame_at table_r s.now position) }
{
    let at = position.min(s.len());
    let read = framing::read_header(&s[at..]);
    let Ok(head) = read else {
        return Err(Fault(read.unwrap_err(), 0));
    };
    let (msg, used) = reply_at(&s[..at + head.len], head.ty, at)?;
    let tag = Tag(head.tag);
    Ok((Rframe { at, tag, msg }, used))
}

pub fn read_rframe(s: &[u8]) -> Result<(Rframe, usize), Fault>
    ensures { view_rframe result ≡ refused_whole (read_frame table_r s.now) }
{
    read_rframe_at(s, 0)
}

// A request written at the front of the output: 16; then its fields in order; then 10; then 11. The answer is its length. Its spans show the
// bytes that it was read from, where these are lent, a stretch or a frame alone; its position is not looked at.
pub fn write_tframe(out: &mut [u8], lent: &[u8], f: Tframe) -> Place
    ensures { TframeWritten lent.now f out.old out.new result }
{
    let Ok((m, _)) = f.msg else {
        return Err(Fault(Refusal::HoldsRefusal, 0));
    };
    let end = requests::write_tmessage(out, Ok(framing::BODY), lent, m);
    framing::put_header(out, end, requests::type_of(m), f.tag.0)
}

// A reply written at the front of the output: its fields in order; then 10; then 11. The answer is its length.
pub fn write_rframe(out: &mut [u8], lent: &[u8], f: Rframe) -> Place
    ensures { FrameWritten (layout_r f.msg) (type_r f.msg) f.tag.0 lent.now (values_r f.msg) out.old out.new result }
{
    let end = replies::write_rmessage(out, Ok(framing::BODY), lent, f.msg);
    framing::put_header(out, end, replies::type_of(f.msg), f.tag.0)
}
