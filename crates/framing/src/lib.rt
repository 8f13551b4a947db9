// Where a frame begins and ends: its header read and put, and a stretch of frames cut by their sizes. No body is looked at here, and no table
// of types; the definition of a frame and of a stretch, over any tables, and what is proved of it stand in this crate's specs.

#![tactic(auto)]

ghost use Rattle.std.specs.Prelude.{◌≡◌, min, length};
ghost use Rattle.framing.specs.Writing.{HeadPut};
ghost use Rattle.framing.specs.Headers.{TypeTag, HeadIs};
ghost use Rattle.framing.specs.Cuts.{CutAt};
ghost use Rattle.framing.specs.Raising.{body_place, since};

use numbers::{Fault, Place, Refusal};

// Where a frame's body begins: after its size, its type and its tag.
pub const BODY: usize = 7;

// How much room a header takes: its size, its type and its tag.
const HEADER: usize = BODY;

// A size counts its own four bytes.
const LEAST_SIZE: u32 = 4;

// A header: how many bytes of the slice are the frame's, its type and its tag.
#[derive(Clone, Copy)]
pub struct Head {
    pub len: usize,
    pub ty: u8,
    pub tag: u16,
}

// After the size: the type and the tag, of the frame's own bytes.
fn type_and_tag(held: &[u8]) -> Result<Head, Refusal>
    ensures { TypeTag held.now result }
{
    let ty = numbers::read_u8(held, Ok(4));
    let tag = numbers::read_u16(held, ty.next);
    tag.next?;
    Ok(Head {
        len: held.len(),
        ty: ty.value,
        tag: tag.value,
    })
}

// size[4]; size 0 to 3 refused; type; tag.
pub fn read_header(s: &[u8]) -> Result<Head, Refusal>
    ensures { HeadIs s.now result }
{
    let size = numbers::read_u32(s, Ok(0));
    size.next?;
    if size.value < LEAST_SIZE {
        return Err(Refusal::SizeBelowFour);
    }
    let own = (size.value as usize).min(s.len());
    type_and_tag(&s[..own])
}

// Where the body begins of a frame that stands from `at` to the end of the bytes; 1 where they end before.
pub fn body_at(s: &[u8], at: usize) -> Place
    ensures { result ≡ body_place (length s.now) at }
{
    if !numbers::within(at, BODY, s.len()) {
        return Err(Fault(Refusal::Short, 0));
    }
    Ok(at + BODY)
}

// How many bytes of the frame at `at` are used where its fields end: they are no position. A refusal stays as it is.
pub fn used(at: usize, end: Place) -> Place
    ensures { result ≡ since at end }
{
    Ok(end?.saturating_sub(at))
}

// The header in front of a body that ends at `end`: 11 where there is no room for it, and nothing is put where the body was refused. Size
// counts itself, so it is that end.
pub fn put_header(out: &mut [u8], end: Place, ty: u8, tag: u16) -> Place
    ensures { HeadPut ty tag end out.old out.new result }
{
    let n = end?;
    if out.len() < HEADER {
        return Err(Fault(Refusal::NoRoom, 0));
    }
    let after_size = numbers::put_num(out, Ok(0), n as u64, 4);
    let after_type = numbers::put_u8(out, after_size, ty);
    let _ = numbers::put_u16(out, after_type, tag);
    Ok(n)
}

// A whole frame of a stretch: its type, its tag and the next position.
#[derive(Clone, Copy)]
pub struct Cut {
    pub ty: u8,
    pub tag: u16,
    pub next: usize,
}

// How a stretch is cut at a position: a whole frame, whose body is not looked at; none at the end; or 12, 13.
pub fn cut_at(bytes: &[u8], position: usize) -> Result<Option<Cut>, Refusal>
    ensures { CutAt bytes.now position result }
{
    if bytes.len() < position {
        return Err(Refusal::StretchCut);
    }
    if bytes.len() == position {
        return Ok(None);
    }
    let size = numbers::read_u32(bytes, Ok(position));
    let Ok(_) = size.next else {
        return Err(Refusal::StretchCut);
    };
    if size.value < 7 {
        return Err(Refusal::StretchSize);
    }
    let len = size.value as usize;
    if !numbers::within(position, len, bytes.len()) {
        return Err(Refusal::StretchCut);
    }
    let next = position + len;
    let frame = &bytes[position..next];
    let ty = numbers::read_u8(frame, Ok(4));
    let tag = numbers::read_u16(frame, Ok(5));
    Ok(Some(Cut {
        ty: ty.value,
        tag: tag.value,
        next,
    }))
}
