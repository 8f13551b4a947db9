// The trailer of a recording (F15.2): twelve bytes after its stretch that say how many bytes and frames it has, and where the last frame
// begins. No frame's body is looked at.

#![tactic(auto)]

ghost use Rattle.std.specs.Prelude.{◌≡◌};
ghost use Rattle.layouts.specs.Tables.{table_t, table_r};
ghost use Rattle.framing.specs.Stretch.{listing};
ghost use Rattle.sealing.specs.Trailers.{extent_of, tells, sealed, ExtentPut, TrailerPut};

use numbers::{Fault, Place, Refusal};

// Three numbers of four bytes.
pub const TRAILER: usize = 12;

// How much room a trailer takes.
const ROOM: usize = TRAILER;

// What four bytes can tell.
const MOST_BYTES: usize = 4_294_967_295;

// What a trailer says of a stretch.
#[derive(Clone, Copy)]
pub struct Extent {
    pub bytes: usize,
    pub frames: usize,
    pub last: usize,
}

// A stretch that reads to its end has an extent; else 12 or 13, and the position. A step is a frame's size, which the cut tells.
pub fn measure(stretch: &[u8]) -> Result<Extent, Fault>
    ensures { result ≡ extent_of (listing table_t table_r stretch.now) }
{
    let mut bytes = 0;
    let mut frames = 0;
    let mut last = 0;
    loop {
        match framing::cut_at(stretch, bytes) {
            Ok(Some(cut)) => {
                last = bytes;
                bytes = cut.next;
                frames += 1;
            }
            Ok(None) => {
                return Ok(Extent {
                    bytes,
                    frames,
                    last,
                });
            }
            Err(k) => return Err(Fault(k, bytes)),
        }
    }
}

// Whether the numbers that are told are those of the stretch.
fn tells(m: Result<Extent, Fault>, bytes: u32, frames: u32, last: u32) -> bool
    ensures { result ≡ tells bytes frames last m }
{
    let Ok(e) = m else {
        return false;
    };
    e.bytes == bytes as usize && e.frames == frames as usize && e.last == last as usize
}

// Whether a file ends in the trailer of the stretch before it; else it is 19.
#[tactic(auto, unfolding(crate::specs::Trailers::sealed))]
pub fn sealed(file: &[u8]) -> bool
    ensures { result ≡ sealed file.now }
{
    if file.len() < TRAILER {
        return false;
    }
    let end = file.len() - TRAILER;
    let bytes = numbers::read_u32(file, Ok(end));
    let frames = numbers::read_u32(file, Ok(end + 4));
    let last = numbers::read_u32(file, Ok(end + 8));
    tells(measure(&file[..end]), bytes.value, frames.value, last.value)
}

// The trailer of a stretch at the front of an output: 12, 13; 19 where its bytes cannot be told in four bytes; 11.
pub fn write_trailer(out: &mut [u8], stretch: &[u8]) -> Place
    ensures { TrailerPut stretch.now out.old out.new result }
{
    let extent = measure(stretch)?;
    put_extent(out, extent)
}

fn put_extent(out: &mut [u8], e: Extent) -> Place
    ensures { ExtentPut e out.old out.new result }
{
    if MOST_BYTES < e.bytes {
        return Err(Fault(Refusal::Trailer, 0));
    }
    if out.len() < ROOM {
        return Err(Fault(Refusal::NoRoom, 0));
    }
    let a = numbers::put_num(out, Ok(0), e.bytes as u64, 4);
    let b = numbers::put_num(out, a, e.frames as u64, 4);
    numbers::put_num(out, b, e.last as u64, 4)
}
