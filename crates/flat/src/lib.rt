// The 47 records that hold something, laid flat for another language: a record's values one after the other in an array of u64, and
// back. A number is one value, a span its start and length, a part its count, start and length. Each array of a direction has room for
// any of its records; the values that are left stay as they were. Back, a field takes the lowest bytes of its value, as Rust's `as` does.

#![tactic(auto)]

pub mod attributes;
pub mod directories;
pub mod dirents;
pub mod files;
pub mod locks;
pub mod sessions;
pub mod walking;

ghost use Rattle.flat.specs.Flat.{Skipped};

use numbers::{Fault, Place, Refusal};

// How many values hold any request, and how many any reply: `enough`, in specs/FlatLaws.antt.
pub const WIDTH_T: usize = 10;

pub const WIDTH_R: usize = 22;

// How many numbers there are of a width.
pub const U8: u64 = 256;

pub const U16: u64 = 65536;

pub const U32: u64 = 4294967296;

// The place after a body that is `n` bytes of numbers and nothing else. With this one test before its fields, the compiler drops theirs.
pub fn skip(s: &[u8], p: Place, n: usize) -> Place
    ensures { Skipped n s.now p result }
{
    let Ok(at) = p else {
        return p;
    };
    if numbers::within(at, n, s.len()) {
        return Ok(at + n);
    }
    Err(Fault(Refusal::Short, 0))
}
