// The functions that Rust calls, but for those of a frame, which stand in `request_exports`, `reply_exports` and `stretch_exports`. Nothing is decided in
// them: what the crates below answer is taken apart and laid flat, and what they take is put together.

#![tactic(auto)]

pub mod attributes;
pub mod dirents;
pub mod stretches;
pub mod texts;
pub mod walks;

ghost use Rattle.std.specs.Prelude.{◌≡◌};
ghost use Rattle.exports.specs.Answers.{outcome_of, ended};

use numbers::Place;

// What crosses to Rust for all that is read or written: 0 and the place after it; or the refusal, and where a text breaks, else 0 (F2.7). A
// frame also has a tag, and a type where it was accepted or stands at a position; `held` says that there is one. Values go into room that the
// caller lends.
#[repr(C)]
#[derive(Clone, Copy)]
pub struct Outcome {
    pub refusal: u8,
    pub ty: u8,
    pub tag: u16,
    pub held: bool,
    pub place: usize,
}

pub fn outcome_of(ty: u8, tag: u16, held: bool, p: Place) -> Outcome
    ensures { result ≡ outcome_of ty tag held p }
{
    match p {
        Ok(place) => Outcome {
            refusal: 0,
            ty,
            tag,
            held,
            place,
        },
        Err(f) => Outcome {
            refusal: numbers::number(f.0),
            ty: 0,
            tag,
            held,
            place: f.1,
        },
    }
}

// Where there is no frame to tell of.
pub fn ended(p: Place) -> Outcome
    ensures { result ≡ ended p }
{
    outcome_of(0, 0, false, p)
}

// The number of the boundary between this library and Rust. The name holds it, so that Rust does not link with a library of another
// boundary. It rises whenever a function or a struct that crosses changes.
pub fn sheafsledge_boundary_4() -> u32
    ensures { result ≡ 4 }
{
    4
}
