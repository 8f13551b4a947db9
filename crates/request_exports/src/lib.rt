// The three functions of a request that Rust calls. Nothing is decided in them: what the crates below answer is taken apart and laid flat, and
// what they take is put together. They have a crate, and an archive, of their own, since they reach every request.

#![tactic(auto)]

ghost use Rattle.layouts.specs.Tables.{table_t};
ghost use Rattle.framing.specs.Frames.{read_frame};
ghost use Rattle.exports.specs.Frames.{FrameRead, FlatWrote};
ghost use Rattle.request_exports.specs.Two.{TwoWrote};

use exports::Outcome;
use flat::WIDTH_T;
use layouts::ids::Tag;
use numbers::{Fault, Refusal};

// What `frames::read_tframe` answers. A record goes flat in the arm that reads it, and through no enum; where the frame is refused, the
// values are as they were. If its body is, it still has its tag.
pub fn sheafsledge_read_tframe(bytes: &[u8], values: &mut [u64; WIDTH_T]) -> Outcome
    ensures { FrameRead (read_frame table_t bytes.now) values.old values.new result }
{
    match framing::read_header(bytes) {
        Ok(head) => {
            let own = &bytes[..head.len];
            let next = flat_requests::read_flat(own, head.ty, Ok(framing::BODY), values);
            exports::outcome_of(head.ty, head.tag, true, next)
        }
        Err(k) => exports::ended(Err(Fault(k, 0))),
    }
}

// Written from the values of its record, which are lent, not handed over: C would copy them for each call. 16 if it holds a refusal, 3 if
// its type is unknown; else as its record is written.
pub fn sheafsledge_write_tframe(
    out: &mut [u8],
    lent: &[u8],
    refusal: u8,
    ty: u8,
    tag: Tag,
    values: &[u64; WIDTH_T],
) -> Outcome
    ensures { FlatWrote table_t refusal ty tag.0 values.now lent.now out.old out.new result }
{
    if refusal != 0 {
        return exports::ended(Err(Fault(Refusal::HoldsRefusal, 0)));
    }
    let end = flat_requests::write_flat(out, Ok(framing::BODY), lent, ty, values);
    exports::ended(framing::put_header(out, end, ty, tag.0))
}

// A request of two strings that lie apart, and so are lent apart: the first is all of `first`, the second all of `second`. It is written as
// `sheafsledge_write_tframe` writes it with the second slice after the first. Of the values, those of the two spans are not looked at. 3 if
// the type is none of the four with two strings.
pub fn sheafsledge_write_two(
    out: &mut [u8],
    first: &[u8],
    second: &[u8],
    ty: u8,
    tag: Tag,
    values: &[u64; WIDTH_T],
) -> Outcome
    ensures { TwoWrote ty tag.0 values.now first.now second.now out.old out.new result }
{
    let end = apart::write_flat(out, Ok(framing::BODY), first, second, ty, values);
    exports::ended(framing::put_header(out, end, ty, tag.0))
}
