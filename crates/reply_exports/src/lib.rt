// The two functions of a reply that Rust calls. Nothing is decided in them: what the crates below answer is taken apart and laid flat, and
// what they take is put together. They have a crate, and an archive, of their own, since they reach every reply.

#![tactic(auto)]

ghost use Rattle.layouts.specs.Tables.{table_r};
ghost use Rattle.framing.specs.Frames.{read_frame, refused_whole};
ghost use Rattle.exports.specs.Frames.{FrameRead, FlatWrote};

use exports::Outcome;
use flat::WIDTH_R;
use layouts::ids::Tag;
use numbers::{Fault, Refusal};

// What `frames::read_rframe` answers, as `request_exports` has it for requests; but a reply whose body is refused is refused whole, and has no
// tag.
pub fn sheafsledge_read_rframe(bytes: &[u8], values: &mut [u64; WIDTH_R]) -> Outcome
    ensures { FrameRead (refused_whole (read_frame table_r bytes.now)) values.old values.new result }
{
    match framing::read_header(bytes) {
        Ok(head) => {
            let own = &bytes[..head.len];
            match flat_replies::read_flat(own, head.ty, Ok(framing::BODY), values) {
                Ok(end) => exports::outcome_of(head.ty, head.tag, true, Ok(end)),
                Err(f) => exports::ended(Err(f)),
            }
        }
        Err(k) => exports::ended(Err(Fault(k, 0))),
    }
}

// Written from the values of its record, in the same way as a request.
pub fn sheafsledge_write_rframe(
    out: &mut [u8],
    lent: &[u8],
    refusal: u8,
    ty: u8,
    tag: Tag,
    values: &[u64; WIDTH_R],
) -> Outcome
    ensures { FlatWrote table_r refusal ty tag.0 values.now lent.now out.old out.new result }
{
    if refusal != 0 {
        return exports::ended(Err(Fault(Refusal::HoldsRefusal, 0)));
    }
    let end = flat_replies::write_flat(out, Ok(framing::BODY), lent, ty, values);
    exports::ended(framing::put_header(out, end, ty, tag.0))
}
