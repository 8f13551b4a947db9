// The functions of 9P2000.u's frames that Rust calls, as `plain_exports` has them for 9P2000. Nothing is decided in them.

#![tactic(auto)]

ghost use Rattle.std.specs.Prelude.{◌≡◌};
ghost use Rattle.stats.specs.Unix.{table_t, table_r};
ghost use Rattle.framing.specs.Frames.{read_frame, refused_whole};
ghost use Rattle.framing.specs.Raising.{body_from};
ghost use Rattle.pairs.specs.Pairs.{rerror, pairs};
ghost use Rattle.exports.specs.Frames.{FrameRead, BodyRead, FlatWrote};

use exports::Outcome;
use layouts::ids::Tag;
use numbers::{Fault, Refusal};
use pairs::Mark;
use plain_flat::{WIDTH_R, WIDTH_T};

// What `unix_frames::read_tframe` answers.
pub fn sheafsledge_unix_read_tframe(bytes: &[u8], values: &mut [u64; WIDTH_T]) -> Outcome
    ensures { FrameRead (read_frame table_t bytes.now) values.old values.new result }
{
    match framing::read_header(bytes) {
        Ok(head) => {
            let own = &bytes[..head.len];
            let next = unix_flat_requests::read_flat(own, head.ty, Ok(framing::BODY), values);
            exports::outcome_of(head.ty, head.tag, true, next)
        }
        Err(k) => exports::ended(Err(Fault(k, 0))),
    }
}

// What `unix_frames::read_rframe` answers.
pub fn sheafsledge_unix_read_rframe(bytes: &[u8], values: &mut [u64; WIDTH_R]) -> Outcome
    ensures { FrameRead (refused_whole (read_frame table_r bytes.now)) values.old values.new result }
{
    match framing::read_header(bytes) {
        Ok(head) => {
            let own = &bytes[..head.len];
            match unix_flat_replies::read_flat(own, head.ty, Ok(framing::BODY), values) {
                Ok(end) => exports::outcome_of(head.ty, head.tag, true, Ok(end)),
                Err(f) => exports::ended(Err(f)),
            }
        }
        Err(k) => exports::ended(Err(Fault(k, 0))),
    }
}

// Written from the values of its record: 16 if it holds a refusal, 3 if its type is unknown; else as its record is written.
pub fn sheafsledge_unix_write_tframe(
    out: &mut [u8],
    lent: &[u8],
    refusal: u8,
    ty: u8,
    tag: Tag,
    values: &[u64; WIDTH_T],
) -> Outcome
    ensures { FlatWrote table_t refusal ty tag.0 values.now lent.now out.old out.new result }
{
    if refusal != 0 {
        return exports::ended(Err(Fault(Refusal::HoldsRefusal, 0)));
    }
    let end = unix_flat_requests::write_flat(out, Ok(framing::BODY), lent, ty, values);
    exports::ended(framing::put_header(out, end, ty, tag.0))
}

// The same of a reply.
pub fn sheafsledge_unix_write_rframe(
    out: &mut [u8],
    lent: &[u8],
    refusal: u8,
    ty: u8,
    tag: Tag,
    values: &[u64; WIDTH_R],
) -> Outcome
    ensures { FlatWrote table_r refusal ty tag.0 values.now lent.now out.old out.new result }
{
    if refusal != 0 {
        return exports::ended(Err(Fault(Refusal::HoldsRefusal, 0)));
    }
    let end = unix_flat_replies::write_flat(out, Ok(framing::BODY), lent, ty, values);
    exports::ended(framing::put_header(out, end, ty, tag.0))
}

// The body of the request that stands from `at` to the end of the bytes, in a stretch: its values count from the first of these, the bytes
// used from `at`.
pub fn sheafsledge_unix_read_tbody(
    bytes: &[u8],
    at: usize,
    ty: u8,
    values: &mut [u64; WIDTH_T],
) -> Outcome
    ensures { BodyRead (body_from table_t ty bytes.now at) values.old values.new result }
{
    let body = framing::body_at(bytes, at);
    let end = unix_flat_requests::read_flat(bytes, ty, body, values);
    exports::ended(framing::used(at, end))
}

// The same of a reply.
pub fn sheafsledge_unix_read_rbody(
    bytes: &[u8],
    at: usize,
    ty: u8,
    values: &mut [u64; WIDTH_R],
) -> Outcome
    ensures { BodyRead (body_from table_r ty bytes.now at) values.old values.new result }
{
    let body = framing::body_at(bytes, at);
    let end = unix_flat_replies::read_flat(bytes, ty, body, values);
    exports::ended(framing::used(at, end))
}

// The types that 9P2000.u knows are 9P2000's, and so are its pairs.
pub fn sheafsledge_unix_answers(
    request_ty: u8,
    request_tag: Tag,
    reply_ty: u8,
    reply_tag: Tag,
) -> bool
    ensures { result ≡ pairs table_t rerror request_ty request_tag.0 reply_ty reply_tag.0 }
{
    let request = Mark {
        ty: request_ty,
        tag: request_tag,
    };
    let reply = Mark {
        ty: reply_ty,
        tag: reply_tag,
    };
    pairs::plain::answers(request, reply)
}
