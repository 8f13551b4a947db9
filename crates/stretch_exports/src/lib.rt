// The bodies of a stretch's frames, read in place, for Rust: where `exports::stretches` finds a whole frame, these say what is in it. They
// have a crate, and an archive, of their own, so that the readers of the bodies have one caller each here, too, and are not called.

#![tactic(auto)]

ghost use Rattle.layouts.specs.Tables.{table_t, table_r};
ghost use Rattle.framing.specs.Raising.{body_from};
ghost use Rattle.exports.specs.Frames.{BodyRead};

use exports::Outcome;
use flat::{WIDTH_R, WIDTH_T};

// The body of the request that stands from `at` to the end of the bytes: its values count from the first of these, the bytes used from `at`.
// Where it is refused, the values are as they were.
pub fn sheafsledge_read_tbody(
    bytes: &[u8],
    at: usize,
    ty: u8,
    values: &mut [u64; WIDTH_T],
) -> Outcome
    ensures { BodyRead (body_from table_t ty bytes.now at) values.old values.new result }
{
    let body = framing::body_at(bytes, at);
    let end = flat_requests::read_flat(bytes, ty, body, values);
    exports::ended(framing::used(at, end))
}

// The same of a reply.
pub fn sheafsledge_read_rbody(
    bytes: &[u8],
    at: usize,
    ty: u8,
    values: &mut [u64; WIDTH_R],
) -> Outcome
    ensures { BodyRead (body_from table_r ty bytes.now at) values.old values.new result }
{
    let body = framing::body_at(bytes, at);
    let end = flat_replies::read_flat(bytes, ty, body, values);
    exports::ended(framing::used(at, end))
}
