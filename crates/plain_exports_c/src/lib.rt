// The functions of `plain_exports` as a static library, under the names that C links with. Each restates the clauses of the
// function that it calls; `tools/promises --check` compares the two.

#![tactic(auto)]

ghost use Rattle.std.specs.Prelude.{◌≡◌};
ghost use Rattle.layouts.specs.Plain.{table_t, table_r};
ghost use Rattle.framing.specs.Frames.{read_frame, refused_whole};
ghost use Rattle.framing.specs.Raising.{body_from};
ghost use Rattle.pairs.specs.Pairs.{rerror, pairs};
ghost use Rattle.exports.specs.Frames.{FrameRead, FlatWrote, BodyRead};

use exports::Outcome;
use layouts::ids::Tag;
use plain_flat::{WIDTH_R, WIDTH_T};

#[unsafe(no_mangle)]
pub extern "C" fn sheafsledge_plain_read_tframe(
    bytes: &[u8],
    values: &mut [u64; WIDTH_T],
) -> Outcome
    ensures { FrameRead (read_frame table_t bytes.now) values.old values.new result }
{
    plain_exports::sheafsledge_plain_read_tframe(bytes, values)
}

#[unsafe(no_mangle)]
pub extern "C" fn sheafsledge_plain_read_rframe(
    bytes: &[u8],
    values: &mut [u64; WIDTH_R],
) -> Outcome
    ensures { FrameRead (refused_whole (read_frame table_r bytes.now)) values.old values.new result }
{
    plain_exports::sheafsledge_plain_read_rframe(bytes, values)
}

#[unsafe(no_mangle)]
pub extern "C" fn sheafsledge_plain_write_tframe(
    out: &mut [u8],
    lent: &[u8],
    refusal: u8,
    ty: u8,
    tag: Tag,
    values: &[u64; WIDTH_T],
) -> Outcome
    ensures { FlatWrote table_t refusal ty tag.0 values.now lent.now out.old out.new result }
{
    plain_exports::sheafsledge_plain_write_tframe(out, lent, refusal, ty, tag, values)
}

#[unsafe(no_mangle)]
pub extern "C" fn sheafsledge_plain_write_rframe(
    out: &mut [u8],
    lent: &[u8],
    refusal: u8,
    ty: u8,
    tag: Tag,
    values: &[u64; WIDTH_R],
) -> Outcome
    ensures { FlatWrote table_r refusal ty tag.0 values.now lent.now out.old out.new result }
{
    plain_exports::sheafsledge_plain_write_rframe(out, lent, refusal, ty, tag, values)
}

#[unsafe(no_mangle)]
pub extern "C" fn sheafsledge_plain_read_tbody(
    bytes: &[u8],
    at: usize,
    ty: u8,
    values: &mut [u64; WIDTH_T],
) -> Outcome
    ensures { BodyRead (body_from table_t ty bytes.now at) values.old values.new result }
{
    plain_exports::sheafsledge_plain_read_tbody(bytes, at, ty, values)
}

#[unsafe(no_mangle)]
pub extern "C" fn sheafsledge_plain_read_rbody(
    bytes: &[u8],
    at: usize,
    ty: u8,
    values: &mut [u64; WIDTH_R],
) -> Outcome
    ensures { BodyRead (body_from table_r ty bytes.now at) values.old values.new result }
{
    plain_exports::sheafsledge_plain_read_rbody(bytes, at, ty, values)
}

#[unsafe(no_mangle)]
pub extern "C" fn sheafsledge_plain_answers(
    request_ty: u8,
    request_tag: Tag,
    reply_ty: u8,
    reply_tag: Tag,
) -> bool
    ensures { result ≡ pairs table_t rerror request_ty request_tag.0 reply_ty reply_tag.0 }
{
    plain_exports::sheafsledge_plain_answers(request_ty, request_tag, reply_ty, reply_tag)
}
