// The functions of `reply_exports` as a static library, under the names that C links with. Each restates the clauses of the
// function that it calls; `tools/promises --check` compares the two.

#![tactic(auto)]

ghost use Rattle.layouts.specs.Tables.{table_r};
ghost use Rattle.framing.specs.Frames.{read_frame, refused_whole};
ghost use Rattle.exports.specs.Frames.{FrameRead, FlatWrote};

use exports::Outcome;
use flat::WIDTH_R;
use layouts::ids::Tag;

#[unsafe(no_mangle)]
pub extern "C" fn sheafsledge_read_rframe(bytes: &[u8], values: &mut [u64; WIDTH_R]) -> Outcome
    ensures { FrameRead (refused_whole (read_frame table_r bytes.now)) values.old values.new result }
{
    reply_exports::sheafsledge_read_rframe(bytes, values)
}

#[unsafe(no_mangle)]
pub extern "C" fn sheafsledge_write_rframe(
    out: &mut [u8],
    lent: &[u8],
    refusal: u8,
    ty: u8,
    tag: Tag,
    values: &[u64; WIDTH_R],
) -> Outcome
    ensures { FlatWrote table_r refusal ty tag.0 values.now lent.now out.old out.new result }
{
    reply_exports::sheafsledge_write_rframe(out, lent, refusal, ty, tag, values)
}
