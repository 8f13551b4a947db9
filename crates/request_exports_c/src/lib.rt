// The functions of `request_exports` as a static library, under the names that C links with. Each restates the clauses of the
// function that it calls; `tools/promises --check` compares the two.

#![tactic(auto)]

ghost use Rattle.layouts.specs.Tables.{table_t};
ghost use Rattle.framing.specs.Frames.{read_frame};
ghost use Rattle.exports.specs.Frames.{FrameRead, FlatWrote};
ghost use Rattle.request_exports.specs.Two.{TwoWrote};

use exports::Outcome;
use flat::WIDTH_T;
use layouts::ids::Tag;

#[unsafe(no_mangle)]
pub extern "C" fn sheafsledge_read_tframe(bytes: &[u8], values: &mut [u64; WIDTH_T]) -> Outcome
    ensures { FrameRead (read_frame table_t bytes.now) values.old values.new result }
{
    request_exports::sheafsledge_read_tframe(bytes, values)
}

#[unsafe(no_mangle)]
pub extern "C" fn sheafsledge_write_tframe(
    out: &mut [u8],
    lent: &[u8],
    refusal: u8,
    ty: u8,
    tag: Tag,
    values: &[u64; WIDTH_T],
) -> Outcome
    ensures { FlatWrote table_t refusal ty tag.0 values.now lent.now out.old out.new result }
{
    request_exports::sheafsledge_write_tframe(out, lent, refusal, ty, tag, values)
}

#[unsafe(no_mangle)]
pub extern "C" fn sheafsledge_write_two(
    out: &mut [u8],
    first: &[u8],
    second: &[u8],
    ty: u8,
    tag: Tag,
    values: &[u64; WIDTH_T],
) -> Outcome
    ensures { TwoWrote ty tag.0 values.now first.now second.now out.old out.new result }
{
    request_exports::sheafsledge_write_two(out, first, second, ty, tag, values)
}
