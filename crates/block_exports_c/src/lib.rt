// The functions of `block_exports` as a static library, under the names that C links with. Each restates the clauses of the
// function that it calls; `tools/promises --check` compares the two.

#![tactic(auto)]

ghost use Rattle.block_exports.specs.Answers.{EntryRead, PackWritten};

use block_exports::Packed;
use exports::Outcome;

#[unsafe(no_mangle)]
pub extern "C" fn sheafsledge_entry_at(
    block: &[u8],
    position: usize,
    values: &mut [u64; 7],
) -> Outcome
    ensures { EntryRead block.now position values.old values.new result }
{
    block_exports::sheafsledge_entry_at(block, position, values)
}

#[unsafe(no_mangle)]
pub extern "C" fn sheafsledge_pack(
    out: &mut [u8],
    count: u32,
    names: &[u8],
    entries: &[[u64; 7]],
) -> Packed
    ensures { PackWritten count names.now entries.now out.old out.new result }
{
    block_exports::sheafsledge_pack(out, count, names, entries)
}
