// The functions of `capture_exports` as a static library, under the names that C links with. Each restates the clauses of the
// function that it calls; `tools/promises --check` compares the two.

#![tactic(auto)]

ghost use Rattle.capture_exports.specs.Captures.{ImportMade, ExportMade};

use exports::Outcome;

#[unsafe(no_mangle)]
pub extern "C" fn sheafsledge_import(
    out: &mut [u8],
    times: &mut [[u32; 2]],
    file: &[u8],
    frames: &mut [u64; 1],
) -> Outcome
    ensures { ImportMade file.now out.old times.old frames.old out.new times.new frames.new result }
{
    capture_exports::sheafsledge_import(out, times, file, frames)
}

#[unsafe(no_mangle)]
pub extern "C" fn sheafsledge_export(out: &mut [u8], stretch: &[u8], times: &[[u32; 2]]) -> Outcome
    ensures { ExportMade stretch.now times.now out.old out.new result }
{
    capture_exports::sheafsledge_export(out, stretch, times)
}
