// Capture files, for Rust (F13): one made a stretch, and a stretch made one. They have a crate, and an archive, of their own, so that no crate
// of the frames relies on them.

#![tactic(auto)]

ghost use Rattle.capture_exports.specs.Captures.{ImportMade, ExportMade};

use exports::Outcome;

// The place that is answered is that after the stretch: so many bytes it has. How many frames goes to `frames`, which a refusal leaves as it was.
pub fn sheafsledge_import(
    out: &mut [u8],
    times: &mut [[u32; 2]],
    file: &[u8],
    frames: &mut [u64; 1],
) -> Outcome
    ensures { ImportMade file.now out.old times.old frames.old out.new times.new frames.new result }
{
    match captures::import(out, times, file) {
        Ok(held) => {
            frames[0] = held.frames as u64;
            exports::ended(Ok(held.bytes))
        }
        Err(f) => exports::ended(Err(f)),
    }
}

// The place after the file.
pub fn sheafsledge_export(out: &mut [u8], stretch: &[u8], times: &[[u32; 2]]) -> Outcome
    ensures { ExportMade stretch.now times.now out.old out.new result }
{
    exports::ended(captures::export(out, stretch, times))
}
