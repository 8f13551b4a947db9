// Directory blocks for Rust: an entry at a position, and entries packed from a table of flat values. They have a crate, and an archive, of
// their own, as the frames have.

#![tactic(auto)]

ghost use Rattle.block_exports.specs.Answers.{EntryRead, PackWritten};

use exports::Outcome;

// What crosses to Rust once entries were packed: 0, how many they are and how many bytes; or the refusal of a name and its place (F2.7), and
// no entries.
#[repr(C)]
#[derive(Clone, Copy)]
pub struct Packed {
    pub refusal: u8,
    pub entries: usize,
    pub place: usize,
}

// `held` says that there is an entry, and then the place is the next position; at the end, where there is none, it is the position itself.
// Where there is no entry, the values are as they were.
pub fn sheafsledge_entry_at(block: &[u8], position: usize, values: &mut [u64; 7]) -> Outcome
    ensures { EntryRead block.now position values.old values.new result }
{
    match blocks::entry_at(block, position) {
        Ok(Some(listed)) => {
            flat::dirents::flat_dirent(listed.entry, values);
            exports::outcome_of(0, 0, true, Ok(listed.next))
        }
        Ok(None) => exports::ended(Ok(position)),
        Err(x) => exports::ended(Err(x.fault)),
    }
}

pub fn sheafsledge_pack(out: &mut [u8], count: u32, names: &[u8], entries: &[[u64; 7]]) -> Packed
    ensures { PackWritten count names.now entries.now out.old out.new result }
{
    match blocks::pack(out, count, names, entries) {
        Ok(p) => Packed {
            refusal: 0,
            entries: p.entries,
            place: p.bytes,
        },
        Err(f) => Packed {
            refusal: numbers::number(f.0),
            entries: 0,
            place: f.1,
        },
    }
}
