// A directory block: the data of an Rreaddir, entries one after the other. One entry at a position, and entries packed from a table.

#![tactic(auto)]

ghost use Rattle.std.specs.Prelude.{◌≡◌, ◌+◌, ◌≤◌, length};
ghost use Rattle.numbers.specs.Places.{over};
ghost use Rattle.strings.specs.Spans.{StrCheck};
ghost use Rattle.laying.specs.Laying.{PutAll};
ghost use Rattle.layouts.specs.Tables.{layout_dirent};
ghost use Rattle.layouts.specs.Records.{dirent};
ghost use Rattle.blocks.specs.Views.{Asked, Fitting, PackedInto, row_bytes};
ghost use Rattle.blocks.specs.PackLaws.{Room, Ready, first_bytes};

use layouts::dirents;
use layouts::dirents::Dirent;
use numbers::{Fault, Place};
use strings::Span;

// What an entry has beside its name: a qid, an offset, a type and the name's count.
const NAMELESS: usize = 24;

// An entry as it is listed: where it begins, what it is, and where the next one begins. Its name is a span of the block.
#[derive(Clone, Copy)]
pub struct Listed {
    pub at: usize,
    pub entry: Dirent,
    pub next: usize,
}

// Why no entry is read, where its text breaks (F2.7), and the position that was asked.
#[derive(Clone, Copy, Debug, PartialEq, Eq)]
pub struct NoEntry {
    pub fault: Fault,
    pub position: usize,
}

// What is at a position: an entry and the next position; none at the end, where exactly nothing is left; or 1, 5, 6, with the position.
pub fn entry_at(block: &[u8], position: usize) -> Result<Option<Listed>, NoEntry>
    ensures { Asked block.now position result }
{
    if position == block.len() {
        return Ok(None);
    }
    let read = dirents::read_dirent(block, Ok(position));
    match read.next {
        Ok(next) => Ok(Some(Listed {
            at: position,
            entry: read.value,
            next,
        })),
        Err(fault) => Err(NoEntry { fault, position }),
    }
}

// How many entries are packed, and how many bytes they are.
#[derive(Clone, Copy)]
pub struct Packed {
    pub entries: usize,
    pub bytes: usize,
}

// The check of an entry's name: 9, 7, 5, 6. Short cut: a short plain name passes all four.
fn check_name(names: &[u8], name: Span) -> Place
    ensures { StrCheck names.now name.start name.len (Ok 0) result }
{
    if numbers::within(name.start, name.len, names.len()) {
        let end = name.start + name.len;
        if utf8::short_plain(&names[name.start..end]) {
            return Ok(0);
        }
    }
    strings::check_str(names, name, Ok(0))
}

// How many entries from the front fit so much room; or the refusal of a name, with its place. No output is touched here. Room and bytes are
// compared by their difference, so that no sum wraps.
fn fitting(names: &[u8], entries: &[[u64; 7]], room: usize) -> Result<Packed, Fault>
    ensures { Fitting names.now room entries.now result }
{
    let mut fit = Packed {
        entries: 0,
        bytes: 0,
    };
    for row in entries {
        let name = Span {
            start: row[5] as usize,
            len: row[6] as usize,
        };
        check_name(names, name)?;
        let size = name.len + NAMELESS;
        if room - fit.bytes < size {
            return Ok(fit);
        }
        fit.entries += 1;
        fit.bytes += size;
    }
    Ok(fit)
}

// The fields of an entry put at a place, nothing of it checked: `fitting` has done that.
fn put_dirent(out: &mut [u8], p: Place, names: &[u8], d: Dirent) -> Place
    ensures { PutAll layout_dirent names.now (dirent d) out.old p out.new result }
{
    let q1 = numbers::put_u8(out, p, d.qid.ty);
    let q2 = numbers::put_u32(out, q1, d.qid.version);
    let q3 = numbers::put_u64(out, q2, d.qid.path);
    let q4 = numbers::put_u64(out, q3, d.offset);
    let q5 = numbers::put_u8(out, q4, d.ty);
    let q6 = numbers::put_num(out, q5, d.name.len as u64, 2);
    strings::put_bytes(out, q6, names, d.name)
}

// An entry whose name passes, put where there is room for it. With this one test before its fields, the compiler drops theirs.
fn put_entry(out: &mut [u8], at: usize, names: &[u8], row: [u64; 7])
    requires { Room names.now row at (length out.old) }
    ensures { out.new ≡ over out.old at (row_bytes names.now row) }
{
    if numbers::within(at, NAMELESS, out.len()) {
        let _ = put_dirent(out, Ok(at), names, flat::dirents::dirent_of(row));
    }
}

// The first `count` entries, which fit.
fn put_entries(out: &mut [u8], names: &[u8], entries: &[[u64; 7]], count: usize)
    requires { Ready names.now entries.now count (length out.old) }
    ensures { out.new ≡ over out.old 0 (first_bytes names.now entries.now count) }
{
    let mut at = 0;
    for row in &entries[..count] {
        put_entry(&mut *out, at, names, *row);
        at = at + NAMELESS + row[6] as usize;
    }
}

// The greatest number of whole entries from the front of the table that fit both the count and the output. A row is an entry's flat values
// (`flat::dirents`), its name a span of the names. The name is checked before the fit, that of the first that does not fit, too; none after
// it is looked at. A refusal leaves the output as it was, and nothing after the packed bytes is touched.
pub fn pack(out: &mut [u8], count: u32, names: &[u8], entries: &[[u64; 7]]) -> Result<Packed, Fault>
    ensures { PackedInto count names.now entries.now out.old out.new result }
{
    let room = (count as usize).min(out.len());
    let fit = fitting(names, entries, room)?;
    put_entries(out, names, entries, fit.entries);
    Ok(fit)
}
