// Directory entries, as flat values in the layout's order: the qid's type, version and path, the offset, the type, and the name's span. One
// is read at a position of the caller's bytes, and one is written from such values.

ghost use Rattle.layouts.specs.Tables.{layout_dirent};
ghost use Rattle.exports.specs.Answers.{FieldsRead, FieldsWritten};

use crate::Outcome;
use layouts::dirents;

// Refused, the values are as they were.
pub fn sheafsledge_read_dirent(bytes: &[u8], at: usize, values: &mut [u64; 7]) -> Outcome
    ensures { FieldsRead layout_dirent bytes.now (Ok at) values.old values.new result }
{
    let r = dirents::read_dirent(bytes, Ok(at));
    if r.next.is_ok() {
        flat::dirents::flat_dirent(r.value, values);
    }
    crate::ended(r.next)
}

// The place that is answered is the one after the entry.
pub fn sheafsledge_write_dirent(
    out: &mut [u8],
    at: usize,
    lent: &[u8],
    values: &[u64; 7],
) -> Outcome
    ensures { FieldsWritten layout_dirent lent.now values.now out.old (Ok at) out.new result }
{
    let d = flat::dirents::dirent_of(*values);
    crate::ended(dirents::write_dirent(out, Ok(at), lent, d))
}
