// The reply that tells what a file is. Each file that is come to is asked for it, so it is written without a look for its arm among all replies.

ghost use Rattle.layouts.specs.Tables.{table_r};
ghost use Rattle.exports.specs.Frames.{FlatWrote};

use crate::Outcome;
use flat::WIDTH_R;
use layouts::ids::Tag;

const RGETATTR: u8 = 25;

// As `sheafsledge_write_rframe` writes it, from its record's values; they have no spans, so that the lent bytes may be none.
pub fn sheafsledge_write_rgetattr(
    out: &mut [u8],
    lent: &[u8],
    tag: Tag,
    values: &[u64; WIDTH_R],
) -> Outcome
    ensures { FlatWrote table_r 0 25 tag.0 values.now lent.now out.old out.new result }
{
    let attr = flat::attributes::rgetattr_of(*values);
    let end = metadata::attributes::write_rgetattr(out, Ok(framing::BODY), lent, attr);
    crate::ended(framing::put_header(out, end, RGETATTR, tag.0))
}
