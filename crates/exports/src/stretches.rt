// The frames of a stretch: one at a position, and which reply answers which request.

ghost use Rattle.std.specs.Prelude.{◌≡◌};
ghost use Rattle.layouts.specs.Tables.{table_t, table_r};
ghost use Rattle.framing.specs.Stretch.{frame_at};
ghost use Rattle.pairs.specs.Pairs.{rlerror, pairs};
ghost use Rattle.exports.specs.Steps.{step_outcome};

use crate::Outcome;
use layouts::ids::Tag;
use numbers::Fault;
use pairs::Mark;

// The frame is the bytes from the position to the place; at the end, where there is none, the place is the position. What is in it, the
// reader of its direction in `stretch_exports` says, lent the bytes up to that place (`listed_there`).
#[tactic(auto, using(crate::specs::Steps::step_there), unfolding(framing::specs::Cuts::CutAt))]
pub fn sheafsledge_frame_at(bytes: &[u8], position: usize) -> Outcome
    ensures { result ≡ step_outcome (frame_at table_t table_r bytes.now position) }
{
    match framing::cut_at(bytes, position) {
        Ok(Some(cut)) => crate::outcome_of(cut.ty, cut.tag, true, Ok(cut.next)),
        Ok(None) => crate::ended(Ok(position)),
        Err(k) => crate::ended(Err(Fault(k, position))),
    }
}

pub fn sheafsledge_answers(request_ty: u8, request_tag: Tag, reply_ty: u8, reply_tag: Tag) -> bool
    ensures { result ≡ pairs table_t rlerror request_ty request_tag.0 reply_ty reply_tag.0 }
{
    let request = Mark {
        ty: request_ty,
        tag: request_tag,
    };
    let reply = Mark {
        ty: reply_ty,
        tag: reply_tag,
    };
    pairs::answers(request, reply)
}
