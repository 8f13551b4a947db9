// Plans of large writes, for Rust (F12): a plan made in a lent table, and whether one is accepted. They have a crate, and an archive, of
// their own, so that no crate of the frames relies on them.

#![tactic(auto)]

ghost use Rattle.std.specs.Prelude.{◌≡◌};
ghost use Rattle.planning.specs.Plans.{accepted};
ghost use Rattle.planning_exports.specs.Plans.{PlanMade};

use exports::Outcome;

// The place that is answered is the row after the plan's last: so many pieces it has.
pub fn sheafsledge_plan(table: &mut [[u64; 2]], first: u64, len: u64, msize: u32) -> Outcome
    ensures { PlanMade table.old first len msize table.new result }
{
    exports::ended(planning::plan(table, first, len, msize))
}

pub fn sheafsledge_accepts(pieces: &[[u64; 2]], first: u64, len: u64, msize: u32) -> bool
    ensures { result ≡ accepted pieces.now first len msize }
{
    planning::accepts(pieces, first, len, msize)
}
