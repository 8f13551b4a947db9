// The functions of `planning_exports` as a static library, under the names that C links with. Each restates the clauses of the
// function that it calls; `tools/promises --check` compares the two.

#![tactic(auto)]

ghost use Rattle.std.specs.Prelude.{◌≡◌};
ghost use Rattle.planning.specs.Plans.{accepted};
ghost use Rattle.planning_exports.specs.Plans.{PlanMade};

use exports::Outcome;

#[unsafe(no_mangle)]
pub extern "C" fn sheafsledge_plan(
    table: &mut [[u64; 2]],
    first: u64,
    len: u64,
    msize: u32,
) -> Outcome
    ensures { PlanMade table.old first len msize table.new result }
{
    planning_exports::sheafsledge_plan(table, first, len, msize)
}

#[unsafe(no_mangle)]
pub extern "C" fn sheafsledge_accepts(pieces: &[[u64; 2]], first: u64, len: u64, msize: u32) -> bool
    ensures { result ≡ accepted pieces.now first len msize }
{
    planning_exports::sheafsledge_accepts(pieces, first, len, msize)
}
