// The functions of `stretch_exports` as a static library, under the names that C links with. Each restates the clauses of the
// function that it calls; `tools/promises --check` compares the two.

#![tactic(auto)]

ghost use Rattle.layouts.specs.Tables.{table_t, table_r};
ghost use Rattle.framing.specs.Raising.{body_from};
ghost use Rattle.exports.specs.Frames.{BodyRead};

use exports::Outcome;
use flat::{WIDTH_R, WIDTH_T};

#[unsafe(no_mangle)]
pub extern "C" fn sheafsledge_read_tbody(
    bytes: &[u8],
    at: usize,
    ty: u8,
    values: &mut [u64; WIDTH_T],
) -> Outcome
    ensures { BodyRead (body_from table_t ty bytes.now at) values.old values.new result }
{
    stretch_exports::sheafsledge_read_tbody(bytes, at, ty, values)
}

#[unsafe(no_mangle)]
pub extern "C" fn sheafsledge_read_rbody(
    bytes: &[u8],
    at: usize,
    ty: u8,
    values: &mut [u64; WIDTH_R],
) -> Outcome
    ensures { BodyRead (body_from table_r ty bytes.now at) values.old values.new result }
{
    stretch_exports::sheafsledge_read_rbody(bytes, at, ty, values)
}
