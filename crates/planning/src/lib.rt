// A large write cut into Twrites (F12): a plan for a lent table, and whether a plan is accepted. A row of a table is a piece, its offset and
// its length. No end is formed that could wrap: what is left is compared, and each piece is taken off it.

#![tactic(auto)]

ghost use Rattle.std.specs.Prelude.{◌≡◌, ◌+◌, ◌<◌, ◌≤◌, length};
ghost use Rattle.planning.specs.Plans.{most_data, greatest, agreed, accepted, fewest, cut, Planned};
ghost use Rattle.planning.specs.PlanLaws.{Follows};

use numbers::{Fault, Place, Refusal};

// What a Twrite has before its data: size, type, tag, fid, offset and count (F3.2).
const HEAD: u32 = 23;

// The most data of a frame (F4.10, F12.1).
const DATA: u64 = 33_554_432;

// The most data of a piece.
fn most_data(msize: u32) -> u64
    requires { 24 ≤ msize }
    ensures { result ≡ most_data msize }
{
    u64::from(msize - HEAD).min(DATA)
}

// What is refused whatever the table holds: 26, then 27. The three stay apart, as both callers are given them and the definitions say them.
#[tactic(auto, unfolding(crate::specs::Plans::agreed), using(std::proofs::lemmas::Bool::Decides::nat_tests))]
fn agree(first: u64, len: u64, msize: u32) -> Place
    ensures { result ≡ agreed first len msize }
{
    if msize <= HEAD {
        return Err(Fault(Refusal::MsizeTooSmall, 0));
    }
    if u64::MAX - first < len {
        return Err(Fault(Refusal::EndTooFar, 0));
    }
    Ok(0)
}

// How many pieces there are at the least: as many as are full, and one for what is left over.
#[tactic(auto, using(crate::proofs::PlanLaws::fewest_is))]
fn fewest(len: u64, most: u64) -> u64
    requires { 0 < most }
    ensures { result ≡ fewest most len }
{
    len.div_ceil(most)
}

// As many pieces as there are rows, each as long as it can be.
#[tactic(auto, using(crate::proofs::Loops::put_begins, crate::proofs::Loops::put_turn, crate::proofs::Loops::put_ends))]
fn put_pieces(rows: &mut [[u64; 2]], first: u64, len: u64, most: u64)
    requires { first + len ≤ greatest }
    ensures { rows.new ≡ cut most (length rows.old) first len }
{
    let mut at = first;
    let mut left = len;
    for row in rows {
        let size = left.min(most);
        *row = [at, size];
        at += size;
        left -= size;
    }
}

// The plan with the fewest pieces over the first rows of the table, and how many they are; 26, 27, then 24.
#[tactic(auto, using(crate::proofs::PlanLaws::good, crate::proofs::PlanLaws::most_some))]
pub fn plan(table: &mut [[u64; 2]], first: u64, len: u64, msize: u32) -> Place
    ensures { Planned table.old first len msize table.new result }
{
    agree(first, len, msize)?;
    let most = most_data(msize);
    let n = fewest(len, most);
    if (table.len() as u64) < n {
        return Err(Fault(Refusal::TableFull, 0));
    }
    let count = n as usize;
    put_pieces(&mut table[..count], first, len, most);
    Ok(count)
}

// Whether a piece comes next where so much is left.
fn follows(offset: u64, size: u64, at: u64, left: u64, most: u64) -> bool
    ensures { Follows offset size at left most result }
{
    offset == at && 0 < size && size <= most && size <= left
}

// Whether the pieces are a plan of the write; no where 26 or 27 holds.
#[tactic(auto, using(crate::proofs::PlanLaws::good, crate::proofs::PlanLaws::accepted_refused, crate::proofs::Loops::look_turn, crate::proofs::Loops::look_stop, crate::proofs::Loops::look_ends))]
pub fn accepts(pieces: &[[u64; 2]], first: u64, len: u64, msize: u32) -> bool
    ensures { result ≡ accepted pieces.now first len msize }
{
    if agree(first, len, msize).is_err() {
        return false;
    }
    let most = most_data(msize);
    let mut at = first;
    let mut left = len;
    for &[offset, size] in pieces {
        if !follows(offset, size, at, left, most) {
            return false;
        }
        at += size;
        left -= size;
    }
    left == 0
}
