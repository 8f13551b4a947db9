// 9P2000's records laid flat, as `flat` has those of 9P2000.L, in arrays that hold 9P2000.u's too, so that one function lays flat what is the
// same in both: a stat has 17 values, and that of 9P2000.u 22. A reply that every dialect has is laid flat by `flat`, in as much room.

#![tactic(auto)]

pub mod attributes;
pub mod files;
pub mod sessions;
pub mod walking;

// How many values hold any request, and how many any reply: `older_enough`, in specs/Widths.antt.
pub const WIDTH_T: usize = 23;

pub const WIDTH_R: usize = 22;
