// The records of 9P2000.u that are not 9P2000's, laid flat in as much room as `plain_flat` has.

#![tactic(auto)]

pub mod attributes;
pub mod files;
pub mod sessions;
