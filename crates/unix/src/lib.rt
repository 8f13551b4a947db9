// The messages that 9P2000.u has of its own, as `plain` has those of 9P2000.

#![tactic(auto)]

pub mod attributes;
pub mod files;
pub mod sessions;
