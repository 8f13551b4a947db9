// The messages that 9P2000 has of its own, as `common` has those of every dialect.

#![tactic(auto)]

pub mod attributes;
pub mod files;
pub mod sessions;
