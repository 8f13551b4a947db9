// The messages that 9P2000.L alone has, as `common` has those of every dialect; `metadata` has the rest of them.

#![tactic(auto)]

pub mod directories;
pub mod files;
pub mod sessions;
