// What stands inside messages: fids, tags and group numbers, qids, and the entries of a directory. Its specs say which body each type of
// message has (F3).

#![tactic(auto)]

pub mod dirents;
pub mod ids;
pub mod qids;
