// What 9P2000.L says of files rather than of their contents: attributes and locks.

#![tactic(auto)]

pub mod attributes;
pub mod locks;
