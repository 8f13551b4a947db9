// The messages that every dialect of 9P has, 9P2000.L among them: for each its struct, its reader and its writer, in a file for each family,
// the request before the reply. A reader goes through the fields at a place; a writer lays them, in the pass that it is asked for. An empty
// reply has none of the three.

#![tactic(auto)]

pub mod files;
pub mod sessions;
pub mod walking;
