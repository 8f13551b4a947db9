// Numbers that must not be taken for one another: a tag or a group number does not fit where a fid is meant. Fids and tags are handed
// over by Rust too, so these two are C structs.

#[repr(C)]
#[derive(Clone, Copy)]
pub struct Fid(pub u32);

#[derive(Clone, Copy)]
pub struct Gid(pub u32);

#[repr(C)]
#[derive(Clone, Copy)]
pub struct Tag(pub u16);
