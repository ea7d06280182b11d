// Document 01's refusals, and document 02's, and where they are; and 01's limits by name. The definitions have the same names (`meaning`: Refusal, Limit).
#![tactic(auto)]

mod fault;
mod refusal;

pub use fault::{FileFault, ObjectFault};
pub use refusal::Refusal;

// Bytes of the largest manifest; where the last blob that is written may end, 2 ^ 40.
pub const MANIFEST_MOST: u64 = 16_777_216;

pub const END_MOST: u64 = 1_099_511_627_776;

// Objects of a file, the same for counts of 64 bits, and dimensions of an object.
pub const OBJECTS_MOST: usize = 1_024;

pub const OBJECTS_MOST_64: u64 = OBJECTS_MOST as u64;

pub const RANK_MOST: usize = 8;

// How many levels may still nest where an item stands: 32 at the root, one less in each map or array (document 01, "up to depth 32"). In a map that is for its keys and values, in a shape for its elements.
pub const AT_ROOT: u64 = 32;

pub const IN_ROOT: u64 = 31;

pub const IN_OBJECTS: u64 = 30;

pub const IN_OBJECT: u64 = 29;

pub const IN_COMPONENTS: u64 = 28;

pub const IN_COMPONENT: u64 = 27;

pub const IN_SHAPE: u64 = 28;
