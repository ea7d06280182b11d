// Questions about bytes, each answered by what the crate `meaning` defines: are two texts the same, and the two ends of the file frame.
// Beside these, an order and a digest of texts, for callers that seek a text among many.
#![tactic(auto)]

mod compare;
mod digests;
mod frame;

pub use compare::{order, same};
pub use digests::digest;
pub use frame::{is_magic, little};
