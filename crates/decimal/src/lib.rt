// The text of an f32, given by its pattern: nine significant digits, correctly rounded, ties to even, as C's %.8e prints it.
#![tactic(auto)]

mod big;
mod digits;
pub mod text;
