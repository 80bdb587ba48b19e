// Arithmetic on patterns of 0 to 64 bits. A pattern is the natural number that its bits write, and each contract is one
// equation about such numbers, for every width.
#![tactic(auto)]

pub mod arithmetic;
pub mod bits;
pub mod keys;
pub mod order;
pub mod parts;
pub mod widths;
