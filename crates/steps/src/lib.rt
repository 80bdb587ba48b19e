// The steps of a run that run no other construct: what an expression makes of its operands' values, what a statement
// without operands does, and what happens around a call.
#![tactic(auto)]

pub mod calls;
pub mod operands;
pub mod singles;

// How a statement ends: the next one goes on; its body ends, without a value or with one; the whole run ends, by an exit
// or by a reject with its error.
#[derive(Clone, Copy)]
pub enum Ended {
    Onward,
    Returned,
    ReturnedValue { ty: u64, number: u64 },
    Exited,
    Rejected(u64),
}
