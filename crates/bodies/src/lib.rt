// Refusals 6, 7 and 8 of expressions and statements (the rules' page Form), over the numbers where they stand. Each
// construct is looked at once, and no callee's body is entered.
#![tactic(auto)]

pub mod calls;
pub mod exprs;
pub mod forms;
pub mod places;
pub mod singles;
pub mod stmts;
pub mod types;

ghost use Rattle.std.specs.Prelude.{◌≡◌};
ghost use Rattle.bodies.specs.Numbers.{numbered};

use rules::Fault;

// The type of an expression as it is written (0 bool, 1 to 64 bits), or the first fault.
pub type Typed = Result<u64, Fault>;

// Whether a statement that is fine returns a value on each path, or the first fault.
pub type Formed = Result<bool, Fault>;

// What is wrong, of any number, where a `Fault` has one of those in the table of refusals: `forms::chosen` hands on
// either.
#[derive(Clone, Copy)]
pub struct Numbered {
    pub number: u64,
    pub index: usize,
}

impl From<Fault> for Numbered {
    ghost from_gives = { λ wrong made. made ≡ numbered wrong };

    fn from(wrong: Fault) -> Numbered {
        Numbered {
            number: wrong.reason.number(),
            index: wrong.index,
        }
    }
}

// What a call calls: the number of its kind and the type that it returns.
#[derive(Clone, Copy)]
pub struct Callee {
    pub kind: u64,
    pub returns: u64,
}

// Whether arguments agree with parameters in number and type, and in place.
#[derive(Clone, Copy)]
pub struct Agreed {
    pub types: bool,
    pub places: bool,
}

// What a global is: a variable of a type, or a header whose type stands at an index.
#[derive(Clone, Copy)]
pub enum Found {
    Variable(u64),
    Header(usize),
}

// Where the first operand stands, and whether there is a second.
#[derive(Clone, Copy)]
pub struct Operands {
    pub first: usize,
    pub two: bool,
}

// A parameter: its direction and its type.
#[derive(Clone, Copy)]
pub struct Parameter {
    pub direction: u64,
    pub ty: u64,
}

// The parameter that an argument is for, if one is left; where those behind it begin, and how many they are.
#[derive(Clone, Copy)]
pub struct Wanted {
    pub parameter: Option<Parameter>,
    pub next: usize,
    pub left: u64,
}
