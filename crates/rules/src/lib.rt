// The answers of the public operations, and what is wrong where they refuse. What each case says in the numbers of the
// paper is stated in specs/Answers.antt.
#![tactic(auto)]

ghost use Rattle.std.specs.Prelude.{◌≡◌};
ghost use Rattle.rules.specs.Answers.{number_of};

// Why something is refused; each reason has the number that it has in the table of refusals.
#[derive(Clone, Copy)]
pub enum Reason {
    // A file of no bytes, or of more than a file may have.
    Size = 1,
    // The bytes end inside a number.
    CutOff = 2,
    // A number takes more bytes than it needs, or more than a word has.
    Overlong = 3,
    // A number is not in its list, or the numbers run out.
    Unlisted = 4,
    // A tag stands below the deepest level.
    TooDeep = 5,
    // There is nothing of that name.
    Unnamed = 6,
    // Types, widths, literals, slice bounds or argument counts that do not agree.
    Type = 7,
    // Any other rule of form.
    Form = 8,
    // More steps than a run may take.
    Ceiling = 9,
    // A bad or a missing number of the entries.
    Entries = 10,
    // A bad or a missing number of the store.
    Store = 11,
    // Numbers are left over.
    LeftOver = 12,
    // Too few slots or bytes are lent.
    Room = 13,
    // A bad or a missing number of the packet.
    Packet = 16,
}

impl Reason {
    // The refusal's number.
    pub fn number(self) -> u64
        ensures { result ≡ number_of self }
    {
        self as u64
    }
}

// What is wrong in a list of numbers: the reason, and the index of the number at fault.
#[derive(Clone, Copy)]
pub struct Fault {
    pub reason: Reason,
    pub index: usize,
}

// Why a bench file is refused: the reason, and the byte offset of the number at fault.
#[derive(Clone, Copy)]
pub struct Refusal {
    pub reason: Reason,
    pub place: usize,
}

// What the judge accepts: the program's ceiling and the store's length.
#[derive(Clone, Copy)]
pub struct Acceptance {
    pub ceiling: u64,
    pub length: usize,
}

// How a run ends; a reject has its error.
#[derive(Clone, Copy)]
pub enum Signal {
    Done,
    Exit,
    Reject(u64),
}

// A finished run: how it ended, its steps, the ceiling and the store's length.
#[derive(Clone, Copy)]
pub struct Finished {
    pub signal: Signal,
    pub steps: u64,
    pub ceiling: u64,
    pub length: usize,
}
