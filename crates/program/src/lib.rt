// A program as it stands in the numbers, for the passes behind the scan: looks at its globals, header types, callables
// and tables. Each looks at a fixed number of numbers, a table's also at its keys' ends.
#![tactic(auto)]

ghost use Rattle.std.specs.Prelude.{◌≡◌, ◌+◌};
ghost use Rattle.program.specs.Looks.{Has, Finds, headers_of, globals_of, callables_of, tables_of, states_of, FoundGlobal, FoundHead, FoundFrame, FoundHeader, FoundTable, FoundState, KeysInside};
ghost use Rattle.program.specs.Stands.{keys_end};
ghost use Rattle.program.specs.In.{In};
ghost use Rattle.program.specs.Scopes.{kind_number, kind_numbered, without_frame};

// The kinds of bodies, with the number of each.
#[derive(Clone, Copy, PartialEq, Eq)]
pub enum Kind {
    Action = 0,
    Function = 1,
    Apply = 2,
    State = 3,
}

impl Kind {
    // The kind of any number: 0 an action, 1 a function, 2 the apply body; every other number is a state's.
    pub fn numbered(number: u64) -> Kind
        ensures { result ≡ kind_numbered number }
    {
        match number {
            0 => Kind::Action,
            1 => Kind::Function,
            2 => Kind::Apply,
            _ => Kind::State,
        }
    }

    // The kind's number.
    pub fn number(self) -> u64
        ensures { result ≡ kind_number self }
    {
        self as u64
    }
}

// The kinds of keys.
pub const EXACT: u64 = 0;

pub const LPM: u64 = 1;

pub const TERNARY: u64 = 2;

// The most keys of a table: as many slots have their widths, and as many their numbers.
pub const MOST_KEYS: usize = shape::limits::MOST_KEYS as usize;
// How many slots the widths of keys have, four a table.
pub const WIDTHS: usize = 32;

// The number of a callable's kind, the type that a function returns, where its parameters begin and how many they are.
#[derive(Clone, Copy)]
pub struct Head {
    pub kind: u64,
    pub returns: u64,
    pub parameters: usize,
    pub count: u64,
}

// Where a callable's locals begin, how many they are, and where its body stands.
#[derive(Clone, Copy)]
pub struct Frame {
    pub locals: usize,
    pub count: u64,
    pub body: usize,
}

// Where a table stands, the count of its actions, and its default.
#[derive(Clone, Copy)]
pub struct Parts {
    pub at: usize,
    pub actions: usize,
    pub default: usize,
}

// What a body sees: how many callables it reaches; where its parameters stand and how many they are; the same of its
// locals; the number of its kind, which may be any (`Kind::numbered`), and the type that it returns.
#[derive(Clone, Copy)]
pub struct Scope {
    pub reach: u64,
    pub parameters: usize,
    pub parameter_count: u64,
    pub locals: usize,
    pub local_count: u64,
    pub kind: u64,
    pub returns: u64,
}

impl Scope {
    // What a body of this kind sees that has no parameters and no locals.
    pub fn without_frame(reach: u64, kind: Kind) -> Scope
        ensures { result ≡ without_frame reach kind }
    {
        Scope {
            reach,
            parameters: 0,
            parameter_count: 0,
            locals: 0,
            local_count: 0,
            kind: kind.number(),
            returns: 0,
        }
    }
}

// A program as it stands in a file: the file's numbers, where each expression and statement ends, and where the parts
// begin.
#[derive(Clone, Copy)]
pub struct Source<'a> {
    pub nums: &'a [u64],
    pub ends: &'a [u64],
    pub directory: &'a [u64; shape::SLOTS],
}

impl Source<'_> {
    // The type of a global as it is written: 0 to 64, or 128 and the number of a header type.
    pub fn global_of(&self, g: usize) -> u64
        requires { In (Has globals_of) self.now g }
        ensures { In (Finds globals_of (FoundGlobal result)) self.now g }
    {
        let at = self.directory[shape::GLOBALS + 1 + g] as usize;
        self.nums[at]
    }

    // Where a header type stands: the count of its fields, then their widths.
    pub fn header_of(&self, h: usize) -> usize
        requires { In (Has headers_of) self.now h }
        ensures { In (Finds headers_of (FoundHeader self.now.nums.now result)) self.now h }
    {
        self.directory[shape::HEADERS + 1 + h] as usize
    }

    // A callable's head.
    pub fn head_of(&self, f: usize) -> Head
        requires { In (Has callables_of) self.now f }
        ensures { In (Finds callables_of (FoundHead self.now.nums.now result.kind result.returns result.parameters result.count)) self.now f }
    {
        let at = self.directory[shape::CALLABLES + 1 + f] as usize;
        if self.nums[at] == 0 {
            Head {
                kind: Kind::Action.number(),
                returns: 0,
                parameters: at + 2,
                count: self.nums[at + 1],
            }
        } else {
            Head {
                kind: Kind::Function.number(),
                returns: self.nums[at + 1],
                parameters: at + 3,
                count: self.nums[at + 2],
            }
        }
    }

    // A callable's frame.
    pub fn frame_of(&self, f: usize) -> Frame
        requires { In (Has callables_of) self.now f }
        ensures { In (Finds callables_of (FoundFrame self.now.nums.now self.now.ends.now result.locals result.count result.body)) self.now f }
    {
        let at = self.directory[shape::CALLABLES + 1 + f] as usize;
        let counted = at + 1 + self.nums[at] as usize;
        let locals = counted + 1 + 2 * self.nums[counted] as usize;
        let count = self.nums[locals];
        Frame {
            locals: locals + 1,
            count,
            body: locals + 1 + count as usize,
        }
    }

    // Where a state stands: its statement, and at that one's end its transition.
    pub fn state_of(&self, s: usize) -> usize
        requires { In (Has states_of) self.now s }
        ensures { In (Finds states_of (FoundState self.now.nums.now self.now.ends.now result)) self.now s }
    {
        self.directory[shape::STATES + 1 + s] as usize
    }

    // The index behind so many keys.
    fn behind_keys(&self, at: usize, count: u64) -> usize
        requires { KeysInside self.now.ends.now at count }
        ensures { result ≡ keys_end self.now.ends.now at count }
    {
        let mut next = at;
        for _ in 0..count {
            next = self.ends[next + 1] as usize;
        }
        next
    }

    // A table's parts: its keys are stepped over by their ends.
    pub fn table_of(&self, t: usize) -> Parts
        requires { In (Has tables_of) self.now t }
        ensures { In (Finds tables_of (FoundTable self.now.nums.now self.now.ends.now result.at result.actions result.default)) self.now t }
    {
        let at = self.directory[shape::TABLES + 1 + t] as usize;
        let actions = self.behind_keys(at + 1, self.nums[at]);
        Parts {
            at,
            actions,
            default: actions + 1 + self.nums[actions] as usize,
        }
    }
}
