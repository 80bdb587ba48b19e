// Around a call: where its arguments go, and what comes back.
ghost use Rattle.steps.specs.Calls.{AsksOwn, Owns, AsksKeep, Keeps, AsksOneBack, BacksOne, AsksBack, Backs, TellsBack, AsksFinish, Finishes, AfterCall, Returns};
ghost use Rattle.program.specs.In.{In};

use crate::Ended;
use program::{Head, Scope, Source};
use store::{STORE, write_place};
use values::Value;

// The direction out: from it on a number comes back, and it alone takes nothing in.
pub const OUT: u64 = 2;

// How many slots a body's parameters and locals take: those behind them are free.
pub fn own_slots(scope: &Scope) -> usize
    requires { AsksOwn scope.now }
    ensures { Owns scope.now result }
{
    scope.parameter_count as usize + scope.local_count as usize
}

// A number is kept in a free slot.
pub fn keep(slot: usize, number: u64, frame: &mut [u64])
    requires { AsksKeep frame.old slot }
    ensures { Keeps frame.old frame.new slot number }
{
    frame[slot] = number;
}

// What comes back of one argument: the number that the callee left in a slot, where the direction is out or inout.
fn write_back(
    source: &Source,
    scope: &Scope,
    at: usize,
    parameters: usize,
    slot: usize,
    slots: &mut [u64; STORE],
    frame: &mut [u64],
)
    requires { AsksOneBack source.now.nums.now source.now.directory.now scope.now slots.old frame.old at parameters slot }
    ensures { BacksOne source.now.nums.now source.now.directory.now scope.now slots.old slots.new frame.old frame.new at parameters slot }
{
    if OUT <= source.nums[parameters] {
        let number = frame[slot];
        write_place(source, scope, at, number, slots, frame);
    }
}

// What comes back from so many arguments, from left to right: the numbers of out and inout parameters, which the callee
// left in slots one after the other. No loop: the edit write_back_right_to_left exchanges its two calls.
fn come_back(
    source: &Source,
    scope: &Scope,
    at: usize,
    parameters: usize,
    count: usize,
    slot: usize,
    slots: &mut [u64; STORE],
    frame: &mut [u64],
)
    requires { In AsksBack source.now scope.now slots.old frame.old at parameters count slot }
    ensures { In Backs source.now scope.now slots.old slots.new frame.old frame.new at parameters count slot }
{
    if count != 0 {
        write_back(source, scope, at, parameters, slot, slots, frame);
        come_back(
            source,
            scope,
            source.ends[at] as usize,
            parameters + 2,
            count - 1,
            slot + 1,
            slots,
            frame,
        );
    }
}

// Whether a body's numbers come back, by how it ended: an exit and a reject write nothing back.
fn comes_back(ended: Ended) -> bool
    ensures { TellsBack ended result }
{
    match ended {
        Ended::Onward => true,
        Ended::Returned => true,
        Ended::ReturnedValue { ty: _, number: _ } => true,
        Ended::Exited => false,
        Ended::Rejected(_) => false,
    }
}

// What comes back of a call, by its callable's head and by how the body ended.
pub fn finish_call(
    source: &Source,
    scope: &Scope,
    at: usize,
    head: Head,
    ended: Ended,
    slots: &mut [u64; STORE],
    frame: &mut [u64],
)
    requires { In AsksFinish source.now scope.now slots.old frame.old at head.parameters head.count ended }
    ensures { In Finishes source.now scope.now slots.old slots.new frame.old frame.new at head.parameters head.count ended }
{
    if comes_back(ended) {
        let own = own_slots(scope);
        come_back(
            source,
            scope,
            at + 3,
            head.parameters,
            head.count as usize,
            own,
            slots,
            frame,
        );
    }
}

// How a statement that calls goes on: a value is dropped, an exit and a reject go on out.
pub fn after_call(ended: Ended) -> Ended
    ensures { AfterCall ended result }
{
    match ended {
        Ended::Onward => Ended::Onward,
        Ended::Returned => Ended::Onward,
        Ended::ReturnedValue { ty, number } => Ended::Onward,
        Ended::Exited => Ended::Exited,
        Ended::Rejected(error) => Ended::Rejected(error),
    }
}

// The value that a body returned; one that returned none has no use for it.
pub fn returned(ended: Ended) -> Value
    ensures { Returns ended result.ty result.number }
{
    match ended {
        Ended::Onward => Value { ty: 0, number: 0 },
        Ended::Returned => Value { ty: 0, number: 0 },
        Ended::ReturnedValue { ty, number } => Value { ty, number },
        Ended::Exited => Value { ty: 0, number: 0 },
        Ended::Rejected(_) => Value { ty: 0, number: 0 },
    }
}
