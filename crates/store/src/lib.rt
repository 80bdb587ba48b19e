// Where a running body finds its numbers: the places of its frame and of the store. A place is read and written by its
// index alone, in a fixed number of looks.
#![tactic(auto)]

ghost use Rattle.store.specs.Places.{AsksPlace, ReadsPlace};
ghost use Rattle.store.specs.Changes.{AsksWrite, Writes};
ghost use Rattle.program.specs.In.{In};

pub mod fill;
mod frames;
mod globals;
pub mod headers;
pub mod packet;

use frames::{held_local, held_parameter, put_local, put_parameter};
use globals::{held_field, held_variable, put_field, put_variable};
use program::{Scope, Source};
use values::Value;

// The slot that counts steps, behind those of the numbers that a store may have.
pub const COUNTER: usize = 544;
// The slot of the index of the packet's next unread byte.
pub const POSITION: usize = 545;
// How many slots the store has.
pub const STORE: usize = 546;

// The tags of places. The last is that of a field, 5.
const LOCAL: u64 = 2;

const PARAMETER: u64 = 3;

const VARIABLE: u64 = 4;

// What the place holds whose tag stands at an index.
pub fn read_place(
    source: &Source,
    scope: &Scope,
    slots: &[u64; STORE],
    frame: &[u64],
    at: usize,
) -> Value
    requires { In AsksPlace source.now scope.now slots.now frame.now at }
    ensures { In ReadsPlace source.now scope.now slots.now frame.now at result }
{
    let tag = source.nums[at];
    match tag {
        LOCAL => held_local(source.nums, scope, frame, at),
        PARAMETER => held_parameter(source.nums, scope, frame, at),
        VARIABLE => held_variable(source, slots, at),
        _ => held_field(source, slots, at),
    }
}

// A number is put into the place whose tag stands at an index; a field of an invalid header stays as it is.
pub fn write_place(
    source: &Source,
    scope: &Scope,
    at: usize,
    number: u64,
    slots: &mut [u64; STORE],
    frame: &mut [u64],
)
    requires { AsksWrite source.now.nums.now source.now.directory.now scope.now slots.old frame.old at }
    ensures { Writes source.now.nums.now source.now.directory.now scope.now slots.old slots.new frame.old frame.new at number }
{
    let tag = source.nums[at];
    match tag {
        LOCAL => put_local(source.nums, scope, at, number, frame),
        PARAMETER => put_parameter(source.nums, scope, at, number, frame),
        VARIABLE => put_variable(source, at, number, slots),
        _ => put_field(source, at, number, slots),
    }
}
