// Statements that run no other construct.
ghost use Rattle.steps.specs.Singles.{AsksSingle, RunsSingle};
ghost use Rattle.program.specs.In.{In};

use crate::Ended;
use program::Source;
use store::STORE;
use store::headers::{set_invalid, set_valid};
use store::packet::extract;

// The tags of these statements. The last is extract, 11.
const EMPTY: u64 = 0;

const RETURN: u64 = 7;

const EXIT: u64 = 8;

const SET_VALID: u64 = 9;

const SET_INVALID: u64 = 10;

// The error of a packet that is too short.
const SHORT_PACKET: u64 = 1;

// An empty statement, a return without a value, an exit, or a header that is made valid or invalid or is filled from the
// packet.
pub fn single(source: &Source, at: usize, slots: &mut [u64; STORE]) -> Ended
    requires { In AsksSingle source.now slots.old at }
    ensures { In RunsSingle source.now slots.old slots.new at result }
{
    let tag = source.nums[at];
    match tag {
        EMPTY => Ended::Onward,
        RETURN => Ended::Returned,
        EXIT => Ended::Exited,
        SET_VALID => {
            let header = source.nums[at + 1] as usize;
            set_valid(source.directory, header, slots);
            Ended::Onward
        }
        SET_INVALID => {
            let header = source.nums[at + 1] as usize;
            set_invalid(source.directory, header, slots);
            Ended::Onward
        }
        _ => {
            let header = source.nums[at + 1] as usize;
            if extract(source, header, slots) {
                Ended::Onward
            } else {
                Ended::Rejected(SHORT_PACKET)
            }
        }
    }
}
