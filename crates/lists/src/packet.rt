// The packet, a list of bytes in a file that has a parser, and that nothing stands behind it.
ghost use Rattle.std.specs.Prelude.{◌≡◌, ◌<◌, length};
ghost use Rattle.rules.specs.Reading.{repeat};
ghost use Rattle.rules.specs.Lists.{passing, is_byte, read_bytes};
ghost use Rattle.shape.specs.Scans.{told, scan_of};
ghost use Rattle.lists.specs.Parts.{JudgesPacket, JudgesLast};

use super::values::{number_at, value_at};
use rules::{Fault, Reason};
use shape::Scanned;
use shape::limits::has_parser;

// The most bytes of a packet.
const MOST_PACKET: u64 = 512;
// A byte is a number of eight bits.
const BYTE: u64 = 8;

// So many bytes, one after the other.
fn bytes_at(nums: &[u64], count: u64, at: usize) -> Scanned
    ensures { told result ≡ scan_of (repeat count (passing 16 is_byte)) nums.now at }
{
    let mut next = at;
    for _ in 0..count {
        next = value_at(nums, Reason::Packet, BYTE, next)?;
    }
    Ok(next)
}

// A list of bytes, its count first.
fn byte_list_at(nums: &[u64], at: usize) -> Scanned
    ensures { told result ≡ scan_of read_bytes nums.now at }
{
    let count = number_at(nums, Reason::Packet, at)?;
    if count <= MOST_PACKET {
        bytes_at(nums, count, at + 1)
    } else {
        Err(Fault {
            reason: Reason::Packet,
            index: at,
        })
    }
}

// The packet, where the version has one.
fn packet_at(nums: &[u64], at: usize) -> Scanned
    requires { 0 < length nums.now }
    ensures { JudgesPacket nums.now at (told result) }
{
    if has_parser(nums[0]) {
        byte_list_at(nums, at)
    } else {
        Ok(at)
    }
}

// What stands behind the store: the packet, and nothing more.
pub fn last_at(nums: &[u64], at: usize) -> Scanned
    requires { 0 < length nums.now }
    ensures { JudgesLast nums.now at (told result) }
{
    let next = packet_at(nums, at)?;
    if next < nums.len() {
        Err(Fault {
            reason: Reason::LeftOver,
            index: next,
        })
    } else {
        Ok(next)
    }
}
