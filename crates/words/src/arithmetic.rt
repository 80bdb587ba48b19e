// Sums, differences and products modulo 2^width.
ghost use Rattle.std.specs.Prelude.{◌≡◌, ◌*◌, ◌%◌, ◌^◌, ◌<◌, ◌≤◌};
ghost use Rattle.rules.specs.Words.{sum, difference, product};

use super::widths::largest;
use std::num::{wrapping_add_u64, wrapping_sub_u64};

// The bits of half a word.
const HALF_BITS: u64 = 32;

// The mask of a word's lower half.
const HALF_MASK: u64 = 0xffff_ffff;

// a + b modulo 2^width.
pub fn sum(width: u64, a: u64, b: u64) -> u64
    requires { width ≤ 64 }
    ensures { result ≡ sum width a b }
{
    wrapping_add_u64(a, b) & largest(width)
}

// a − b modulo 2^width.
pub fn difference(width: u64, a: u64, b: u64) -> u64
    requires { (width ≤ 64) × (b < 2 ^ width) }
    ensures { result ≡ difference width a b }
{
    wrapping_sub_u64(a, b) & largest(width)
}

// a × b modulo 2^64, from halves: the product of the two high halves is a multiple of 2^64.
fn wrapping_product(a: u64, b: u64) -> u64
    ensures { result ≡ a * b % 2 ^ 64 }
{
    let a_low = a & HALF_MASK;
    let a_high = a >> HALF_BITS;
    let b_low = b & HALF_MASK;
    let b_high = b >> HALF_BITS;
    let middle = wrapping_add_u64(a_high * b_low, a_low * b_high);
    wrapping_add_u64(middle << HALF_BITS, a_low * b_low)
}

// a × b modulo 2^width.
pub fn product(width: u64, a: u64, b: u64) -> u64
    requires { width ≤ 64 }
    ensures { result ≡ product width a b }
{
    wrapping_product(a, b) & largest(width)
}
