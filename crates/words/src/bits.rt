// Operations on the bits of patterns.
ghost use Rattle.std.specs.Prelude.{◌≡◌, ◌^◌, ◌<◌, ◌≤◌, bit_and, bit_or, bit_xor};
ghost use Rattle.rules.specs.Words.{complement_of, shifted_left, shifted_right};

use super::widths::largest;

// The bits that are ones in both.
pub fn and_bits(a: u64, b: u64) -> u64
    ensures { result ≡ bit_and a b }
{
    a & b
}

// The bits that are ones in either.
pub fn or_bits(a: u64, b: u64) -> u64
    ensures { result ≡ bit_or a b }
{
    a | b
}

// The bits that differ.
pub fn xor_bits(a: u64, b: u64) -> u64
    ensures { result ≡ bit_xor a b }
{
    a ^ b
}

// Each bit of a width turned over.
pub fn complement(width: u64, a: u64) -> u64
    requires { (width ≤ 64) × (a < 2 ^ width) }
    ensures { result ≡ complement_of width a }
{
    largest(width) - a
}

// Shifted left, at a width: 0 where the amount is the width or more.
pub fn shift_left(width: u64, a: u64, by: u64) -> u64
    requires { width ≤ 64 }
    ensures { result ≡ shifted_left width a by }
{
    if by < width {
        (a << by) & largest(width)
    } else {
        0
    }
}

// Shifted right: 0 where the amount is the width or more.
pub fn shift_right(width: u64, a: u64, by: u64) -> u64
    requires { width ≤ 64 }
    ensures { result ≡ shifted_right width a by }
{
    if by < width { a >> by } else { 0 }
}
