// Patterns cut and joined.
ghost use Rattle.std.specs.Prelude.{◌≡◌, ◌^◌, ◌<◌, ◌≤◌};
ghost use Rattle.rules.specs.Words.{cast_to, slice_of, joined};

use super::widths::largest;

// A pattern at another width: high bits are dropped, or zeros added.
pub fn cast(width: u64, a: u64) -> u64
    requires { width ≤ 64 }
    ensures { result ≡ cast_to width a }
{
    a & largest(width)
}

// The bits from `high` down to `low`, both counted from 0.
pub fn slice(high: u64, low: u64, a: u64) -> u64
    requires { (low ≤ high) × (high < 64) }
    ensures { result ≡ slice_of high low a }
{
    (a >> low) & largest(high - low + 1)
}

// `a` in front of `b`, which has `width` bits. Together they have at most 64.
pub fn join(width: u64, a: u64, b: u64) -> u64
    requires { (width < 64) × (joined width a b < 2 ^ 64) }
    ensures { result ≡ joined width a b }
{
    (a << width) + b
}
