// Comparisons of unsigned patterns.
ghost use Rattle.std.specs.Prelude.{◌≡◌, ◌==◌, nat_le, nat_lt};

// Whether a is below b.
pub fn less(a: u64, b: u64) -> bool
    ensures { result ≡ nat_lt a b }
{
    a < b
}

// Whether a is at most b.
pub fn less_or_equal(a: u64, b: u64) -> bool
    ensures { result ≡ nat_le a b }
{
    a <= b
}

// Whether a and b are the same pattern.
pub fn equal(a: u64, b: u64) -> bool
    ensures { result ≡ (a == b) }
{
    a == b
}
