// The widths of patterns, and the largest number of each.
ghost use Rattle.std.specs.Prelude.{◌≡◌, ◌≤◌};
ghost use Rattle.rules.specs.Words.{largest, fits_width};

// The widest pattern has so many bits.
pub const WIDEST: u64 = 64;

// The largest number of each width from 0 to the widest.
const LARGEST_VALUES: [u64; 65] = [
    0,
    1,
    3,
    7,
    15,
    31,
    63,
    127,
    255,
    511,
    1023,
    2047,
    4095,
    8191,
    16383,
    32767,
    65535,
    131071,
    262143,
    524287,
    1048575,
    2097151,
    4194303,
    8388607,
    16777215,
    33554431,
    67108863,
    134217727,
    268435455,
    536870911,
    1073741823,
    2147483647,
    4294967295,
    8589934591,
    17179869183,
    34359738367,
    68719476735,
    137438953471,
    274877906943,
    549755813887,
    1099511627775,
    2199023255551,
    4398046511103,
    8796093022207,
    17592186044415,
    35184372088831,
    70368744177663,
    140737488355327,
    281474976710655,
    562949953421311,
    1125899906842623,
    2251799813685247,
    4503599627370495,
    9007199254740991,
    18014398509481983,
    36028797018963967,
    72057594037927935,
    144115188075855871,
    288230376151711743,
    576460752303423487,
    1152921504606846975,
    2305843009213693951,
    4611686018427387903,
    9223372036854775807,
    18446744073709551615,
];

// The largest number of a width: all of its bits are ones.
pub fn largest(width: u64) -> u64
    requires { width ≤ 64 }
    ensures { result ≡ largest width }
{
    LARGEST_VALUES[width as usize]
}

// Whether a number fits a width.
pub fn fits(width: u64, n: u64) -> bool
    requires { width ≤ 64 }
    ensures { result ≡ fits_width width n }
{
    n <= largest(width)
}
