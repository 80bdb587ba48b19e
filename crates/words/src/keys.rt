// Keys of tables: whether a key matches an entry's, and whether an entry is of the right form.
ghost use Rattle.std.specs.Prelude.{◌≡◌, ◌≤◌};
ghost use Rattle.rules.specs.Words.{prefix_matches, prefix_fits, mask_matches, mask_fits};

use super::bits::shift_right;
use super::widths::{WIDEST, fits, largest};

// Whether the first `prefix` of `width` bits agree in `value` and `key`.
pub fn prefix_matches(width: u64, prefix: u64, value: u64, key: u64) -> bool
    requires { (prefix ≤ width) × (width ≤ 64) }
    ensures { result ≡ prefix_matches width prefix value key }
{
    let outside = width - prefix;
    shift_right(WIDEST, key, outside) == shift_right(WIDEST, value, outside)
}

// Whether a prefix is within the width and `value` is 0 outside it.
pub fn prefix_fits(width: u64, value: u64, prefix: u64) -> bool
    requires { width ≤ 64 }
    ensures { result ≡ prefix_fits width value prefix }
{
    if prefix <= width {
        value & largest(width - prefix) == 0
    } else {
        false
    }
}

// Whether `key` is `value` at the bits of the mask.
pub fn mask_matches(mask: u64, value: u64, key: u64) -> bool
    ensures { result ≡ mask_matches mask value key }
{
    key & mask == value
}

// Whether a mask fits the width and `value` is 0 outside it.
pub fn mask_fits(width: u64, value: u64, mask: u64) -> bool
    requires { width ≤ 64 }
    ensures { result ≡ mask_fits width value mask }
{
    if fits(width, mask) {
        value & mask == value
    } else {
        false
    }
}
