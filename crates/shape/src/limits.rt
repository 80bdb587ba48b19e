// What the rules allow at most: versions, levels, widths, the members of each list.
ghost use Rattle.std.specs.Prelude.{◌≡◌};
ghost use Rattle.rules.specs.Reading.{has_parser};

// The latest version.
pub(crate) const LATEST: u64 = 2;
// The first version whose files have a parser block.
const FIRST_WITH_PARSER: u64 = 2;
// The deepest level; bodies and keys are level 1.
pub const DEEPEST: usize = 32;
// The widest bit string.
pub(crate) const WIDEST: u64 = 64;
// The highest bound of a slice.
pub(crate) const HIGHEST_BOUND: u64 = 63;
// The last operator.
pub(crate) const LAST_OPERATOR: u64 = 13;
// The last direction of a parameter.
pub(crate) const LAST_DIRECTION: u64 = 3;
// The last kind of callable.
pub(crate) const LAST_CALLABLE_KIND: u64 = 1;
// The last transition of a state.
pub(crate) const LAST_TRANSITION: u64 = 4;
// The largest error.
pub(crate) const MOST_ERROR: u64 = 255;
// The last kind of key.
pub(crate) const LAST_KEY_KIND: u64 = 2;
// The first header type among the types of globals.
pub const FIRST_HEADER_TYPE: u64 = 128;
// The last header type among the types of globals.
pub(crate) const LAST_HEADER_TYPE: u64 = 135;
// The most header types.
pub(crate) const MOST_HEADERS: u64 = 8;
// The most fields of a header type.
pub(crate) const MOST_FIELDS: u64 = 16;
// The most globals.
pub(crate) const MOST_GLOBALS: u64 = 32;
// The most callables.
pub(crate) const MOST_CALLABLES: u64 = 16;
// The most parameters of a callable.
pub(crate) const MOST_PARAMETERS: u64 = 8;
// The most locals of a callable.
pub(crate) const MOST_LOCALS: u64 = 8;
// The most tables.
pub(crate) const MOST_TABLES: u64 = 8;
// The most keys of a table.
pub const MOST_KEYS: u64 = 4;
// The most actions of a table.
pub(crate) const MOST_ACTIONS: u64 = 8;
// The most arguments of a call or of a default.
pub(crate) const MOST_ARGUMENTS: u64 = 8;
// The most members of a block.
pub(crate) const MOST_MEMBERS: u64 = 64;
// The most states of a parser block.
pub(crate) const MOST_STATES: u64 = 16;
// The most pairs of a select.
pub(crate) const MOST_PAIRS: u64 = 16;

// Whether the files of a version have a parser block.
pub fn has_parser(version: u64) -> bool
    ensures { result ≡ has_parser version }
{
    FIRST_WITH_PARSER <= version
}
