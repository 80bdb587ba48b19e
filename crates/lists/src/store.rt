// The store: each global's number, or its valid mark and its fields, which are 0 where the header is invalid.
ghost use Rattle.std.specs.Prelude.{◌≡◌};
ghost use Rattle.program.specs.Looks.{Has, globals_of};
ghost use Rattle.lists.specs.Parts.{AsksProgram, width_under, AsksFields, JudgesFields, JudgesHeader, JudgesCell, AsksCells, JudgesCells};
ghost use Rattle.program.specs.In.{In};
ghost use Rattle.shape.specs.Scans.{told};

use super::values::{BOOL, typed_at, value_at};
use program::Source;
use rules::{Fault, Reason};
use shape::Scanned;
use shape::limits::FIRST_HEADER_TYPE;
use words::widths::WIDEST;

// The width that a field of a header may fill: 0 is all that fits no bits.
fn width_under(mark: u64, width: u64) -> u64
    ensures { result ≡ width_under mark width }
{
    if mark == 1 { width } else { 0 }
}

// So many fields of a header with a valid mark; the first one's width stands at `width`.
fn fields_at(nums: &[u64], width: usize, mark: u64, count: u64, at: usize) -> Scanned
    requires { AsksFields nums.now width count }
    ensures { JudgesFields nums.now width mark count at (told result) }
{
    let mut next = at;
    for i in 0..count as usize {
        let under = width_under(mark, nums[width + i]);
        next = value_at(nums, Reason::Store, under, next)?;
    }
    Ok(next)
}

// A header of a type: its valid mark and its fields.
fn header_at(source: &Source, h: u64, at: usize) -> Scanned
    requires { In AsksProgram source.now }
    ensures { In JudgesHeader source.now h at (told result) }
{
    if h < source.directory[shape::HEADERS] {
        let header = source.header_of(h as usize);
        let count = source.nums[header];
        let next = value_at(source.nums, Reason::Store, BOOL, at)?;
        fields_at(source.nums, header + 1, source.nums[at], count, next)
    } else {
        Err(Fault {
            reason: Reason::Store,
            index: at,
        })
    }
}

// A global.
fn cell_at(source: &Source, g: usize, at: usize) -> Scanned
    requires { In (Has globals_of) source.now g }
    ensures { In JudgesCell source.now g at (told result) }
{
    let ty = source.global_of(g);
    if ty <= WIDEST {
        typed_at(source.nums, Reason::Store, ty, at)
    } else {
        header_at(source, ty - FIRST_HEADER_TYPE, at)
    }
}

// So many globals, of a store that begins at `store`. Their offsets and the last one's end go into the slots.
pub fn cells_at(
    source: &Source,
    count: u64,
    store: usize,
    offsets: &mut [u64; super::OFFSETS],
) -> Scanned
    requires { In AsksCells source.now 0 count store store }
    ensures { In JudgesCells source.now 0 count store store offsets.old offsets.new (told result) }
{
    let mut next = store;
    for g in 0..count as usize {
        offsets[g] = (next - store) as u64;
        next = cell_at(source, g, next)?;
    }
    offsets[count as usize] = (next - store) as u64;
    Ok(next)
}
