// The places of the store: globals that are variables, and fields of globals that are headers.
ghost use Rattle.store.specs.Places.{variable_tag, field_tag, AsksStored, ReadsStored, AsksHeaderTy, FindsHeaderTy};
ghost use Rattle.store.specs.Changes.{AsksCell, WritesCell};
ghost use Rattle.program.specs.In.{In};

use super::STORE;
use super::headers::VALID;
use program::Source;
use shape::OFFSETS;
use shape::limits::FIRST_HEADER_TYPE;
use values::Value;

// The variable whose number stands behind the tag.
pub fn held_variable(source: &Source, slots: &[u64; STORE], at: usize) -> Value
    requires { In (AsksStored variable_tag) source.now slots.now at }
    ensures { In ReadsStored source.now slots.now at result }
{
    let g = source.nums[at + 1] as usize;
    Value {
        ty: source.global_of(g),
        number: slots[source.directory[OFFSETS + g] as usize],
    }
}

// Where the type of a header stands.
pub fn header_type(source: &Source, g: usize) -> usize
    requires { In AsksHeaderTy source.now g }
    ensures { In FindsHeaderTy source.now g result }
{
    let ty = source.global_of(g);
    source.header_of((ty - FIRST_HEADER_TYPE) as usize)
}

// The field whose global and number stand behind the tag.
pub fn held_field(source: &Source, slots: &[u64; STORE], at: usize) -> Value
    requires { In (AsksStored field_tag) source.now slots.now at }
    ensures { In ReadsStored source.now slots.now at result }
{
    let g = source.nums[at + 1] as usize;
    let f = source.nums[at + 2] as usize;
    let header = header_type(source, g);
    Value {
        ty: source.nums[header + 1 + f],
        number: slots[source.directory[OFFSETS + g] as usize + 1 + f],
    }
}

// A number is put into the variable whose number stands behind the tag.
pub fn put_variable(source: &Source, at: usize, number: u64, slots: &mut [u64; STORE])
    requires { AsksCell variable_tag source.now.nums.now source.now.directory.now slots.old at }
    ensures { WritesCell source.now.nums.now source.now.directory.now slots.old slots.new at number }
{
    let g = source.nums[at + 1] as usize;
    let slot = source.directory[OFFSETS + g] as usize;
    slots[slot] = number;
}

// A number is put into the field whose global and number stand behind the tag, if the header is valid.
pub fn put_field(source: &Source, at: usize, number: u64, slots: &mut [u64; STORE])
    requires { AsksCell field_tag source.now.nums.now source.now.directory.now slots.old at }
    ensures { WritesCell source.now.nums.now source.now.directory.now slots.old slots.new at number }
{
    let g = source.nums[at + 1] as usize;
    let f = source.nums[at + 2] as usize;
    let mark = source.directory[OFFSETS + g] as usize;
    if slots[mark] == VALID {
        slots[mark + 1 + f] = number;
    }
}
