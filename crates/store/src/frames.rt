// The places of a frame: parameters, and locals behind them.
ghost use Rattle.store.specs.Places.{local_tag, parameter_tag, AsksFramed, ReadsFramed};
ghost use Rattle.store.specs.Changes.{WritesFramed};

use program::Scope;
use values::Value;

// The local whose number stands behind the tag.
pub fn held_local(nums: &[u64], scope: &Scope, frame: &[u64], at: usize) -> Value
    requires { AsksFramed local_tag nums.now scope.now frame.now at }
    ensures { ReadsFramed nums.now scope.now frame.now at result }
{
    let i = nums[at + 1] as usize;
    Value {
        ty: nums[scope.locals + i],
        number: frame[scope.parameter_count as usize + i],
    }
}

// The parameter whose number stands behind the tag.
pub fn held_parameter(nums: &[u64], scope: &Scope, frame: &[u64], at: usize) -> Value
    requires { AsksFramed parameter_tag nums.now scope.now frame.now at }
    ensures { ReadsFramed nums.now scope.now frame.now at result }
{
    let i = nums[at + 1] as usize;
    Value {
        ty: nums[scope.parameters + 2 * i + 1],
        number: frame[i],
    }
}

// A number is put into the local whose number stands behind the tag.
pub fn put_local(nums: &[u64], scope: &Scope, at: usize, number: u64, frame: &mut [u64])
    requires { AsksFramed local_tag nums.now scope.now frame.old at }
    ensures { WritesFramed nums.now scope.now frame.old frame.new at number }
{
    let i = nums[at + 1] as usize;
    let slot = scope.parameter_count as usize + i;
    frame[slot] = number;
}

// A number is put into the parameter whose number stands behind the tag.
pub fn put_parameter(nums: &[u64], scope: &Scope, at: usize, number: u64, frame: &mut [u64])
    requires { AsksFramed parameter_tag nums.now scope.now frame.old at }
    ensures { WritesFramed nums.now scope.now frame.old frame.new at number }
{
    let i = nums[at + 1] as usize;
    frame[i] = number;
}
