// Slots filled: with zeros from one on, and with numbers from the first on.
ghost use Rattle.store.specs.Fills.{AsksClear, Clears, AsksCopy, Copies};

// The slots from one up to another are set to 0.
pub fn clear(from: usize, to: usize, slots: &mut [u64])
    requires { AsksClear slots.old from to }
    ensures { Clears slots.old slots.new from to }
{
    slots[from..to].fill(0);
}

// So many numbers from an index on are put into the first slots. One at a time: where they are none, the index may be
// past the end, and then there is no part of the numbers to copy whole.
pub fn copy(nums: &[u64], from: usize, count: usize, slots: &mut [u64])
    requires { AsksCopy nums.now slots.old from count }
    ensures { Copies nums.now slots.old slots.new from count }
{
    for at in 0..count {
        slots[at] = nums[from + at];
    }
}
