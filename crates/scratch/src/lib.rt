// Numbers kept in a lent slice, one after another. As with bytes, a number is stored only below the slice's length,
// and the answer is always the next place.
#![tactic(auto)]

ghost use Rattle.std.specs.Prelude.{[], ◌∷◌, ◌+◌, ◌^◌, ◌≤◌, ◌<◌, length};
ghost use Rattle.text.specs.Buffer.{Put};

use text::buffer;

// Some numbers. One test does for all of them where there is room.
pub fn keep(kept: &mut [u64], at: usize, numbers: &[u64]) -> usize
    requires { at + length numbers.now < 2 ^ 63 }
    ensures { Put kept.old at numbers.now kept.new result }
{
    if at + numbers.len() <= kept.len() {
        return buffer::put_within(kept, at, numbers);
    }
    buffer::put_all(kept, at, numbers)
}
