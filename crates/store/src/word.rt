// The words of states in the store.
ghost use Rattle.std.specs.Prelude.{◌≡◌, ◌≤◌, ◌<◌, length};
ghost use Rattle.store.specs.Rows.{word_put, word_at};

use super::stored::Stored;
use text::part::num;

// Word k.
pub fn put_word(nums: &mut [u32], k: usize, w: Stored)
    requires { (k < 4032) × (16384 ≤ length nums.old) }
    ensures { nums.new ≡ word_put nums.old k w }
{
    let i = 6592 + 2 * k;
    nums[i] = w.at;
    nums[i + 1] = w.len;
}

// Word k.
#[tactic(auto, unfolding(crate::specs::Rows::word_at))]
pub fn word_at(nums: &[u32], k: usize) -> Stored
    requires { k < 4032 }
    ensures { result ≡ word_at nums.now k }
{
    let i = 6592 + 2 * k;
    Stored {
        at: num(nums, i),
        len: num(nums, i + 1),
    }
}
