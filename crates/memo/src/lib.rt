// A memo of instances that lookups have found: 128 slots of two numbers, one more than the number of a module, and where lines of it begin whose first instance
// is the first of its name. A lookup that asks it goes over a module's lines one time for each name.
#![tactic(auto)]

ghost use Rattle.std.specs.Prelude.{◌≡◌, ◌+◌, ◌*◌, ◌≤◌, ◌<◌, length, set};
ghost use Rattle.memo.specs.Known.{slots, place_in};

// The place in slot h, where it is one of module k.
#[tactic(auto, using(crate::specs::Known::place_cases))]
pub fn place_in(memo: &[usize], h: usize, k: usize) -> Option<usize>
    requires { h < slots }
    ensures { result ≡ place_in memo.now h k }
{
    if text::part::get_or(memo, 2 * h, 0).checked_sub(1) != Some(k) {
        return None;
    }
    Some(text::part::get_or(memo, 2 * h + 1, 0))
}

// Puts a place of module k into slot h.
pub fn put(memo: &mut [usize], h: usize, k: usize, p: usize)
    requires { (h < slots) × ((k ≤ 128) × (2 * h + 1 < length memo.old)) }
    ensures { memo.new ≡ set (set memo.old (2 * h) (k + 1)) (2 * h + 1) p }
{
    memo[2 * h] = k + 1;
    memo[2 * h + 1] = p;
}
