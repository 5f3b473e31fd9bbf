// Rows of the store: connections, states of tables, warnings, in the order of the commands. Five numbers each; the first holds the kind and, of a
// connection, the scope, of a state, the number of its table.
ghost use Rattle.std.specs.Prelude.{◌≡◌, ◌+◌, ◌*◌, ◌≤◌, ◌<◌, length};
ghost use Rattle.store.specs.Rows.{Packs, row_put_lem, row_at};

use super::stored::Stored;
use text::part::num;

// A connection of the ports of `value` to the net `name`, both below `scope`; a state of table `scope.at` with its values; or a warning about `name`.
#[derive(Clone, Copy)]
pub struct Row {
    pub kind: u32,
    pub scope: Stored,
    pub name: Stored,
    pub value: Stored,
}

// Row k.
pub fn put_row(nums: &mut [u32], k: usize, r: Row)
    requires { (k < 1024) × ((16384 ≤ length nums.old) × Packs r) }
    ensures { nums.new ≡ row_put_lem nums.old k r }
{
    let i = 1472 + 5 * k;
    let s = r.scope;
    let n = r.name;
    let v = r.value;
    nums[i] = (s.at * 1024 + s.len) * 16 + r.kind;
    nums[i + 1] = n.at;
    nums[i + 2] = n.len;
    nums[i + 3] = v.at;
    nums[i + 4] = v.len;
}

// Row k.
#[tactic(auto, unfolding(crate::specs::Rows::row_at))]
pub fn row_at(nums: &[u32], k: usize) -> Row
    requires { k < 1024 }
    ensures { result ≡ row_at nums.now k }
{
    let i = 1472 + 5 * k;
    let code = num(nums, i);
    let scope = code / 16;
    Row {
        kind: code % 16,
        scope: Stored {
            at: scope / 1024,
            len: scope % 1024,
        },
        name: Stored {
            at: num(nums, i + 1),
            len: num(nums, i + 2),
        },
        value: Stored {
            at: num(nums, i + 3),
            len: num(nums, i + 4),
        },
    }
}
