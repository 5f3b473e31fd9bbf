// A deed carried out: the row that it has, and each table with the record that it makes or changes.
#![tactic(auto)]

ghost use Rattle.std.specs.Prelude.{◌+◌, ◌*◌, ◌≤◌, ◌<◌, ◌^◌, ◌≡◌, false, length, set};
ghost use Rattle.store.specs.Rows.{Packs};
ghost use Rattle.deeds.specs.Deeds.{refused_by, rows_by, warnings_by, row_by, deed_put};

use made::Deed;
use store::row::{Row, put_row};
use store::state::{
    Domain, Few, Head, Isolation, Port, PortState, Retention, Shifter, Switch, Table, Variables,
};
use store::stored::{Stored, empty};

// Whether a reading limit is passed, where there are so many warnings.
pub fn refused(d: Deed, warnings: usize) -> bool
    ensures { result ≡ refused_by warnings d }
{
    match d {
        Deed::Full => true,
        Deed::Warning(_, _) => 256 <= warnings,
        _ => false,
    }
}

// The row of a deed, in the store behind `rows` others; a warning has none where there are 256.
pub fn put_deed(nums: &mut [u32], rows: usize, warnings: usize, d: Deed)
    requires { (rows < 1024) × ((16384 ≤ length nums.old) × Packs (row_by warnings d)) }
    ensures { nums.new ≡ deed_put nums.old rows warnings d }
{
    match d {
        Deed::Row(r) => put_row(nums, rows, r),
        Deed::Warning(kind, name) => {
            if warnings < 256 {
                let z = empty();
                let r = Row {
                    kind: kind,
                    scope: z,
                    name: name,
                    value: z,
                };
                put_row(nums, rows, r);
            }
        }
        _ => {}
    }
}

// How many rows there are with that of the deed.
pub fn rows_with(d: Deed, rows: usize) -> usize
    requires { rows + 1 < 2 ^ 64 }
    ensures { result ≡ rows_by d rows }
{
    match d {
        Deed::Warning(_, _) | Deed::Row(_) => rows + 1,
        _ => rows,
    }
}

// How many warnings there are with the deed.
pub fn warnings_with(d: Deed, warnings: usize) -> usize
    requires { refused_by warnings d ≡ false }
    ensures { result ≡ warnings_by d warnings }
{
    match d {
        Deed::Warning(_, _) => warnings + 1,
        _ => warnings,
    }
}

// A record more.
pub fn add<T: Copy>(s: Few<T>, x: T) -> Few<T>
    requires { s.n < 32 }
    ensures { result ≡ record { n = s.n + 1; all = set s.all s.n x } }
{
    let mut t = s;
    t.all[t.n] = x;
    t.n += 1;
    t
}

// A variable more: four numbers.
pub fn add_variable(s: Variables, name: Stored, value: Stored) -> Variables
    requires { s.n < 64 }
    ensures { result ≡ record { n = s.n + 1; all = set (set (set (set s.all (4 * s.n) name.at) (4 * s.n + 1) name.len) (4 * s.n + 2) value.at) (4 * s.n + 3) value.len } }
{
    let mut t = s;
    let k = t.n;
    t.all[4 * k] = name.at;
    t.all[4 * k + 1] = name.len;
    t.all[4 * k + 2] = value.at;
    t.all[4 * k + 3] = value.len;
    t.n = k + 1;
    t
}

// Record i anew.
pub fn replace<T: Copy>(s: Few<T>, i: usize, x: T) -> Few<T>
    requires { i < 32 }
    ensures { result ≡ record { n = s.n; all = set s.all i x } }
{
    let mut t = s;
    t.all[i] = x;
    t
}

// Another design top.
pub fn with_top(s: Head, top: Option<Stored>) -> Head
    ensures { result ≡ record { scope = s.scope; top = top } }
{
    Head { top: top, ..s }
}
