// The modules of a job as a table, made once: the names that each loses, and the instances through which the walk goes down, with their modules.
// Module k has 578 numbers from 578 k on: how many names, and 192 names of two numbers, where it stands in the job and its length; then how many
// instances, and 64 of three numbers, those of its name and the number of its module.
#![tactic(auto)]

ghost use Rattle.std.specs.Prelude.{◌≡◌, ◌+◌, ◌≤◌};
ghost use Rattle.jobindex.specs.Index.{num as Index·num};
ghost use Rattle.modtable.specs.Table.{names_at, ways_at, name_in, way_name, way_place};

use jobindex::part_at;
use text::part::place;

pub mod inputs;
pub mod make;
pub mod part;

// How many names module k loses.
pub fn name_count(table: &[u32], k: usize) -> usize
    requires { k ≤ 128 }
    ensures { result ≡ Index·num table.now (names_at k) }
{
    place(table, 578 * k)
}

// Name i of module k.
pub fn name<'a>(job: &'a [u8], table: &[u32], k: usize, i: usize) -> &'a [u8]
    requires { (k ≤ 128) × (i ≤ 192) }
    ensures { result.now ≡ name_in job.now table.now k i }
{
    part_at(job, table, 578 * k + 1 + 2 * i)
}

// Through how many instances of module k the walk goes down.
pub fn way_count(table: &[u32], k: usize) -> usize
    requires { k ≤ 128 }
    ensures { result ≡ Index·num table.now (ways_at k) }
{
    place(table, 578 * k + 385)
}

// The name of instance j.
pub fn way_name<'a>(job: &'a [u8], table: &[u32], k: usize, j: usize) -> &'a [u8]
    requires { (k ≤ 128) × (j ≤ 64) }
    ensures { result.now ≡ way_name job.now table.now k j }
{
    part_at(job, table, 578 * k + 386 + 3 * j)
}

// The number of its module.
pub fn way_row(table: &[u32], k: usize, j: usize) -> usize
    requires { (k ≤ 128) × (j ≤ 64) }
    ensures { result ≡ Index·num table.now (way_place k j + 2) }
{
    place(table, 578 * k + 386 + 3 * j + 2)
}
