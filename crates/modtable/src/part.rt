// A part of the job in two numbers.
ghost use Rattle.std.specs.Prelude.{◌≡◌, ◌+◌, ◌≤◌, ◌<◌, length};
ghost use Rattle.modtable.specs.Table.{low_of, part_put};

use jobindex::Span;

// A place of the job, or a length, in 32 bits: those past the end of every job are one.
#[tactic(auto, using(crate::proofs::Numbers::lows))]
pub fn low(x: usize) -> u32
    ensures { result ≡ low_of x }
{
    u32::try_from(x).unwrap_or(u32::MAX)
}

// A part of the job into the numbers at p.
pub fn put_part(table: &mut [u32], p: usize, s: Span)
    requires { (p ≤ 73984) × (p + 1 < length table.old) }
    ensures { table.new ≡ part_put table.old p s }
{
    table[p] = low(s.at);
    table[p + 1] = low(s.len);
}
