// Marks of retained entries, by the numbers of their paths: a path whose mark is not set is none of them.
ghost use Rattle.std.specs.Prelude.{◌≡◌, [], ◌++◌, ◌≤◌, length};
ghost use Rattle.names.specs.Name.{name_of};
ghost use Rattle.nametable.specs.Table.{table_names};
ghost use Rattle.design.specs.Lists.{is_in};
ghost use Rattle.design.specs.Paths.{dotted};
ghost use Rattle.walk.specs.Walk.{retained_paths};
ghost use Rattle.paths.specs.Pieces.{entries_below};
ghost use Rattle.pathnumber.specs.Number.{number};
ghost use Rattle.corrupt.specs.Marked.{mark_count, Marked};
ghost use Rattle.spans.specs.Memory.{memory};
ghost use Rattle.nametable.specs.Names.{names_in};

use names::name::Name;
use spans::span::Memory;
use text::part::Rows;

// Sets the marks of the first n entries of a table.
#[tactic(auto, using(crate::proofs::Marking::marking))]
pub fn mark(mem: &Memory, table: &Rows, marks: &mut [u8])
    requires { (table.now.n ≤ 65536) × (mark_count ≤ length marks.old) }
    ensures { Marked marks.new (names_in (memory mem.now) table.now) }
{
    for k in 0..table.n {
        let y = nametable::row(table.rows, k);
        let i = pathnumber::element_number(mem, y) % 32768;
        marks[i] = 1;
    }
}

// Whether the path of a module is one of the first n entries of a table, whose marks are asked first. `h` is the element's number.
pub fn retained(
    mem: &Memory,
    table: &Rows,
    below: bool,
    e: Name,
    elen: usize,
    h: usize,
    tail: &[u8],
    marks: &[u8],
) -> bool
    requires { (table.now.n ≤ 65536) × ((elen ≡ length (name_of (memory mem.now) e)) × ((h ≡ number 0 (dotted (name_of (memory mem.now) e))) × Marked marks.now (names_in (memory mem.now) table.now))) }
    ensures { result ≡ is_in (dotted (name_of (memory mem.now) e) ++ tail.now) (retained_paths [] (entries_below below (names_in (memory mem.now) table.now))) }
{
    let i = pathnumber::number_on(h, tail) % 32768;
    if text::part::peek(marks, i) == 0 {
        return false;
    }
    paths::entry::retained(mem, table, below, e, elen, tail)
}
