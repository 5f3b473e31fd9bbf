// Retained entries: whether the path of a module is one of them.
ghost use Rattle.std.specs.Prelude.{◌≡◌, [], ◌++◌, ◌+◌, ◌≤◌, ◌<◌, ◌^◌, length};
ghost use Rattle.text.specs.Compare.{same};
ghost use Rattle.names.specs.Name.{name_of};
ghost use Rattle.nametable.specs.Table.{table_names};
ghost use Rattle.design.specs.Lists.{is_in};
ghost use Rattle.design.specs.Paths.{dotted};
ghost use Rattle.walk.specs.Walk.{retained_paths};
ghost use Rattle.paths.specs.Pieces.{entries_below};
ghost use Rattle.spans.specs.Memory.{memory};
ghost use Rattle.nametable.specs.Names.{names_in};

use names::compare::dot;
use names::name::{Name, Stream};
use spans::span::Memory;
use text::part::Rows;

// How many bytes a name has.
pub fn size(mem: &Memory, n: Name) -> usize
    requires { length mem.now.files.now + length mem.now.area.now < 2 ^ 32 }
    ensures { result ≡ length (name_of (memory mem.now) n) }
{
    let left = n;
    Stream { mem, left }.count()
}

// Whether the element e and the tail are the entry y, both with `/` as `.`.
fn is_entry(mem: &Memory, e: Name, tail: &[u8], y: Name) -> bool
    ensures { result ≡ same (dotted (name_of (memory mem.now) e) ++ tail.now) (dotted (name_of (memory mem.now) y)) }
{
    let element = Stream { mem, left: e }.map(dot);
    let entry = Stream { mem, left: y }.map(dot);
    element.chain(tail.iter().copied()).eq(entry)
}

// Whether the path of a module is one of the first n entries of a table. `below` says that the scope is not the top: an empty entry is no path then.
pub fn retained(mem: &Memory, table: &Rows, below: bool, e: Name, elen: usize, tail: &[u8]) -> bool
    requires { (table.now.n ≤ 65536) × (elen ≡ length (name_of (memory mem.now) e)) }
    ensures { result ≡ is_in (dotted (name_of (memory mem.now) e) ++ tail.now) (retained_paths [] (entries_below below (names_in (memory mem.now) table.now))) }
{
    if below & ((elen == 0) & (tail.len() == 0)) {
        return false;
    }
    for k in 0..table.n {
        let y = nametable::row(table.rows, k);
        if is_entry(mem, e, tail, y) {
            return true;
        }
    }
    false
}
