// One path, in its pieces: compared and written.
ghost use Rattle.std.specs.Prelude.{◌≡◌, ◌++◌};
ghost use Rattle.text.specs.Compare.{same as Compare·same};
ghost use Rattle.names.specs.Name.{name_of};
ghost use Rattle.design.specs.Paths.{dotted};
ghost use Rattle.out.specs.Emit.{◌▸◌, emit};
ghost use Rattle.paths.specs.Pieces.{Sized};
ghost use Rattle.spans.specs.Memory.{memory};

use names::name::Name;
use out::emit::Text;
use spans::span::Memory;
use text::compare::same;
use text::part::part;

// Whether a path is `row`. Its length, its name and its tail are looked at before the element.
pub fn is_path(mem: &Memory, e: Name, elen: usize, tail: &[u8], name: &[u8], row: &[u8]) -> bool
    requires { Sized (memory mem.now) e elen tail.now name.now }
    ensures { result ≡ Compare·same (dotted (name_of (memory mem.now) e) ++ (tail.now ++ name.now)) row.now }
{
    let at = elen + tail.len();
    if row.len() != at + name.len() {
        return false;
    }
    if !same(name, part(row, at, name.len())) {
        return false;
    }
    if !same(tail, part(row, elen, tail.len())) {
        return false;
    }
    names::compare::is_dotted(mem, e, part(row, 0, elen))
}

// Writes a path.
pub fn put_path(
    text: &mut [u8],
    at: usize,
    mem: &Memory,
    e: Name,
    tail: &[u8],
    name: &[u8],
) -> usize
    ensures { text.new ▸ result ≡ emit (text.old ▸ at) (dotted (name_of (memory mem.now) e) ++ (tail.now ++ name.now)) }
{
    let mut to = Text::over(text, at);
    names::put::put_dotted(&mut to, mem, e);
    to.put(tail);
    to.put(name);
    to.end()
}
