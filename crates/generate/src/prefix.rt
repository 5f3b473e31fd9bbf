// What the scope's path adds to each path below it.
ghost use Rattle.std.specs.Prelude.{◌≤◌, length};
ghost use Rattle.generate.specs.Steps.{Prefixed};

use scope::next_part;

// The bytes of the scope's path and a dot; nothing at the top.
pub fn prefix(path: &[u8], from: usize) -> usize
    requires { length path.now ≤ 65536 }
    ensures { Prefixed path.now from result }
{
    let mut n = 0;
    let mut i = from;
    while let Some(part) = next_part(path, i) {
        n += text::part::part(path, part.at, part.len).len() + 1;
        i = part.next;
    }
    n
}
