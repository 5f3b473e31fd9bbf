// Stored strings written, and templates filled with them.
#![tactic(auto)]

ghost use Rattle.std.specs.Prelude.{◌≡◌, true, [], ◌++◌};
ghost use Rattle.out.specs.Text.{Writes};
ghost use Rattle.out.specs.Fill.{is_template, fill};
ghost use Rattle.store.specs.Strings.{string};
ghost use Rattle.spans.specs.Memory.{memory};

use clamps::stored;
use names::put::put_name;
use out::emit::Text;
use spans::span::Memory;
use store::stored::Stored;

// Writes a stored string.
pub fn put(to: &mut Text, mem: &Memory, s: Stored)
    ensures { Writes to.old (string (memory mem.now) s) to.new }
{
    put_name(to, mem, stored(s))
}

// Writes the template t with a stored string in its places.
pub fn fill1(to: &mut Text, t: &[u8], mem: &Memory, s: Stored)
    requires { is_template 1 t.now ≡ true }
    ensures { Writes to.old (fill t.now (string (memory mem.now) s) [] [] [] []) to.new }
{
    nametexts::fill1(to, t, mem, stored(s))
}

// With two strings.
pub fn fill2(to: &mut Text, t: &[u8], mem: &Memory, s: Stored, u: Stored)
    requires { is_template 2 t.now ≡ true }
    ensures { Writes to.old (fill t.now (string (memory mem.now) s) (string (memory mem.now) u) [] [] []) to.new }
{
    nametexts::fill2(to, t, mem, stored(s), stored(u))
}
