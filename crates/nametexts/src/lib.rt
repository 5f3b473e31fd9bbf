// Templates filled with stored names.
#![tactic(auto)]

ghost use Rattle.std.specs.Prelude.{◌≡◌, true, [], ◌++◌};
ghost use Rattle.out.specs.Text.{Writes};
ghost use Rattle.out.specs.Fill.{is_template, fill};
ghost use Rattle.names.specs.Name.{name_of};
ghost use Rattle.spans.specs.Memory.{memory};

use format::arg::name as name_arg;
use format::source::Source;
use jobindex::{Design, Index};
use names::name::Name;
use out::emit::Text;
use scope::ScopePath;
use spans::span::Memory;

// Writes the template t with a name in its places.
pub fn fill1(to: &mut Text, t: &[u8], mem: &Memory, a: Name)
    requires { is_template 1 t.now ≡ true }
    ensures { Writes to.old (fill t.now (name_of (memory mem.now) a) [] [] [] []) to.new }
{
    format::fill::fill1(
        to,
        t,
        &Source {
            design: Design {
                index: Index {
                    job: mem.files,
                    rows: &[],
                },
                count: 0,
            },
            mem: *mem,
            scope: ScopePath {
                over: mem.files,
                from: 0,
            },
            top: mem.files,
        },
        name_arg(a),
    )
}

// With two names.
pub fn fill2(to: &mut Text, t: &[u8], mem: &Memory, a: Name, b: Name)
    requires { is_template 2 t.now ≡ true }
    ensures { Writes to.old (fill t.now (name_of (memory mem.now) a) (name_of (memory mem.now) b) [] [] []) to.new }
{
    format::fill::fill2(
        to,
        t,
        &Source {
            design: Design {
                index: Index {
                    job: mem.files,
                    rows: &[],
                },
                count: 0,
            },
            mem: *mem,
            scope: ScopePath {
                over: mem.files,
                from: 0,
            },
            top: mem.files,
        },
        name_arg(a),
        name_arg(b),
    )
}

// With three names.
pub fn fill3(to: &mut Text, t: &[u8], mem: &Memory, a: Name, b: Name, c: Name)
    requires { is_template 3 t.now ≡ true }
    ensures { Writes to.old (fill t.now (name_of (memory mem.now) a) (name_of (memory mem.now) b) (name_of (memory mem.now) c) [] []) to.new }
{
    format::fill::fill3(
        to,
        t,
        &Source {
            design: Design {
                index: Index {
                    job: mem.files,
                    rows: &[],
                },
                count: 0,
            },
            mem: *mem,
            scope: ScopePath {
                over: mem.files,
                from: 0,
            },
            top: mem.files,
        },
        name_arg(a),
        name_arg(b),
        name_arg(c),
    )
}
