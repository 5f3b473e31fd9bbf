// A template written with its arguments in their places: see the places of a template in `out`.
ghost use Rattle.std.specs.Prelude.{◌≡◌, true, [], ◌++◌, ◌≤◌, length, drop};
ghost use Rattle.out.specs.Text.{Writes};
ghost use Rattle.out.specs.Fill.{is_template, mark_text, fill as Fill·fill};
ghost use Rattle.scope.specs.Parts.{parts};
ghost use Rattle.format.specs.Args.{arg_of, mark_asks};
ghost use Rattle.spans.specs.Memory.{memory};
ghost use Rattle.scope.specs.Path.{path_of};

use super::arg::{Arg, Wrap, fixed, put as put_arg};
use super::source::Source;
use out::bytewise::Mode;
use out::emit::Text;
use out::template::{asked, mark_end, run_end};
use text::part::peek;

// What the mark at i asks for: how its argument is written, and that argument's number.
fn mark(t: &[u8], i: usize) -> Option<(Mode, usize)>
    requires { i ≤ length t.now }
    ensures { result ≡ mark_asks (drop i t.now) }
{
    if t.len() <= i {
        return None;
    }
    if t[i] == b'}' {
        return None;
    }
    let k = peek(t, i + 1);
    if k == b'{' {
        return None;
    }
    asked(k)
}

// What the mark at i adds where it is none of an argument: a brace, or nothing.
fn brace(to: &mut Text, t: &[u8], i: usize)
    requires { i ≤ length t.now }
    ensures { Writes to.old (mark_text (λ _. []) (drop i t.now)) to.new }
{
    if t.len() <= i {
        return;
    }
    if t[i] == b'}' {
        return to.byte(b'}');
    }
    let k = peek(t, i + 1);
    if k == b'{' {
        return to.byte(b'{');
    }
}

// Writes the template t with its five arguments in their places.
pub fn fill(to: &mut Text, t: &[u8], src: &Source, a: Arg, b: Arg, c: Arg, d: Arg, e: Arg)
    requires { is_template 5 t.now ≡ true }
    ensures { Writes to.old (Fill·fill t.now (arg_of src.now.design.index.job.now (memory src.now.mem) (path_of src.now.scope) src.now.top.now a) (arg_of src.now.design.index.job.now (memory src.now.mem) (path_of src.now.scope) src.now.top.now b) (arg_of src.now.design.index.job.now (memory src.now.mem) (path_of src.now.scope) src.now.top.now c) (arg_of src.now.design.index.job.now (memory src.now.mem) (path_of src.now.scope) src.now.top.now d) (arg_of src.now.design.index.job.now (memory src.now.mem) (path_of src.now.scope) src.now.top.now e)) to.new }
{
    write(to, t, src, a, b, c, d, e)
}

// The same of any text.
fn write(to: &mut Text, t: &[u8], src: &Source, a: Arg, b: Arg, c: Arg, d: Arg, e: Arg)
    ensures { Writes to.old (Fill·fill t.now (arg_of src.now.design.index.job.now (memory src.now.mem) (path_of src.now.scope) src.now.top.now a) (arg_of src.now.design.index.job.now (memory src.now.mem) (path_of src.now.scope) src.now.top.now b) (arg_of src.now.design.index.job.now (memory src.now.mem) (path_of src.now.scope) src.now.top.now c) (arg_of src.now.design.index.job.now (memory src.now.mem) (path_of src.now.scope) src.now.top.now d) (arg_of src.now.design.index.job.now (memory src.now.mem) (path_of src.now.scope) src.now.top.now e)) to.new }
{
    let all = [a, b, c, d, e];
    // Counted by hand: the place moves by a run's and a mark's length, so an iterator is no plainer.
    let mut i = 0;
    while i < t.len() {
        let z = run_end(t, i);
        let run = &t[i..z];
        to.put(run);
        i = mark_end(t, z);
        let Some((m, j)) = mark(t, z) else {
            brace(to, t, z);
            continue;
        };
        put_arg(to, m, src, all[j]);
    }
}

// With one argument. A name for each number of arguments: a clause can then name each argument.
pub fn fill1(to: &mut Text, t: &[u8], src: &Source, a: Arg)
    requires { is_template 1 t.now ≡ true }
    ensures { Writes to.old (Fill·fill t.now (arg_of src.now.design.index.job.now (memory src.now.mem) (path_of src.now.scope) src.now.top.now a) [] [] [] []) to.new }
{
    let z = fixed(Wrap::Plain);
    write(to, t, src, a, z, z, z, z)
}

// With two.
pub fn fill2(to: &mut Text, t: &[u8], src: &Source, a: Arg, b: Arg)
    requires { is_template 2 t.now ≡ true }
    ensures { Writes to.old (Fill·fill t.now (arg_of src.now.design.index.job.now (memory src.now.mem) (path_of src.now.scope) src.now.top.now a) (arg_of src.now.design.index.job.now (memory src.now.mem) (path_of src.now.scope) src.now.top.now b) [] [] []) to.new }
{
    let z = fixed(Wrap::Plain);
    write(to, t, src, a, b, z, z, z)
}

// With three.
pub fn fill3(to: &mut Text, t: &[u8], src: &Source, a: Arg, b: Arg, c: Arg)
    requires { is_template 3 t.now ≡ true }
    ensures { Writes to.old (Fill·fill t.now (arg_of src.now.design.index.job.now (memory src.now.mem) (path_of src.now.scope) src.now.top.now a) (arg_of src.now.design.index.job.now (memory src.now.mem) (path_of src.now.scope) src.now.top.now b) (arg_of src.now.design.index.job.now (memory src.now.mem) (path_of src.now.scope) src.now.top.now c) [] []) to.new }
{
    let z = fixed(Wrap::Plain);
    write(to, t, src, a, b, c, z, z)
}

// With four.
pub fn fill4(to: &mut Text, t: &[u8], src: &Source, a: Arg, b: Arg, c: Arg, d: Arg)
    requires { is_template 4 t.now ≡ true }
    ensures { Writes to.old (Fill·fill t.now (arg_of src.now.design.index.job.now (memory src.now.mem) (path_of src.now.scope) src.now.top.now a) (arg_of src.now.design.index.job.now (memory src.now.mem) (path_of src.now.scope) src.now.top.now b) (arg_of src.now.design.index.job.now (memory src.now.mem) (path_of src.now.scope) src.now.top.now c) (arg_of src.now.design.index.job.now (memory src.now.mem) (path_of src.now.scope) src.now.top.now d) []) to.new }
{
    let z = fixed(Wrap::Plain);
    write(to, t, src, a, b, c, d, z)
}
