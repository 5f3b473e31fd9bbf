// The arguments of a template.
ghost use Rattle.std.specs.Prelude.{◌≡◌, ◌++◌};
ghost use Rattle.out.specs.Text.{Writes};
ghost use Rattle.out.specs.Bytewise.{flat as Bytewise·flat, becomes as Bytewise·becomes};
ghost use Rattle.scope.specs.Parts.{parts};
ghost use Rattle.texts.specs.Literals.{literal};
ghost use Rattle.format.specs.Args.{arg_of, wrapped_arg, name_arg, hier_arg, fixed_arg};
ghost use Rattle.spans.specs.Memory.{memory};
ghost use Rattle.scope.specs.Path.{path_of};

use super::path::{put_dots, put_hier, put_slashed, put_slice};
use super::source::Source;
use names::name::Name;
use out::bytewise::Mode;
use out::emit::Text;
use refs::{Ref, of_job, whole};
use texts::Literal;

// How a text is an argument: as it is; below the scope with dots; as a path from the top on with slashes, or with dots. The top and a literal take no text.
#[derive(Clone, Copy)]
pub enum Wrap {
    Plain,
    Hier,
    Rooted,
    Dots,
    Top,
    Literal(Literal),
}

// A text in its wrap.
#[derive(Clone, Copy)]
pub struct Arg {
    pub wrap: Wrap,
    pub text: Ref,
}

// A stored name.
pub fn name(n: Name) -> Arg
    ensures { result ≡ name_arg n }
{
    Arg {
        wrap: Wrap::Plain,
        text: whole(n),
    }
}

// A name below the scope, with dots.
pub fn hier(n: Name) -> Arg
    ensures { result ≡ hier_arg n }
{
    Arg {
        wrap: Wrap::Hier,
        text: whole(n),
    }
}

// A text in one of the wraps.
pub fn wrapped(wrap: Wrap, r: Ref) -> Arg
    ensures { result ≡ wrapped_arg wrap r }
{
    Arg { wrap, text: r }
}

// The top, a literal, or the empty text in a wrap.
pub fn fixed(wrap: Wrap) -> Arg
    ensures { result ≡ fixed_arg wrap }
{
    Arg {
        wrap,
        text: of_job(0, 0),
    }
}

// Writes a literal.
fn put_literal(to: &mut Text, m: Mode, k: Literal)
    ensures { Writes to.old (Bytewise·flat (Bytewise·becomes m) (literal k)) to.new }
{
    match k {
        Literal::BitZero => to.flat(m, b"1'b0"),
        Literal::BitOne => to.flat(m, b"1'b1"),
        Literal::Zero => to.flat(m, b"0"),
        Literal::One => to.flat(m, b"1"),
        Literal::Z => to.flat(m, b"z"),
        Literal::High => to.flat(m, b"high"),
    }
}

// Writes an argument in one of the modes of `becomes`.
pub fn put(to: &mut Text, m: Mode, src: &Source, a: Arg)
    ensures { Writes to.old (Bytewise·flat (Bytewise·becomes m) (arg_of src.now.design.index.job.now (memory src.now.mem) (path_of src.now.scope) src.now.top.now a)) to.new }
{
    let r = a.text;
    match a.wrap {
        Wrap::Plain => refs::put(to, m, false, src.design.index.job, &src.mem, r),
        Wrap::Hier => put_hier(to, m, src, r),
        Wrap::Rooted => put_slashed(to, m, src, r),
        Wrap::Dots => put_dots(to, m, src, r),
        Wrap::Top => put_slice(to, m, false, src.top),
        Wrap::Literal(k) => put_literal(to, m, k),
    }
}
