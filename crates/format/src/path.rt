// The scope's path, written: the parts of an override from a place on.
ghost use Rattle.std.specs.Prelude.{◌≡◌, ◌++◌};
ghost use Rattle.out.specs.Text.{Writes};
ghost use Rattle.out.specs.Bytewise.{flat as Bytewise·flat, becomes as Bytewise·becomes, dotted};
ghost use Rattle.design.specs.Paths.{scope_path, element_path};
ghost use Rattle.texts.specs.Supplies.{unrooted};
ghost use Rattle.scope.specs.Parts.{parts};
ghost use Rattle.refs.specs.Text.{text_of, as_dots};
ghost use Rattle.refs.specs.Heads.{is_there};
ghost use Rattle.format.specs.Args.{led, behind_top, rooted};
ghost use Rattle.spans.specs.Memory.{memory};
ghost use Rattle.scope.specs.Path.{path_of};

use super::source::Source;
use out::bytewise::Mode;
use out::emit::Text;
use refs::{Ref, dot, has_bytes};
use scope::{ScopePath, next_part};
use text::part::part;

// Writes a slice byte by byte.
fn put_each(to: &mut Text, m: Mode, dots: bool, p: &[u8])
    ensures { Writes to.old (Bytewise·flat (Bytewise·becomes m) (as_dots dots p.now)) to.new }
{
    for &b in p {
        to.becomes(m, dot(dots, b));
    }
}

// Writes a slice in one of the modes of `becomes`, with `/` as `.` where dots are wanted.
#[tactic(auto, using(crate::proofs::Scopes::wholes))]
pub fn put_slice(to: &mut Text, m: Mode, dots: bool, p: &[u8])
    ensures { Writes to.old (Bytewise·flat (Bytewise·becomes m) (as_dots dots p.now)) to.new }
{
    if dots {
        return put_each(to, m, dots, p);
    }
    match m {
        Mode::Same => to.put(p),
        _ => to.flat(m, p),
    }
}

// Writes each part with a byte before it.
pub fn put_parts(to: &mut Text, m: Mode, dots: bool, scope: &ScopePath, sep: u8)
    ensures { Writes to.old (Bytewise·flat (Bytewise·becomes m) (led sep dots (path_of scope.now))) to.new }
{
    let mut i = scope.from;
    while let Some(p) = next_part(scope.over, i) {
        to.becomes(m, sep);
        put_slice(to, m, dots, part(scope.over, p.at, p.len));
        i = p.next;
    }
}

// Writes the parts with a dot between them.
pub fn put_path(to: &mut Text, m: Mode, scope: &ScopePath)
    ensures { Writes to.old (Bytewise·flat (Bytewise·becomes m) (scope_path (path_of scope.now))) to.new }
{
    if let Some(p) = next_part(scope.over, scope.from) {
        put_slice(to, m, false, part(scope.over, p.at, p.len));
        put_parts(
            to,
            m,
            false,
            &ScopePath {
                over: scope.over,
                from: p.next,
            },
            b'.',
        )
    }
}

// Whether there is a part.
pub fn has_parts(scope: &ScopePath) -> bool
    ensures { result ≡ is_there (path_of scope.now) }
{
    next_part(scope.over, scope.from).is_some()
}

// Writes a name below the scope, with dots.
pub fn put_hier(to: &mut Text, m: Mode, src: &Source, r: Ref)
    ensures { Writes to.old (Bytewise·flat (Bytewise·becomes m) (element_path (path_of src.now.scope) (text_of src.now.design.index.job.now (memory src.now.mem) r))) to.new }
{
    put_path(to, m, &src.scope);
    if has_parts(&src.scope) & has_bytes(src.design.index.job, &src.mem, r) {
        to.becomes(m, b'.');
        return refs::put(to, m, true, src.design.index.job, &src.mem, r);
    }
    refs::put(to, m, true, src.design.index.job, &src.mem, r)
}

// Writes what stands behind the top in a path from the top on.
fn put_below(to: &mut Text, m: Mode, dots: bool, src: &Source, r: Ref)
    ensures { Writes to.old (Bytewise·flat (Bytewise·becomes m) (as_dots dots (behind_top (path_of src.now.scope) (text_of src.now.design.index.job.now (memory src.now.mem) r)))) to.new }
{
    put_parts(to, m, dots, &src.scope, dot(dots, b'/'));
    if has_bytes(src.design.index.job, &src.mem, r) {
        to.becomes(m, dot(dots, b'/'));
        return refs::put(to, m, dots, src.design.index.job, &src.mem, r);
    }
}

// Writes a name below the scope as a path from the top on, with slashes.
pub fn put_slashed(to: &mut Text, m: Mode, src: &Source, r: Ref)
    ensures { Writes to.old (Bytewise·flat (Bytewise·becomes m) (rooted src.now.top.now (path_of src.now.scope) (text_of src.now.design.index.job.now (memory src.now.mem) r))) to.new }
{
    to.becomes(m, b'/');
    put_slice(to, m, false, src.top);
    put_below(to, m, false, src, r)
}

// The same with dots, and none in front.
pub fn put_dots(to: &mut Text, m: Mode, src: &Source, r: Ref)
    ensures { Writes to.old (Bytewise·flat (Bytewise·becomes m) (dotted (unrooted (rooted src.now.top.now (path_of src.now.scope) (text_of src.now.design.index.job.now (memory src.now.mem) r))))) to.new }
{
    put_slice(to, m, true, src.top);
    put_below(to, m, true, src, r)
}
