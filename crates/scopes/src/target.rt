// Where a word moves the scope.
ghost use Rattle.std.specs.Prelude.{◌≡◌, ◌++◌, eqb, cond};
ghost use Rattle.spans.specs.Span.{bytes};
ghost use Rattle.model.specs.Scope.{moved as Scope·moved, entered as Scope·entered};
ghost use Rattle.model.specs.Up.{up_size};
ghost use Rattle.scopes.specs.Target.{Rooted, Targets};
ghost use Rattle.spans.specs.Memory.{memory};

use spans::span::{Memory, Span, first, is, size};

// How many bytes of a string stand before its last `/`; none where there is none.
fn up(mem: &Memory, s: Span) -> usize
    ensures { result ≡ up_size (bytes (memory mem.now) s) }
{
    let mut i = 0;
    let mut last = 0;
    let mut x = s;
    while let Some((b, t)) = first(mem, x) {
        last = later(last, i, b);
        i += 1;
        x = t;
    }
    last
}

// The place i where the byte is a `/`, else the place before.
fn later(last: usize, i: usize, b: u8) -> usize
    ensures { result ≡ cond (eqb b 47) i last }
{
    if b == b'/' {
        return i;
    }
    last
}

// A name behind a `/` is taken from the root, any other below the scope.
fn rooted(mem: &Memory, name: Span) -> Option<Span>
    ensures { Rooted (memory mem.now) name result }
{
    let (b, _) = first(mem, name)?;
    if b != b'/' {
        return None;
    }
    Some(Span {
        at: name.at + 1,
        len: name.len - 1,
    })
}

// Where set_scope goes.
pub fn moved<'a>(mem: &Memory<'a>, scope: Span, name: Span) -> Option<Span>
    ensures { Targets (memory mem.now) scope name (Scope·moved (bytes (memory mem.now) scope) (bytes (memory mem.now) name)) result }
{
    if is(mem, name, b".") {
        return Some(Span { at: 0, len: 0 });
    }
    if size(mem, name) == 0 {
        return Some(Span { at: 0, len: 0 });
    }
    if is(mem, name, b"..") {
        return Some(Span {
            at: scope.at,
            len: up(mem, scope),
        });
    }
    rooted(mem, name)
}

// Where load_upf goes with -scope.
pub fn entered<'a>(mem: &Memory<'a>, scope: Span, name: Span) -> Option<Span>
    ensures { Targets (memory mem.now) scope name (Scope·entered (bytes (memory mem.now) scope) (bytes (memory mem.now) name)) result }
{
    if is(mem, name, b".") {
        return Some(scope);
    }
    if is(mem, name, b"/") {
        return Some(scope);
    }
    rooted(mem, name)
}
