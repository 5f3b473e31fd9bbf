// Stored strings: spans in half the room.
ghost use Rattle.std.specs.Prelude.{◌≡◌, ◌+◌, ◌<◌, ◌^◌};
ghost use Rattle.store.specs.Strings.{span_of, stored_of, no_string, maybe_found, below_found, found_or, found_else};
ghost use Rattle.args.specs.View.{found_end};

use spans::span::Span;

// A string: where it begins in the files followed by the area, and its length.
#[derive(Clone, Copy, Default)]
pub struct Stored {
    pub at: u32,
    pub len: u32,
}

// A name below a scope: the scope of the moment and the word.
#[derive(Clone, Copy, Default)]
pub struct Below {
    pub scope: Stored,
    pub word: Stored,
}

// The empty string.
pub fn empty() -> Stored
    ensures { result ≡ no_string }
{
    Stored { at: 0, len: 0 }
}

// A span, stored. `From` has no place for what is asked here, and by `TryFrom` each caller would handle an error that cannot come.
pub fn narrow(s: Span) -> Stored
    requires { s.at + s.len < 2 ^ 32 }
    ensures { result ≡ stored_of s }
{
    Stored {
        at: s.at as u32,
        len: s.len as u32,
    }
}

// A stored string as a span.
impl From<Stored> for Span {
    ghost from_gives = { λ s r. r ≡ span_of s };

    fn from(s: Stored) -> Span {
        Span {
            at: s.at as usize,
            len: s.len as usize,
        }
    }
}

// What was looked for, stored. This and the next three name what the library's methods give, and what is asked for it.
pub fn as_maybe(f: Option<Span>) -> Option<Stored>
    requires { found_end f < 2 ^ 32 }
    ensures { result ≡ maybe_found f }
{
    f.map(narrow)
}

// The same below a scope.
pub fn maybe_below(scope: Stored, f: Option<Span>) -> Option<Below>
    requires { found_end f < 2 ^ 32 }
    ensures { result ≡ below_found scope f }
{
    as_maybe(f).map(|word| Below {
        scope: scope,
        word: word,
    })
}

// What was looked for, empty where it is not there.
pub fn or_empty(f: Option<Span>) -> Stored
    requires { found_end f < 2 ^ 32 }
    ensures { result ≡ found_or f }
{
    as_maybe(f).unwrap_or(empty())
}

// What is given, or what stood there.
pub fn given(f: Option<Span>, old: Option<Stored>) -> Option<Stored>
    requires { found_end f < 2 ^ 32 }
    ensures { result ≡ found_else f old }
{
    as_maybe(f).or(old)
}
