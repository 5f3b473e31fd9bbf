// The fields of records.
ghost use Rattle.std.specs.Prelude.{◌≡◌};
ghost use Rattle.out.specs.Text.{Writes};
ghost use Rattle.dump.specs.Fields.{number_text, flag_text, stored_text, below_text, maybe_text, maybe_below_text};

use out::emit::Text;
use store::stored::{Below, Stored};

// A number and a space behind it.
pub fn number(to: &mut Text, n: u64)
    ensures { Writes to.old (number_text n) to.new }
{
    to.decimal(n);
    to.put(b" ")
}

pub fn flag(to: &mut Text, b: bool)
    ensures { Writes to.old (flag_text b) to.new }
{
    if b {
        return to.put(b"1 ");
    }
    to.put(b"0 ")
}

// Where a string lies, and its length.
pub fn stored(to: &mut Text, s: Stored)
    ensures { Writes to.old (stored_text s) to.new }
{
    number(to, s.at as u64);
    number(to, s.len as u64)
}

// The scope, then the word below it.
pub fn below(to: &mut Text, b: Below)
    ensures { Writes to.old (below_text b) to.new }
{
    stored(to, b.scope);
    stored(to, b.word)
}

// A value that may not be given.
pub fn maybe(to: &mut Text, m: Option<Stored>)
    ensures { Writes to.old (maybe_text m) to.new }
{
    match m {
        None => to.put(b"- "),
        Some(s) => stored(to, s),
    }
}

// A name that may not be given. It writes, so that a `From` is no plainer.
pub fn maybe_below(to: &mut Text, m: Option<Below>)
    ensures { Writes to.old (maybe_below_text m) to.new }
{
    match m {
        None => to.put(b"- "),
        Some(b) => below(to, b),
    }
}
