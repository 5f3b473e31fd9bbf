// A table of stored names in lent numbers. A row has five: where the scope begins and its length, where the word begins and its length, and
// twice the form (a word 0, an entry 1, a quoted entry 2), and one more where a slash stands between the two.
#![tactic(auto)]

ghost use Rattle.std.specs.Prelude.{◌≡◌, ◌+◌, ◌*◌, ◌≤◌, ◌<◌, length};
ghost use Rattle.nametable.specs.Table.{form_at, sep_at, bit_of, tag_of, row_name, row_put, Stores};

use names::name::{Form, Name};
use spans::span::Span;
use text::part::{num, place};

// The form that a number stands for.
fn form_of(tag: u32) -> Form
    ensures { result ≡ form_at tag }
{
    if tag < 2 {
        return Form::Word;
    }
    if tag < 4 {
        return Form::Entry;
    }
    Form::Quoted
}

// Whether a slash stands behind the scope.
fn sep_of(tag: u32) -> bool
    ensures { result ≡ sep_at tag }
{
    tag == 1 || (tag == 3 || tag == 5)
}

// The name of row k.
#[tactic(auto, using(crate::proofs::Rows::reads))]
pub fn row(table: &[u32], k: usize) -> Name
    requires { k ≤ 65536 }
    ensures { result ≡ row_name table.now k }
{
    let i = 5 * k;
    let tag = num(table, i + 4);
    Name {
        scope: Span {
            at: place(table, i),
            len: place(table, i + 1),
        },
        sep: sep_of(tag),
        word: Span {
            at: place(table, i + 2),
            len: place(table, i + 3),
        },
        form: form_of(tag),
    }
}

// The number that a form and a slash are stored as.
#[tactic(auto, using(crate::proofs::Rows::tags))]
fn tag_of(form: Form, sep: bool) -> u32
    ensures { result ≡ tag_of form sep }
{
    let b = u32::from(sep);
    match form {
        Form::Word => b,
        Form::Entry => 2 + b,
        Form::Quoted => 4 + b,
    }
}

// Puts a name into row k.
pub fn put_row(table: &mut [u32], k: usize, n: Name)
    requires { (k ≤ 65536) × ((5 * k + 5 ≤ length table.old) × Stores n) }
    ensures { table.new ≡ row_put table.old k n }
{
    let i = 5 * k;
    let tag = tag_of(n.form, n.sep);
    table[i] = n.scope.at as u32;
    table[i + 1] = n.scope.len as u32;
    table[i + 2] = n.word.at as u32;
    table[i + 3] = n.word.len as u32;
    table[i + 4] = tag;
}
