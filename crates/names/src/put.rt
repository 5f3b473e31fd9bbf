// Names written.
ghost use Rattle.std.specs.Prelude.{◌≡◌, ◌++◌};
ghost use Rattle.spans.specs.Span.{bytes};
ghost use Rattle.out.specs.Text.{Writes};
ghost use Rattle.out.specs.Bytewise.{becomes as Bytewise·becomes, flat as Bytewise·flat, dotted as Bytewise·dotted};
ghost use Rattle.names.specs.Name.{entry_of, slash, name_of};
ghost use Rattle.spans.specs.Memory.{memory};

use super::name::{Form, Name, Stream, alone, stands};
use out::bytewise::Mode;
use out::emit::Text;
use spans::span::{Memory, Span};
use text::part::part;

// Writes a name byte by byte in one of the modes of `becomes`.
fn put_stream(to: &mut Text, m: Mode, mem: &Memory, n: Name)
    ensures { Writes to.old (Bytewise·flat (Bytewise·becomes m) (name_of (memory mem.now) n)) to.new }
{
    let left = n;
    for b in (Stream { mem, left }) {
        to.becomes(m, b);
    }
}

// Writes a slice in one of the modes of `becomes`.
fn put_slice(to: &mut Text, m: Mode, p: &[u8])
    ensures { Writes to.old (Bytewise·flat (Bytewise·becomes m) p.now) to.new }
{
    match m {
        Mode::Same => to.put(p),
        _ => to.flat(m, p),
    }
}

// Writes a string in one of the modes of `becomes`: what lies in the files, then what lies in the area.
fn put_across(to: &mut Text, m: Mode, mem: &Memory, s: Span)
    ensures { Writes to.old (Bytewise·flat (Bytewise·becomes m) (bytes (memory mem.now) s)) to.new }
{
    let p = part(mem.files, s.at, s.len);
    put_slice(to, m, p);
    let k = s.len.saturating_sub(mem.files.len().saturating_sub(s.at));
    let j = s.at.saturating_sub(mem.files.len());
    let q = part(mem.area, j, k);
    put_slice(to, m, q)
}

// Writes a string in one of the modes of `becomes`; most lie wholly in the files.
pub fn put_span(to: &mut Text, m: Mode, mem: &Memory, s: Span)
    ensures { Writes to.old (Bytewise·flat (Bytewise·becomes m) (bytes (memory mem.now) s)) to.new }
{
    if s.len == 0 {
        return;
    }
    if s.len <= mem.files.len().saturating_sub(s.at) {
        return put_slice(to, m, part(mem.files, s.at, s.len));
    }
    put_across(to, m, mem, s)
}

// Writes a word or an entry in one of the modes of `becomes`.
fn put_formed(to: &mut Text, m: Mode, mem: &Memory, w: Span, form: Form)
    ensures { Writes to.old (Bytewise·flat (Bytewise·becomes m) (entry_of form (bytes (memory mem.now) w))) to.new }
{
    if stands(form) {
        return put_span(to, m, mem, w);
    }
    put_stream(to, m, mem, alone(w, form))
}

// Writes what stands behind the scope.
fn put_behind(to: &mut Text, m: Mode, mem: &Memory, n: Name)
    ensures { Writes to.old (Bytewise·flat (Bytewise·becomes m) (slash n.sep ++ entry_of n.form (bytes (memory mem.now) n.word))) to.new }
{
    if n.sep {
        to.becomes(m, b'/');
        return put_formed(to, m, mem, n.word, n.form);
    }
    put_formed(to, m, mem, n.word, n.form)
}

// Writes a name in one of the modes of `becomes`.
pub fn put_mapped(to: &mut Text, m: Mode, mem: &Memory, n: Name)
    ensures { Writes to.old (Bytewise·flat (Bytewise·becomes m) (name_of (memory mem.now) n)) to.new }
{
    put_span(to, m, mem, n.scope);
    put_behind(to, m, mem, n)
}

// Writes a name as it is.
#[tactic(auto, using(crate::proofs::Written::modes))]
pub fn put_name(to: &mut Text, mem: &Memory, n: Name)
    ensures { Writes to.old (name_of (memory mem.now) n) to.new }
{
    put_mapped(to, Mode::Same, mem, n)
}

// Writes a name with `/` as `.`.
#[tactic(auto, using(crate::proofs::Written::modes))]
pub fn put_dotted(to: &mut Text, mem: &Memory, n: Name)
    ensures { Writes to.old (Bytewise·dotted (name_of (memory mem.now) n)) to.new }
{
    put_mapped(to, Mode::Dotted, mem, n)
}
