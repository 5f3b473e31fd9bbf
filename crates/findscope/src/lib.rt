// The scope of the power intent over the job and its index (checks 7 and 8): the override, or the way to an instance of the design top.
#![tactic(auto)]

ghost use Rattle.std.specs.Prelude.{◌≡◌, ◌++◌, ◌≤◌, ◌<◌, length, Some};
ghost use Rattle.text.specs.Ascii.{ascii};
ghost use Rattle.out.specs.Emit.{◌▸◌, emit};
ghost use Rattle.out.specs.Text.{Writes};
ghost use Rattle.out.specs.Items.{joined};
ghost use Rattle.jobindex.specs.Index.{module_row, job_of};
ghost use Rattle.lines.specs.Cursors.{spanned};
ghost use Rattle.lookup.specs.Rows.{modules};
ghost use Rattle.search.specs.Found.{way_from};
ghost use Rattle.store.specs.Strings.{maybe_of};
ghost use Rattle.texts.specs.Scope.{scope_along, scope_of, path_to, by_design_top, without_top, override_parts};
ghost use Rattle.texts.specs.Scope.Path.{along};
ghost use Rattle.findscope.specs.Scopes.{path_text, number_of, topmost, Tells, Told, Taken, Whole, most_way};
ghost use Rattle.spans.specs.Memory.{memory};
ghost use Rattle.jobindex.specs.Modules.{module_in};

use jobindex::{Design, Header, Index};
use out::emit::Text;
use search::Way;
use spans::span::Memory;
use store::stored::Stored;

// Why there is no scope.
#[derive(PartialEq, Eq, Clone, Copy, Debug)]
pub enum NoScope {
    // No instance is of the design top's type.
    NoInstance,
    // The path leads to no listed module.
    NoModule,
    // The search for an instance would make too many calls.
    TooMany,
}

impl NoScope {
    // The number that the refusal has.
    pub fn number(self) -> usize
        ensures { result ≡ number_of self }
    {
        match self {
            NoScope::NoInstance => 11,
            NoScope::NoModule => 12,
            NoScope::TooMany => 13,
        }
    }
}

// The scope: the row of its module, and its path. The parts of the path stand in the first `len` bytes of the lent way, or in the override, from `from` on.
#[derive(Clone, Copy)]
pub struct ScopeAt {
    pub row: usize,
    pub way: bool,
    pub from: usize,
    pub len: usize,
}

// The top itself.
fn top(row: usize) -> ScopeAt
    ensures { result ≡ topmost row }
{
    ScopeAt {
        row,
        way: true,
        from: 0,
        len: 0,
    }
}

// Writes the instance names of a way, joined by `sep`.
#[tactic(auto, using(crate::proofs::Turns::writing))]
fn put_way(to: &mut Text, job: &[u8], w: Way, sep: &[u8])
    requires { length w.names ≡ 33 }
    ensures { Writes to.old (joined sep.now (way_from job.now 0 w)) to.new }
{
    let n = w.count;
    for i in 0..n {
        if 33 <= i {
            return;
        }
        let name = w.names[i];
        to.unless(i, sep);
        to.put(lines::part_of(job, name));
    }
}

// Writes the instance names of a way to the lent one, joined by dots, and returns where they end.
fn write_way(way: &mut [u8], job: &[u8], w: Way) -> usize
    requires { length w.names ≡ 33 }
    ensures { way.new ▸ result ≡ emit (way.old ▸ 0) (joined (ascii ".") (way_from job.now 0 w)) }
{
    let mut to = Text::over(way, 0);
    put_way(&mut to, job, w, b".");
    to.end()
}

// By the override.
#[tactic(auto, using(crate::proofs::Turns::overriding))]
fn by_override(index: &Index, head: Header) -> Result<ScopeAt, NoScope>
    requires { Taken index.now.job.now index.now.rows.now head }
    ensures { Told index.now.job.now index.now.rows.now head (scope_along (modules index.now.job.now index.now.rows.now head.modules) (module_in index.now head.topmodule) (along (without_top (spanned index.now.job.now head.top) (override_parts (spanned index.now.job.now head.over))))) result }
{
    let over = lines::part_of(index.job, head.over);
    let from = scope::behind_top(over, lines::part_of(index.job, head.top));
    let Some(row) = scope::module_along(
        &Design {
            index: *index,
            count: head.modules,
        },
        head.topmodule,
        over,
        from,
    ) else {
        return Err(NoScope::NoModule);
    };
    Ok(ScopeAt {
        row,
        way: false,
        from,
        len: 0,
    })
}

// By the type of an instance.
#[tactic(auto, using(crate::proofs::Turns::typing))]
fn by_type(index: &Index, head: Header, kind: &[u8], way: &mut [u8]) -> Result<ScopeAt, NoScope>
    requires { Taken index.now.job.now index.now.rows.now head × (most_way ≤ length way.old) }
    ensures { Tells index.now.job.now index.now.rows.now head way.old way.new (scope_along (modules index.now.job.now index.now.rows.now head.modules) (module_in index.now head.topmodule) (path_to (modules index.now.job.now index.now.rows.now head.modules) (module_in index.now head.topmodule) kind.now)) result }
{
    match search::find_by_type(
        &Design {
            index: *index,
            count: head.modules,
        },
        head.topmodule,
        kind,
    ) {
        Err(_) => Err(NoScope::TooMany),
        Ok(f) => {
            let Some(found) = f.way else {
                return Err(NoScope::NoInstance);
            };
            let Some(row) = scope::module_found(
                &Design {
                    index: *index,
                    count: head.modules,
                },
                head.topmodule,
                found,
            ) else {
                return Err(NoScope::NoModule);
            };
            let n = write_way(way, index.job, found);
            Ok(ScopeAt {
                row,
                way: true,
                from: 0,
                len: n,
            })
        }
    }
}

// By a design top.
#[tactic(auto, using(crate::proofs::Turns::designing))]
fn by_design_top(
    index: &Index,
    head: Header,
    kind: &[u8],
    way: &mut [u8],
) -> Result<ScopeAt, NoScope>
    requires { Taken index.now.job.now index.now.rows.now head × (most_way ≤ length way.old) }
    ensures { Tells index.now.job.now index.now.rows.now head way.old way.new (scope_along (modules index.now.job.now index.now.rows.now head.modules) (module_in index.now head.topmodule) (by_design_top (modules index.now.job.now index.now.rows.now head.modules) (module_in index.now head.topmodule) (spanned index.now.job.now head.top) (Some kind.now))) result }
{
    if text::compare::same(kind, lines::part_of(index.job, head.top)) {
        return Ok(top(head.topmodule));
    }
    by_type(index, head, kind, way)
}

// The scope of a job whose commands set this design top. `way` is lent for the path to an instance of it.
#[tactic(auto, using(crate::proofs::Turns::scoping))]
pub fn find_scope<'a>(
    index: &Index,
    head: Header,
    mem: &Memory<'a>,
    t: Option<Stored>,
    way: &mut [u8],
) -> Result<ScopeAt, NoScope>
    requires { Taken index.now.job.now index.now.rows.now head × (Whole (length mem.now.files.now) t × (most_way ≤ length way.old)) }
    ensures { Tells index.now.job.now index.now.rows.now head way.old way.new (scope_of (job_of index.now.job.now index.now.rows.now head) (module_in index.now head.topmodule) (maybe_of (memory mem.now) t)) result }
{
    let over = lines::part_of(index.job, head.over);
    if over.len() != 0 {
        return by_override(index, head);
    }
    match t {
        None => Ok(top(head.topmodule)),
        Some(s) => by_design_top(
            index,
            head,
            lists::value(mem, spans::span::Span::from(s)),
            way,
        ),
    }
}

// The text that the parts of the scope's path stand in.
#[tactic(auto, using(crate::proofs::Turns::path_texts))]
pub fn path_text<'a>(job: &'a [u8], head: Header, way: &'a [u8], r: ScopeAt) -> &'a [u8]
    ensures { result.now ≡ path_text job.now head way.now r }
{
    let written = r.way;
    if written {
        return text::part::part(way, 0, r.len);
    }
    lines::part_of(job, head.over)
}
