// The walk, exported for the comparison with the Rust. What a function answers besides its result stands behind the references.
#![tactic(auto)]

ghost use Rattle.std.specs.Prelude.{◌≡◌, [], ◌++◌, ◌+◌, ◌*◌, ◌≤◌, length};
ghost use Rattle.spans.specs.Span.{◌⋯◌};
ghost use Rattle.joblines.specs.Parse.{parse};
ghost use Rattle.jobindex.specs.Index.{index_size, module_row};
ghost use Rattle.lookup.specs.Rows.{modules as Rows·modules};
ghost use Rattle.modtable.specs.Table.{Tabled};
ghost use Rattle.modtable.specs.Making.{MakeGiven};
ghost use Rattle.names.specs.Name.{named};
ghost use Rattle.nametable.specs.Table.{row_put, Stores, table_names};
ghost use Rattle.walk.specs.Walk.{domain_list, domain_entered};
ghost use Rattle.paths.specs.Pieces.{entries_below};
ghost use Rattle.corrupt.specs.Corrupt.{DomainGiven};
ghost use Rattle.walkc.specs.Counted.{module_count, form_of, Walked};

use jobindex::{Design, Index};
use names::name::{Form, Name};
use spans::span::{Memory, Span};
use text::part::Rows;

// The number of modules of a job, 0 for one that is refused; `index` gets the index of a job that is accepted.
#[tactic(auto, using(crate::proofs::Telling::tells))]
pub fn walkc_index(job: &[u8], index: &mut [u32]) -> usize
    requires { index_size ≤ length index.old }
    ensures { result ≡ module_count (parse job.now) }
{
    match job::read_job(job, index) {
        Err(_) => 0,
        Ok(head) => head.modules,
    }
}

// Makes the table of the first `count` modules.
pub fn walkc_table(job: &[u8], index: &[u32], count: usize, inputs: &mut [u32], table: &mut [u32])
    requires { MakeGiven job.now index.now count inputs.old table.old }
    ensures { Tabled job.now index.now count table.new }
{
    modtable::make::make(
        &Design {
            index: Index { job, rows: index },
            count,
        },
        inputs,
        table,
    )
}

// The form that a number stands for.
#[tactic(auto, using(text::specs::Cases::cases))]
fn form_of(form: u8) -> Form
    ensures { result ≡ form_of form }
{
    match form {
        0 => Form::Word,
        2 => Form::Quoted,
        _ => Form::Entry,
    }
}

// Puts a name into row k of a table. C has the form as a number.
pub fn walkc_put(
    table: &mut [u32],
    k: usize,
    from: usize,
    size: usize,
    sep: bool,
    at: usize,
    len: usize,
    form: u8,
)
    requires { (k ≤ 65536) × ((5 * k + 5 ≤ length table.old) × Stores (named (from ⋯ size) sep (at ⋯ len) (form_of form))) }
    ensures { table.new ≡ row_put table.old k (named (from ⋯ size) sep (at ⋯ len) (form_of form)) }
{
    let n = Name {
        scope: Span {
            at: from,
            len: size,
        },
        sep,
        word: Span { at, len },
        form: form_of(form),
    };
    nametable::put_row(table, k, n)
}

// The paths that a domain loses: whether a limit is passed.
#[tactic(auto, using(crate::proofs::Telling::walks))]
pub fn walkc_paths(
    job: &[u8],
    index: &[u32],
    count: usize,
    k: usize,
    modules: &[u32],
    files: &[u8],
    area: &[u8],
    retained: &[u32],
    n: usize,
    below: bool,
    elements: &[u32],
    m: usize,
    prefix: usize,
    tail: &mut [u8],
    text: &mut [u8],
    ends: &mut [u32],
    entered: &mut usize,
    paths: &mut usize,
    end: &mut usize,
    used: &mut usize,
) -> bool
    requires { DomainGiven job.now index.now count k modules.now files.now area.now n m prefix tail.old text.old ends.old }
    ensures { Walked prefix (domain_entered (Rows·modules job.now index.now count) (module_row job.now index.now k) [] (entries_below below (table_names (files.now ++ area.now) retained.now n)) (table_names (files.now ++ area.now) elements.now m)) (domain_list (Rows·modules job.now index.now count) (module_row job.now index.now k) [] (entries_below below (table_names (files.now ++ area.now) retained.now n)) (table_names (files.now ++ area.now) elements.now m)) result entered.new paths.new end.new used.new text.new ends.new }
{
    let Ok(w) = corrupt::domain_paths(
        &Design {
            index: Index { job, rows: index },
            count,
        },
        k,
        modules,
        &Memory { files, area },
        &Rows { rows: retained, n },
        below,
        &Rows {
            rows: elements,
            n: m,
        },
        prefix,
        tail,
        text,
        ends,
        1,
    ) else {
        *entered = 0;
        *paths = 0;
        *end = 0;
        *used = 0;
        return true;
    };
    *entered = w.entered;
    *paths = w.count;
    *end = w.end;
    *used = w.used;
    false
}
