// The walk over the table of a job's modules (the Rust's `corruptible`, and the part of `generate` that calls it): the paths that a domain loses, each
// one time, in the order in which they are reached. Paths are relative to the scope.
#![tactic(auto)]

ghost use Rattle.std.specs.Prelude.{[], ◌++◌, map, ◌+◌, ◌≤◌, ◌<◌, ◌^◌, length};
ghost use Rattle.jobindex.specs.Index.{module_row};
ghost use Rattle.lookup.specs.Rows.{modules};
ghost use Rattle.modtable.specs.Table.{names_of};
ghost use Rattle.names.specs.Name.{name_of};
ghost use Rattle.nametable.specs.Table.{table_names};
ghost use Rattle.design.specs.Lists.{add_all};
ghost use Rattle.design.specs.Paths.{dotted};
ghost use Rattle.walk.specs.Walk.{domain_list, domain_entered};
ghost use Rattle.paths.specs.Pieces.{entries_below};
ghost use Rattle.listing.specs.Listing.{paths_of, Ready, Answer};
ghost use Rattle.corrupt.specs.Corrupt.{OwnGiven, Given, DomainGiven, Stemmed, Walked};
ghost use Rattle.corrupt.specs.Marked.{Marked};
ghost use Rattle.spans.specs.Memory.{memory};
ghost use Rattle.nametable.specs.Names.{names_in};
ghost use Rattle.lookup.specs.Design.{modules_in};
ghost use Rattle.jobindex.specs.Modules.{module_in};

use jobindex::Design;
use listing::{TooMany, Walk};
use names::name::Name;
use spans::span::Memory;
use text::part::Rows;

mod marks;

// Puts a dot behind a module's path, where it is not empty: what is below it begins there.
#[tactic(auto, using(crate::proofs::OwnNames::stems))]
fn stem(tail: &mut [u8], elen: usize, t: usize) -> usize
    requires { (elen < 2 ^ 36) × (t < length tail.old) }
    ensures { Stemmed elen t tail.old tail.new result }
{
    if elen + t == 0 {
        return t;
    }
    tail[t] = b'.';
    t + 1
}

// The names that module k loses itself, below the element and the tail; the module is counted. `h` is the element's number.
#[tactic(auto, using(crate::proofs::OwnNames::owns))]
fn own(
    job: &[u8],
    table: &[u32],
    k: usize,
    mem: &Memory,
    e: Name,
    elen: usize,
    h: usize,
    tail: &[u8],
    prefix: usize,
    text: &mut [u8],
    ends: &mut [u32],
    s: Walk,
) -> Result<Walk, TooMany>
    requires { OwnGiven job.now table.now k (memory mem.now) e elen h tail.now × Ready prefix s text.old ends.old }
    ensures { Answer prefix (s.entered + 1) (add_all (paths_of text.old ends.old s.count) (map (λ n. dotted (name_of (memory mem.now) e) ++ (tail.now ++ n)) (names_of job.now table.now k))) result text.new ends.new }
{
    if s.entered == 4096 {
        return Err(TooMany);
    }
    let mut w = Walk {
        entered: s.entered + 1,
        ..s
    };
    let number = pathnumber::number_on(h, tail);
    let z = modtable::name_count(table, k);
    for i in 0..z {
        let n = modtable::name(job, table, k, i);
        w = listing::add(mem, e, elen, tail, n, number, prefix, text, ends, w)?;
    }
    Ok(w)
}

// The walk from module k, whose path is the element and the first t bytes of the tail, with `left` instances more to go down. `h` is the element's number.
fn corruptible(
    job: &[u8],
    table: &[u32],
    k: usize,
    left: usize,
    mem: &Memory,
    retained: &Rows,
    below: bool,
    e: Name,
    elen: usize,
    h: usize,
    tail: &mut [u8],
    t: usize,
    prefix: usize,
    text: &mut [u8],
    ends: &mut [u32],
    s: Walk,
    marks: &[u8],
) -> Result<Walk, TooMany>
    requires { Given job.now table.now k left (memory mem.now) retained.now.n e elen h t × ((2081 ≤ length tail.old) × (Ready prefix s text.old ends.old × Marked marks.now (names_in (memory mem.now) retained.now))) }
    ensures { Walked job.now table.now k left (memory mem.now) (entries_below below (names_in (memory mem.now) retained.now)) e tail.old tail.new t prefix s.entered (paths_of text.old ends.old s.count) result text.new ends.new }
{
    if marks::retained(
        mem,
        retained,
        below,
        e,
        elen,
        h,
        text::part::part(tail, 0, t),
        marks,
    ) {
        return Ok(s);
    }
    let u = stem(tail, elen, t);
    let mut w = own(
        job,
        table,
        k,
        mem,
        e,
        elen,
        h,
        text::part::part(tail, 0, u),
        prefix,
        text,
        ends,
        s,
    )?;
    if left == 0 {
        return Ok(w);
    }
    let z = modtable::way_count(table, k);
    for j in 0..z {
        let v = out::emit::put(tail, u, modtable::way_name(job, table, k, j));
        w = corruptible(
            job,
            table,
            modtable::way_row(table, k, j),
            left - 1,
            mem,
            retained,
            below,
            e,
            elen,
            h,
            tail,
            v,
            prefix,
            text,
            ends,
            w,
            marks,
        )?;
    }
    Ok(w)
}

// What `domain_paths` does, with the marks of the retained entries.
fn marked_paths(
    design: &Design,
    k: usize,
    table: &[u32],
    mem: &Memory,
    retained: &Rows,
    below: bool,
    elements: &Rows,
    prefix: usize,
    tail: &mut [u8],
    text: &mut [u8],
    ends: &mut [u32],
    stamp: u32,
    marks: &[u8],
) -> Result<Walk, TooMany>
    requires { DomainGiven design.now.index.job.now design.now.index.rows.now design.now.count k table.now mem.now.files.now mem.now.area.now retained.now.n elements.now.n prefix tail.old text.old ends.old × Marked marks.now (names_in (memory mem.now) retained.now) }
    ensures { Answer prefix (domain_entered (modules_in design.now) (module_in design.now.index k) [] (entries_below below (names_in (memory mem.now) retained.now)) (names_in (memory mem.now) elements.now)) (domain_list (modules_in design.now) (module_in design.now.index k) [] (entries_below below (names_in (memory mem.now) retained.now)) (names_in (memory mem.now) elements.now)) result text.new ends.new }
{
    let mut w = listing::start(stamp);
    for i in 0..elements.n {
        let e = nametable::row(elements.rows, i);
        let Some(row) = elements::element_module(design, k, mem, e) else {
            continue;
        };
        let elen = paths::entry::size(mem, e);
        let h = pathnumber::element_number(mem, e);
        w = corruptible(
            design.index.job,
            table,
            row,
            32,
            mem,
            retained,
            below,
            e,
            elen,
            h,
            tail,
            0,
            prefix,
            text,
            ends,
            w,
            marks,
        )?;
    }
    Ok(w)
}

// The paths that a domain loses, whose elements are the names of `elements` and are looked up from module k. `retained` are the entries kept;
// `below` says that the scope is not the top, and `prefix` what its path adds to each path. `stamp` tells the flags of
// this walk from those of the walks before it.
#[tactic(auto, using(crate::proofs::Marking::empties))]
pub fn domain_paths(
    design: &Design,
    k: usize,
    table: &[u32],
    mem: &Memory,
    retained: &Rows,
    below: bool,
    elements: &Rows,
    prefix: usize,
    tail: &mut [u8],
    text: &mut [u8],
    ends: &mut [u32],
    stamp: u32,
) -> Result<Walk, TooMany>
    requires { DomainGiven design.now.index.job.now design.now.index.rows.now design.now.count k table.now mem.now.files.now mem.now.area.now retained.now.n elements.now.n prefix tail.old text.old ends.old }
    ensures { Answer prefix (domain_entered (modules_in design.now) (module_in design.now.index k) [] (entries_below below (names_in (memory mem.now) retained.now)) (names_in (memory mem.now) elements.now)) (domain_list (modules_in design.now) (module_in design.now.index k) [] (entries_below below (names_in (memory mem.now) retained.now)) (names_in (memory mem.now) elements.now)) result text.new ends.new }
{
    if retained.n == 0 {
        return marked_paths(
            design, k, table, mem, retained, below, elements, prefix, tail, text, ends, stamp, b"",
        );
    }
    let mut marks = [0u8; 32768];
    marks::mark(mem, retained, &mut marks);
    marked_paths(
        design, k, table, mem, retained, below, elements, prefix, tail, text, ends, stamp, &marks,
    )
}
