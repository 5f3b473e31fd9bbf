// The scope of the power intent over the job and its index: the parts of an override, and the module that a path leads to.
#![tactic(auto)]

ghost use Rattle.std.specs.Prelude.{◌≡◌, ◌+◌, ◌≤◌, ◌<◌, length, take, drop};
ghost use Rattle.text.specs.Scan.{before, Ends};
ghost use Rattle.jobindex.specs.Index.{module_row};
ghost use Rattle.design.specs.Lookup.{module_at};
ghost use Rattle.texts.specs.Scope.{override_parts, without_top};
ghost use Rattle.lookup.specs.Rows.{ModuleSeen, modules};
ghost use Rattle.search.specs.Found.{way_from};
ghost use Rattle.scope.specs.Parts.{parts as Parts·parts, separates, PartSeen};
ghost use Rattle.lookup.specs.Design.{modules_in};
ghost use Rattle.jobindex.specs.Modules.{module_in};

use jobindex::{Design, Span};
use search::Way;

// The scope's path: the parts of a text from a place on.
#[derive(Clone, Copy)]
pub struct ScopePath<'a> {
    pub over: &'a [u8],
    pub from: usize,
}

// A part of an override: where it begins, its length, and where the next one is looked for.
#[derive(Clone, Copy)]
pub struct PartAt {
    pub at: usize,
    pub len: usize,
    pub next: usize,
}

// Whether a byte parts the parts of an override.
fn is_separator(b: u8) -> bool
    ensures { result ≡ separates b }
{
    matches!(b, b'/' | b'.')
}

// The first separator from `at` on; the end where there is none.
fn part_end(over: &[u8], at: usize) -> usize
    requires { at ≤ length over.now }
    ensures { Ends (at + before separates (drop at over.now)) (length over.now) result }
{
    let after = &over[at..];
    at + after
        .iter()
        .position(|b| is_separator(*b))
        .unwrap_or(after.len())
}

// The next part of an override that is not empty.
pub fn next_part(over: &[u8], at: usize) -> Option<PartAt>
    ensures { PartSeen over.now at result }
{
    let after = text::part::rest(over, at);
    let skipped = after.iter().position(|b| !is_separator(*b))?;
    let begin = at + skipped;
    let end = part_end(over, begin);
    Some(PartAt {
        at: begin,
        len: end - begin,
        next: end,
    })
}

// Where the parts of an override begin without the top's own name in front.
#[tactic(auto, using(crate::proofs::Turns::tops))]
pub fn behind_top(over: &[u8], top: &[u8]) -> usize
    ensures { Parts·parts over.now result ≡ without_top top.now (override_parts over.now) }
{
    let Some(first) = next_part(over, 0) else {
        return 0;
    };
    if text::compare::same(text::part::part(over, first.at, first.len), top) {
        return first.next;
    }
    0
}

// The module below module k that the parts of an override from `at` on lead to.
#[tactic(auto, using(crate::proofs::Turns::alongs))]
pub fn module_along(design: &Design, k: usize, over: &[u8], at: usize) -> Option<usize>
    requires { (design.now.count ≤ 128) × (k < design.now.count) }
    ensures { ModuleSeen design.now.index.job.now design.now.index.rows.now design.now.count (module_at (modules_in design.now) (module_in design.now.index k) (Parts·parts over.now at)) result }
{
    let mut i = at;
    let mut row = k;
    while let Some(part) = next_part(over, i) {
        let name = text::part::part(over, part.at, part.len);
        row = lookup::module_below(design, row, name)?;
        i = part.next;
    }
    Some(row)
}

// The names of a way.
fn names_of(w: &Way) -> &[Span]
    ensures { result.now ≡ take w.now.count w.now.names }
{
    let names: &[Span] = &w.names;
    &names[..w.count.min(names.len())]
}

// The module below module k that the way of a type search leads to.
#[tactic(auto, using(crate::proofs::Turns::way_turns))]
pub fn module_found(design: &Design, k: usize, w: Way) -> Option<usize>
    requires { (design.now.count ≤ 128) × ((k < design.now.count) × (length w.names ≡ 33)) }
    ensures { ModuleSeen design.now.index.job.now design.now.index.rows.now design.now.count (module_at (modules_in design.now) (module_in design.now.index k) (way_from design.now.index.job.now 0 w)) result }
{
    let names = names_of(&w);
    let mut row = k;
    for name in names {
        row = lookup::module_below(design, row, lines::part_of(design.index.job, *name))?;
    }
    Some(row)
}
