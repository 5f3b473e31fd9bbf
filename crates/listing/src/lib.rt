// The paths that a walk lists: one behind the other in a lent text, with their ends in lent numbers; behind the ends stand flags, one of which gets the
// walk's stamp for each listed path, by the path's number. A path is added where the list does not have it yet, within the limits of a domain's walk.
#![tactic(auto)]

ghost use Rattle.std.specs.Prelude.{◌≡◌, [], ◌∷◌, ◌++◌, ◌-◌, ◌≤◌, length, get_or};
ghost use Rattle.jobindex.specs.Index.{section};
ghost use Rattle.text.specs.Compare.{same};
ghost use Rattle.names.specs.Name.{name_of};
ghost use Rattle.design.specs.Lists.{is_in, add_new};
ghost use Rattle.design.specs.Paths.{dotted};
ghost use Rattle.paths.specs.Pieces.{Sized};
ghost use Rattle.pathnumber.specs.Number.{number as Number·number};
ghost use Rattle.listing.specs.Listing.{paths_of, flag_place, Flagged, nowhere, Ready, NewGiven, Answer, Apart};
ghost use Rattle.spans.specs.Memory.{memory};

use names::name::Name;
use spans::span::Memory;
use text::part::{num, part, peek, place};

// The paths that were listed: one behind the other in a text, with the ends of n.
#[derive(Clone, Copy)]
pub struct PathList<'a> {
    pub text: &'a [u8],
    pub ends: &'a [u32],
    pub n: usize,
}

// A limit of a domain's walk is passed.
#[derive(Clone, Copy, Debug, PartialEq, Eq)]
pub struct TooMany;

// How far a walk has come: the modules entered, the number of its paths, where the last one ends, and the bytes of all with what the scope's path
// adds to each; and what it sets flags to.
#[derive(Clone, Copy)]
pub struct Walk {
    pub entered: usize,
    pub count: usize,
    pub end: usize,
    pub used: usize,
    pub stamp: u32,
}

// Before the first module.
pub fn start(stamp: u32) -> Walk
    ensures { result ≡ nowhere stamp }
{
    Walk {
        entered: 0,
        count: 0,
        end: 0,
        used: 0,
        stamp,
    }
}

// Whether another byte than `last` surely stands in the text before `end`: then no path that ends in `last` is a row that ends there. Most names of a
// module end in different bytes. Not `refs::end_apart`, which is asked of two slices: here the byte is taken once for all rows.
#[tactic(auto, using(crate::proofs::Rows::aparts))]
fn ends_apart(last: u8, text: &[u8], end: usize) -> bool
    ensures { Apart last text.now end result }
{
    if end == 0 || text.len() < end {
        return false;
    }
    text[end - 1] != last
}

// Whether a path, whose name ends in `last`, is the row of the text from `at` to `end`.
#[tactic(auto, using(crate::proofs::Rows::rows))]
fn is_row(
    mem: &Memory,
    e: Name,
    elen: usize,
    tail: &[u8],
    name: &[u8],
    last: u8,
    text: &[u8],
    at: usize,
    end: usize,
) -> bool
    requires { Sized (memory mem.now) e elen tail.now name.now × (last ≡ get_or name.now (length name.now - 1) 0) }
    ensures { result ≡ same (dotted (name_of (memory mem.now) e) ++ (tail.now ++ name.now)) (section text.now at end) }
{
    if name.len() != 0 && ends_apart(last, text, end) {
        return false;
    }
    let row = part(text, at, end.saturating_sub(at));
    paths::path::is_path(mem, e, elen, tail, name, row)
}

// Whether a path is one of the first `count` of the list. A function of its own, so that its loop has the registers to itself.
#[inline(never)]
#[tactic(auto, using(crate::proofs::Adds::lefts))]
fn listed(
    mem: &Memory,
    e: Name,
    elen: usize,
    tail: &[u8],
    name: &[u8],
    text: &[u8],
    ends: &[u32],
    count: usize,
) -> bool
    requires { Sized (memory mem.now) e elen tail.now name.now × (count ≤ length ends.now) }
    ensures { result ≡ is_in (dotted (name_of (memory mem.now) e) ++ (tail.now ++ name.now)) (paths_of text.now ends.now count) }
{
    let last = peek(name, name.len().saturating_sub(1));
    let mut at = 0;
    for k in 0..count {
        let end = place(ends, k);
        if is_row(mem, e, elen, tail, name, last, text, at, end) {
            return true;
        }
        at = end;
    }
    false
}

// The same, where the flags may be asked first: a path whose flag has not the stamp is not listed.
#[tactic(auto, using(crate::proofs::Adds::flags))]
fn flagged(
    mem: &Memory,
    e: Name,
    elen: usize,
    tail: &[u8],
    name: &[u8],
    flag: usize,
    stamp: u32,
    text: &[u8],
    ends: &[u32],
    count: usize,
) -> bool
    requires { Sized (memory mem.now) e elen tail.now name.now × ((count ≤ length ends.now) × ((flag ≡ flag_place (dotted (name_of (memory mem.now) e) ++ (tail.now ++ name.now))) × Flagged stamp ends.now (paths_of text.now ends.now count))) }
    ensures { result ≡ is_in (dotted (name_of (memory mem.now) e) ++ (tail.now ++ name.now)) (paths_of text.now ends.now count) }
{
    num(ends, flag) == stamp && listed(mem, e, elen, tail, name, text, ends, count)
}

// The list with a path behind it that it does not have.
#[tactic(auto, using(crate::proofs::Adds::news))]
fn add_new(
    mem: &Memory,
    e: Name,
    elen: usize,
    tail: &[u8],
    name: &[u8],
    flag: usize,
    prefix: usize,
    text: &mut [u8],
    ends: &mut [u32],
    s: Walk,
) -> Result<Walk, TooMany>
    requires { NewGiven (memory mem.now) e elen tail.now name.now flag prefix s text.old ends.old }
    ensures { Answer prefix s.entered (paths_of text.old ends.old s.count ++ ((dotted (name_of (memory mem.now) e) ++ (tail.now ++ name.now)) ∷ [])) result text.new ends.new }
{
    let count = s.count;
    let stamp = s.stamp;
    if count == 1024 {
        return Err(TooMany);
    }
    let len = elen + (tail.len() + name.len());
    let used = s.used + (prefix + len);
    if 32768 < used {
        return Err(TooMany);
    }
    let from = s.end;
    let end = from + len;
    paths::path::put_path(text, from, mem, e, tail, name);
    ends[count] = end as u32;
    ends[flag] = stamp;
    Ok(Walk {
        entered: s.entered,
        count: count + 1,
        end,
        used,
        stamp,
    })
}

// The list with a path behind it, where the list does not have it yet. `prefix` is what the scope's path adds to each path; `number` is that of the path
// without its name.
#[tactic(auto, using(crate::proofs::Adds::adds, crate::proofs::Adds::adds_new))]
pub fn add(
    mem: &Memory,
    e: Name,
    elen: usize,
    tail: &[u8],
    name: &[u8],
    number: usize,
    prefix: usize,
    text: &mut [u8],
    ends: &mut [u32],
    s: Walk,
) -> Result<Walk, TooMany>
    requires { Sized (memory mem.now) e elen tail.now name.now × ((number ≡ Number·number 0 (dotted (name_of (memory mem.now) e) ++ tail.now)) × Ready prefix s text.old ends.old) }
    ensures { Answer prefix s.entered (add_new (paths_of text.old ends.old s.count) (dotted (name_of (memory mem.now) e) ++ (tail.now ++ name.now))) result text.new ends.new }
{
    let flag = 1024 + pathnumber::number_on(number, name) % 16384;
    let count = s.count;
    let stamp = s.stamp;
    if flagged(mem, e, elen, tail, name, flag, stamp, text, ends, count) {
        return Ok(s);
    }
    add_new(mem, e, elen, tail, name, flag, prefix, text, ends, s)
}
