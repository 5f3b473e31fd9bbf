// Instances below a module, found by the parts of a text: all of them, the empty ones too.
#![tactic(auto)]

ghost use Rattle.std.specs.Prelude.{◌+◌, ◌≤◌, ◌<◌, ◌^◌, ◌≡◌, ◌++◌, length};
ghost use Rattle.names.specs.Parts.{parts, first_part, behind};
ghost use Rattle.memo.specs.Known.{slots, Recalls, Asked, Begins};
ghost use Rattle.refs.specs.Text.{text_of};
ghost use Rattle.targets.specs.Off.{WordOff, begins_plain, TextOff};
ghost use Rattle.targets.specs.Seen.{SlashSeen, part_is, DownSeen, StepSeen, Sought, PlaceSeen};
ghost use Rattle.spans.specs.Memory.{memory};

use jobindex::{Design, Index, Span};
use names::name::Name;
use names::part::next_part;
use refs::{Ref, is_name, next, whole};
use spans::span::{Memory, Span as Word, first};

// A slash of a name: how many bytes stand up to it and with it, and what is left behind it.
#[derive(Clone, Copy)]
pub struct Slash {
    pub upto: usize,
    pub rest: Name,
}

// Whether the first part of a text is the one looked for: then it is the last, or there is more behind its slash.
// An option of an option is no plainer: its two `None` would have to be told apart by where they stand.
#[derive(Clone, Copy)]
pub enum Part {
    Other,
    Last,
    More(Ref),
}

// An instance: where the lines begin whose first instance it is, its module's name, where its connections begin, and whether its name is the last part.
#[derive(Clone, Copy)]
pub enum Down {
    Last {
        at: usize,
        kind: Span,
        conns: usize,
    },
    More {
        at: usize,
        kind: Span,
        size: usize,
        rest: Ref,
    },
}

// An instance: its parent's row, where its connections begin, its module's row, and how many bytes of the text stand before its name.
#[derive(Clone, Copy)]
pub struct Place {
    pub parent: usize,
    pub conns: usize,
    pub sub: usize,
    pub upto: usize,
}

// The last slash of a name.
#[tactic(auto, using(crate::proofs::Slashes::slashes))]
pub fn last_slash(mem: &Memory, e: Name) -> Option<Slash>
    requires { length mem.now.files.now + length mem.now.area.now < 2 ^ 32 }
    ensures { SlashSeen (memory mem.now) e result }
{
    let mut s = None;
    let mut x = e;
    let mut n = 0;
    while let Some((b, u)) = names::name::next(mem, x) {
        n += 1;
        x = u;
        if b == b'/' {
            s = Some(Slash { upto: n, rest: u });
            continue;
        }
    }
    s
}

// Whether the first part of a text is w, byte by byte.
#[tactic(auto, using(crate::proofs::Parted::takes))]
fn stepped_part(job: &[u8], mem: &Memory, r: Ref, w: &[u8]) -> Part
    ensures { part_is job.now (memory mem.now) result ≡ behind w.now (parts (text_of job.now (memory mem.now) r)) }
{
    let mut x = r;
    for own in w {
        let Some((b, u)) = next(job, mem, x) else {
            return Part::Other;
        };
        if b == b'/' {
            return Part::Other;
        }
        if b != *own {
            return Part::Other;
        }
        x = u;
    }
    let Some((b, u)) = next(job, mem, x) else {
        return Part::Last;
    };
    if b == b'/' {
        return Part::More(u);
    }
    Part::Other
}

// Whether a word, read in any form, surely is not w up to a slash: by a byte before which no backslash stands.
#[tactic(auto, using(crate::proofs::Off::goes))]
fn word_off(mem: &Memory, s: Word, w: &[u8]) -> bool
    ensures { WordOff (memory mem.now) s w.now result }
{
    let mut x = s;
    for own in w {
        let Some((b, u)) = first(mem, x) else {
            return false;
        };
        if (b == b'\\') | (b == b'/') {
            return false;
        }
        if b != *own {
            return true;
        }
        x = u;
    }
    false
}

// Whether a text begins with a word.
fn begins_plain(r: Ref) -> bool
    ensures { result ≡ begins_plain r }
{
    (!r.cut) & ((r.name.scope.len == 0) & (!r.name.sep))
}

// Whether the first part of a text surely is not w.
#[tactic(auto, using(crate::proofs::Off::texts))]
fn text_off(mem: &Memory, r: Ref, w: &[u8]) -> bool
    ensures { TextOff (memory mem.now) r w.now result }
{
    if !begins_plain(r) {
        return false;
    }
    word_off(mem, r.name.word, w)
}

// Whether the first part of a text is w.
#[tactic(auto, using(crate::proofs::Parted::names, crate::proofs::Off::offs))]
fn first_part(job: &[u8], mem: &Memory, r: Ref, w: &[u8]) -> Part
    ensures { part_is job.now (memory mem.now) result ≡ behind w.now (parts (text_of job.now (memory mem.now) r)) }
{
    if !is_name(r) {
        if text_off(mem, r, w) {
            return Part::Other;
        }
        return stepped_part(job, mem, r, w);
    }
    match next_part(mem, r.name, w) {
        names::part::Part::Same(x) => Part::More(whole(x)),
        names::part::Part::Last => Part::Last,
        names::part::Part::Other => Part::Other,
    }
}

// The slot of the memo for the first part of a text in module k.
#[tactic(auto, using(crate::proofs::Turns::slotted))]
fn slot(job: &[u8], mem: &Memory, k: usize, r: Ref) -> usize
    ensures { result < slots }
{
    let mut x = r;
    let mut h = k;
    while let Some((b, u)) = next(job, mem, x) {
        if b == b'/' {
            break;
        }
        h = h % 16777216 * 31 + b as usize;
        x = u;
    }
    h % 128
}

// Where to begin to look for the first part of a text in module k: at an instance of that name, where the memo has it.
#[tactic(auto, using(crate::proofs::Turns::lookups))]
fn begin(index: &Index, k: usize, mem: &Memory, r: Ref, memo: &[usize], h: usize) -> usize
    requires { Asked index.now.job.now index.now.rows.now memo.now k h }
    ensures { Begins index.now.job.now index.now.rows.now k (first_part (parts (text_of index.now.job.now (memory mem.now) r))) result }
{
    let from = lookup::insts_from(index.rows, k);
    let Some(at) = memo::place_in(memo, h, k) else {
        return from;
    };
    let Some(inst) = lines::next_inst(index.job, at, lookup::insts_end(index.rows, k)) else {
        return from;
    };
    match first_part(index.job, mem, r, lines::part_of(index.job, inst.name)) {
        Part::Last => at,
        Part::More(_) => at,
        Part::Other => from,
    }
}

// The first instance of module k whose name is the first part of a text, dimensions not looked at; none of that name is before `from`.
#[tactic(auto, using(crate::proofs::Turns::downs))]
fn instance_at(index: &Index, k: usize, mem: &Memory, r: Ref, from: usize) -> Option<Down>
    requires { Begins index.now.job.now index.now.rows.now k (first_part (parts (text_of index.now.job.now (memory mem.now) r))) from }
    ensures { DownSeen index.now.job.now index.now.rows.now k (memory mem.now) (text_of index.now.job.now (memory mem.now) r) result }
{
    let end = lookup::insts_end(index.rows, k);
    let mut at = from;
    while let Some(inst) = lines::next_inst(index.job, at, end) {
        let kind = inst.kind;
        let w = lines::part_of(index.job, inst.name);
        match first_part(index.job, mem, r, w) {
            Part::Last => {
                return Some(Down::Last {
                    at,
                    kind,
                    conns: inst.next,
                });
            }
            Part::More(rest) => {
                return Some(Down::More {
                    at,
                    kind,
                    size: w.len(),
                    rest,
                });
            }
            Part::Other => at = inst.next,
        }
    }
    None
}

// The same with a memo, which then has the instance, where more parts stand behind its name. A module of few lines is looked through without it.
#[tactic(auto, using(crate::proofs::Turns::steps))]
fn step_down(index: &Index, k: usize, mem: &Memory, r: Ref, memo: &mut [usize]) -> Option<Down>
    requires { Recalls index.now.job.now index.now.rows.now memo.old k }
    ensures { StepSeen index.now.job.now index.now.rows.now k (memory mem.now) (text_of index.now.job.now (memory mem.now) r) result memo.new }
{
    let first = lookup::insts_from(index.rows, k);
    if lookup::insts_end(index.rows, k).saturating_sub(first) < 512 {
        return instance_at(index, k, mem, r, first);
    }
    let h = slot(index.job, mem, k, r);
    let from = begin(index, k, mem, r, memo, h);
    let d = instance_at(index, k, mem, r, from)?;
    let Down::More { at, .. } = d else {
        return Some(d);
    };
    memo::put(memo, h, k, at);
    Some(d)
}

// The instance that the parts of a text lead to from module k, with a memo.
#[tactic(auto, using(crate::proofs::Turns::seeks))]
fn find_by(design: &Design, k: usize, mem: &Memory, r: Ref, memo: &mut [usize]) -> Option<Place>
    requires { Sought design.now.index.job.now design.now.index.rows.now design.now.count k (text_of design.now.index.job.now (memory mem.now) r) memo.old }
    ensures { PlaceSeen design.now.index.job.now design.now.index.rows.now design.now.count k (text_of design.now.index.job.now (memory mem.now) r) result }
{
    let mut m = k;
    let mut x = r;
    let mut upto = 0;
    while let Some(d) = step_down(&design.index, m, mem, x, memo) {
        match d {
            Down::Last { kind, conns, .. } => {
                let part = lines::part_of(design.index.job, kind);
                let row = lookup::module_named(design, part)?;
                return Some(Place {
                    parent: m,
                    conns,
                    sub: row,
                    upto,
                });
            }
            Down::More {
                kind,
                size,
                rest,
                ..
            } => {
                let part = lines::part_of(design.index.job, kind);
                m = lookup::module_named(design, part)?;
                x = rest;
                upto = upto + size + 1;
            }
        }
    }
    None
}

// The instance that the parts of a text lead to from module k.
pub fn find_instance(design: &Design, k: usize, mem: &Memory, r: Ref) -> Option<Place>
    requires { (design.now.count ≤ 128) × ((k < design.now.count) × (length (text_of design.now.index.job.now (memory mem.now) r) < 2 ^ 63)) }
    ensures { PlaceSeen design.now.index.job.now design.now.index.rows.now design.now.count k (text_of design.now.index.job.now (memory mem.now) r) result }
{
    let mut memo = [0usize; 256];
    find_by(design, k, mem, r, &mut memo)
}
