// The type search over the job and its index (the Rust's `find_by_type`): the way to the first instance of a type, and the calls counted.
#![tactic(auto)]

ghost use Rattle.std.specs.Prelude.{◌≡◌, true, false, ◌+◌, ◌-◌, ◌≤◌, ◌<◌};
ghost use Rattle.jobindex.specs.Index.{module_row};
ghost use Rattle.design.specs.Search.{search_from, search_type};
ghost use Rattle.lookup.specs.Rows.{modules};
ghost use Rattle.search.specs.Found.{Searched, way_to, way_below};
ghost use Rattle.lookup.specs.Design.{modules_in};
ghost use Rattle.jobindex.specs.Modules.{module_in};

use jobindex::{Design, Span};

// The search would make more than 4,096 calls.
#[derive(Clone, Copy, Debug, PartialEq, Eq)]
pub struct TooMany;

// The way to an instance: its instance names, parts of the job.
#[derive(Clone, Copy)]
pub struct Way {
    pub count: usize,
    pub names: [Span; 33],
}

// What a search comes to: the calls made so far, and the way to the instance where one was found.
#[derive(Clone, Copy)]
pub struct Found {
    pub calls: usize,
    pub way: Option<Way>,
}

// The way to an instance of the name `name` at a depth.
fn found_at(depth: usize, name: Span) -> Way
    requires { depth < 33 }
    ensures { result ≡ way_to depth name }
{
    let way = Way {
        count: depth + 1,
        names: [Span { at: 0, len: 0 }; 33],
    };
    below(way, depth, name)
}

// A way that begins one instance further up.
fn below(mut w: Way, depth: usize, name: Span) -> Way
    requires { depth < 33 }
    ensures { result ≡ way_below w depth name }
{
    w.names[depth] = name;
    w
}

// The search from module k with `left` depths left, after `calls` calls.
#[tactic(auto, using(crate::proofs::Turns::starts, crate::proofs::Turns::turns))]
fn search_from(
    design: &Design,
    kind: &[u8],
    k: usize,
    left: usize,
    calls: usize,
) -> Result<Found, TooMany>
    requires { (design.now.count ≤ 128) × ((k ≤ 128) × ((left ≤ 33) × (calls ≤ 4096))) }
    ensures { Searched design.now.index.job.now (33 - left) calls (search_from (modules_in design.now) kind.now left (module_in design.now.index k)) result }
{
    if calls == 4096 {
        return Err(TooMany);
    }
    if left == 0 {
        return Ok(Found {
            calls: calls + 1,
            way: None,
        });
    }
    let mut made = calls + 1;
    let depth = 33 - left;
    let end = lookup::insts_end(design.index.rows, k);
    let mut at = lookup::insts_from(design.index.rows, k);
    while let Some(inst) = lines::next_inst(design.index.job, at, end) {
        let t = lines::part_of(design.index.job, inst.kind);
        if text::compare::same(t, kind) {
            return Ok(Found {
                calls: made,
                way: Some(found_at(depth, inst.name)),
            });
        }
        let Some(row) = lookup::module_named(design, t) else {
            at = inst.next;
            continue;
        };
        let f = search_from(design, kind, row, left - 1, made)?;
        if let Some(way) = f.way {
            return Ok(Found {
                calls: f.calls,
                way: Some(below(way, depth, inst.name)),
            });
        }
        made = f.calls;
        at = inst.next;
    }
    Ok(Found {
        calls: made,
        way: None,
    })
}

// The way from module k to the first instance of a type.
pub fn find_by_type(design: &Design, k: usize, kind: &[u8]) -> Result<Found, TooMany>
    requires { (design.now.count ≤ 128) × (k ≤ 128) }
    ensures { Searched design.now.index.job.now 0 0 (search_type (modules_in design.now) (module_in design.now.index k) kind.now) result }
{
    search_from(design, kind, k, 33, 0)
}
