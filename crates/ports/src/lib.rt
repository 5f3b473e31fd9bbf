// The ports of a module and the names that it can lose, over the job and its index (the Rust's `output_ports`, `input_ports` and the names
// that `corruptible` pushes). Names come one after the other, each as a part of the job; a cursor is where the next one is looked for.
#![tactic(auto)]

ghost use Rattle.std.specs.Prelude.{◌≡◌, Bool, ◌≤◌};
ghost use Rattle.ports.specs.declared.Cursor.TheVariants as cursor;
ghost use Rattle.ports.specs.Cursors.{ports_from, header_end, decls_from, decls_end, FreshSeen, BodyAt, CursorAt, AmongPorts, OutputSeen, CandidateSeen, InputSeen};

use body::Pick;
use jobindex::{Index, Span};

pub mod body;
pub mod header;

// A name, and where the next one is looked for.
#[derive(Clone, Copy)]
pub struct NameAt {
    pub name: Span,
    pub next: usize,
}

// Where the next name of a module is looked for: in the header (`out`: the last direction is output), among the body ports, among the
// other declarations.
#[derive(Clone, Copy)]
pub enum Cursor {
    Header { at: usize, out: bool },
    Body { at: usize },
    Signals { at: usize },
}

// A name, and the cursor behind it.
#[derive(Clone, Copy)]
pub struct Step {
    pub name: Span,
    pub next: Cursor,
}

// Where the port lines of module k begin.
fn ports_from(index: &[u32], k: usize) -> usize
    requires { k ≤ 128 }
    ensures { result ≡ ports_from index.now k }
{
    text::part::place(index, 128 + 8 * k + 3)
}

// Where the header ports of module k end: only style ansi has any.
#[tactic(auto, using(crate::proofs::Turns::head_cases))]
fn header_end(index: &[u32], k: usize) -> usize
    requires { k ≤ 128 }
    ensures { result ≡ header_end index.now k }
{
    if text::part::num(index, 128 + 8 * k + 2) == 0 {
        return text::part::place(index, 128 + 8 * k + 4);
    }
    text::part::place(index, 128 + 8 * k + 3)
}

// Where the declaration lines of module k begin.
fn decls_from(index: &[u32], k: usize) -> usize
    requires { k ≤ 128 }
    ensures { result ≡ decls_from index.now k }
{
    text::part::place(index, 128 + 8 * k + 4)
}

// Where they end.
fn decls_end(index: &[u32], k: usize) -> usize
    requires { k ≤ 128 }
    ensures { result ≡ decls_end index.now k }
{
    text::part::place(index, 128 + 8 * k + 5)
}

// The next body port of module k that is an output and stands neither in the header nor before `at` in the body.
#[tactic(auto, using(crate::proofs::Turns::fresh_turns))]
fn next_fresh(index: &Index, k: usize, at: usize) -> Option<NameAt>
    requires { (k ≤ 128) × BodyAt index.now.job.now index.now.rows.now k at }
    ensures { FreshSeen index.now.job.now index.now.rows.now k at result }
{
    let p = ports_from(index.rows, k);
    let h = header_end(index.rows, k);
    let d = decls_from(index.rows, k);
    let e = decls_end(index.rows, k);
    let mut i = at;
    while let Some(own) = body::next_of(index.job, i, e, Pick::Output) {
        let n = lines::part_of(index.job, own.name);
        if header::is_output(index.job, p, h, n) {
            i = own.next;
            continue;
        }
        if body::is_of(index.job, d, i, Pick::Output, n) {
            i = own.next;
            continue;
        }
        return Some(own);
    }
    None
}

// Before the first name of module k.
pub fn first(index: &[u32], k: usize) -> Cursor
    requires { k ≤ 128 }
    ensures { result ≡ cursor.Header (ports_from index.now k) Bool.false }
{
    Cursor::Header {
        at: ports_from(index, k),
        out: false,
    }
}

// The next output port among the body ports.
#[tactic(auto, using(crate::proofs::Turns::fresh_steps))]
fn body_output(index: &Index, k: usize, at: usize) -> Option<Step>
    requires { (k ≤ 128) × BodyAt index.now.job.now index.now.rows.now k at }
    ensures { OutputSeen index.now.job.now index.now.rows.now k (cursor.Body at) result }
{
    let own = next_fresh(index, k, at)?;
    Some(Step {
        name: own.name,
        next: Cursor::Body { at: own.next },
    })
}

// The next output port of module k: those of the header, then the new ones of the body.
#[tactic(auto, using(crate::proofs::Turns::output_steps))]
pub fn next_output(index: &Index, k: usize, c: Cursor) -> Option<Step>
    requires { (k ≤ 128) × CursorAt index.now.job.now index.now.rows.now k c }
    ensures { OutputSeen index.now.job.now index.now.rows.now k c result }
{
    match c {
        Cursor::Header { at, out } => {
            match header::next_output(index.job, at, header_end(index.rows, k), out) {
                None => body_output(index, k, decls_from(index.rows, k)),
                Some(own) => Some(Step {
                    name: own.name,
                    next: Cursor::Header {
                        at: own.next,
                        out: true,
                    },
                }),
            }
        }
        Cursor::Body { at } => body_output(index, k, at),
        Cursor::Signals { .. } => None,
    }
}

// The next `net` or `data` name of module k without dimensions, from a declaration on. One function for this and for `body_input` would take the names
// picked and the cursor's variant, and be no plainer.
#[tactic(auto, using(crate::proofs::Turns::signal_steps))]
fn next_signal(index: &Index, k: usize, at: usize) -> Option<Step>
    requires { k ≤ 128 }
    ensures { CandidateSeen index.now.job.now index.now.rows.now k (cursor.Signals at) result }
{
    let own = body::next_of(index.job, at, decls_end(index.rows, k), Pick::Signal)?;
    Some(Step {
        name: own.name,
        next: Cursor::Signals { at: own.next },
    })
}

// The next output port or signal of module k.
#[tactic(auto, using(crate::proofs::Turns::candidate_steps))]
pub fn next_candidate(index: &Index, k: usize, c: Cursor) -> Option<Step>
    requires { (k ≤ 128) × CursorAt index.now.job.now index.now.rows.now k c }
    ensures { CandidateSeen index.now.job.now index.now.rows.now k c result }
{
    match c {
        Cursor::Signals { at } => next_signal(index, k, at),
        Cursor::Header { .. } | Cursor::Body { .. } => next_or_signal(index, k, c),
    }
}

// The next output port of module k from a cursor among its ports; its first signal where there is none.
#[tactic(auto, using(crate::proofs::Turns::port_steps))]
fn next_or_signal(index: &Index, k: usize, c: Cursor) -> Option<Step>
    requires { (k ≤ 128) × (CursorAt index.now.job.now index.now.rows.now k c × AmongPorts c) }
    ensures { CandidateSeen index.now.job.now index.now.rows.now k c result }
{
    match next_output(index, k, c) {
        None => next_signal(index, k, decls_from(index.rows, k)),
        Some(own) => Some(own),
    }
}

// The next non-output port among the body ports.
#[tactic(auto, using(crate::proofs::Turns::input_bodies))]
fn body_input(index: &Index, k: usize, at: usize) -> Option<Step>
    requires { k ≤ 128 }
    ensures { InputSeen index.now.job.now index.now.rows.now k (cursor.Body at) result }
{
    let own = body::next_of(index.job, at, decls_end(index.rows, k), Pick::Other)?;
    Some(Step {
        name: own.name,
        next: Cursor::Body { at: own.next },
    })
}

// The next non-output port of module k, header and body, from the first cursor or one that this function gave.
#[tactic(auto, using(crate::proofs::Turns::input_steps))]
pub fn next_input(index: &Index, k: usize, c: Cursor) -> Option<Step>
    requires { k ≤ 128 }
    ensures { InputSeen index.now.job.now index.now.rows.now k c result }
{
    match c {
        Cursor::Header { at, .. } => match header::next_other(
            index.job,
            at,
            header_end(index.rows, k),
        ) {
            None => body_input(index, k, decls_from(index.rows, k)),
            Some(own) => Some(Step {
                name: own.name,
                next: Cursor::Header {
                    at: own.next,
                    out: false,
                },
            }),
        },
        Cursor::Body { at } => body_input(index, k, at),
        Cursor::Signals { .. } => None,
    }
}
