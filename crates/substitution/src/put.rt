// Substitution into the area, up to a limit.
ghost use Rattle.std.specs.Prelude.{◌+◌, ◌≤◌, ◌<◌, ◌++◌, length, take, drop};
ghost use Rattle.spans.specs.Span.{bytes};
ghost use Rattle.spans.specs.Area.{Wrote};
ghost use Rattle.tcl.specs.Substitution.{image, substitute as Substitution·substitute};
ghost use Rattle.substitution.specs.Written.{written};
ghost use Rattle.substitution.specs.Piece.{IsPiece};
ghost use Rattle.substitution.specs.Stored.{variables};
ghost use Rattle.substitution.specs.Put.{Puts};

use super::piece::{Piece, next_piece};
use super::variable::lookup;
use super::written::dropped;
use spans::area::append_span;
use spans::span::{Memory, Span, size};
use text::part::Rows;

// A limit of document 01 on reading is passed.
#[derive(Clone, Copy, Debug, PartialEq, Eq)]
pub struct Full;

// Writes n bytes of a written word from `at` on, and returns where they end. Bytes between them are dropped, so that `text::part::copy` does not write it.
fn copy(body: &[u8], at: usize, n: usize, quoted: bool, area: &mut [u8], o: usize) -> usize
    requires { (n ≤ length (written quoted (drop at body.now))) × (o + n ≤ length area.old) }
    ensures { Wrote area.old area.new o (take n (written quoted (drop at body.now))) result }
{
    let mut i = at;
    for k in 0..n {
        let e = dropped(body, i, quoted);
        area[o + k] = body[i + e];
        i = i + 1 + e;
    }
    o + n
}

// The same up to a limit.
fn put_written(
    body: &[u8],
    at: usize,
    n: usize,
    quoted: bool,
    area: &mut [u8],
    o: usize,
    limit: usize,
) -> Result<usize, Full>
    requires { (n ≤ length (written quoted (drop at body.now))) × ((o ≤ limit) × (limit ≤ length area.old)) }
    ensures { Puts area.old area.new o limit (take n (written quoted (drop at body.now))) result }
{
    if limit - o < n {
        return Err(Full);
    }
    Ok(copy(body, at, n, quoted, area, o))
}

// Writes a value that lies in the files or before m in the area.
fn put_value(
    files: &[u8],
    area: &mut [u8],
    m: usize,
    s: Span,
    o: usize,
    limit: usize,
) -> Result<usize, Full>
    requires { (m ≤ o) × ((o ≤ limit) × (limit ≤ length area.old)) }
    ensures { Puts area.old area.new o limit (bytes (files.now ++ take m area.old) s) result }
{
    let n = size(
        &Memory {
            files,
            area: &area[..m],
        },
        s,
    );
    if limit - o < n {
        return Err(Full);
    }
    Ok(append_span(files, area, m, s, o))
}

// Writes what stands for the piece p of a written word at i: the value of its name, or the piece as written.
fn put_piece(
    files: &[u8],
    vars: &Rows,
    body: &[u8],
    quoted: bool,
    i: usize,
    p: Piece,
    area: &mut [u8],
    m: usize,
    o: usize,
    limit: usize,
) -> Result<usize, Full>
    requires { IsPiece quoted body.now (i + 1) (written quoted (drop i body.now)) p × ((m ≤ o) × ((o ≤ limit) × (limit ≤ length area.old))) }
    ensures { Puts area.old area.new o limit (image (variables (files.now ++ take m area.old) vars.now.rows.now vars.now.n) (written quoted (drop i body.now))) result }
{
    match lookup(
        &Memory {
            files,
            area: &area[..m],
        },
        vars,
        body,
        p.from,
        p.name,
        quoted,
    ) {
        None => put_written(body, i, p.size, quoted, area, o, limit),
        Some(s) => put_value(files, area, m, s, o, limit),
    }
}

// Writes a written word with its variables substituted to the area from `at` on, up to a limit. The variables lie in the files or before m in the area.
pub fn substitute(
    files: &[u8],
    vars: &Rows,
    body: &[u8],
    quoted: bool,
    area: &mut [u8],
    m: usize,
    at: usize,
    limit: usize,
) -> Result<usize, Full>
    requires { (m ≤ at) × ((at ≤ limit) × (limit ≤ length area.old)) }
    ensures { Puts area.old area.new at limit (Substitution·substitute (variables (files.now ++ take m area.old) vars.now.rows.now vars.now.n) (written quoted body.now)) result }
{
    let mut i = 0;
    let mut o = at;
    // Counted by hand: the place moves on by a whole piece, so an iterator is no plainer.
    while i < body.len() {
        let p = next_piece(body, i, quoted);
        o = put_piece(files, vars, body, quoted, i, p, area, m, o, limit)?;
        i = p.end;
    }
    Ok(o)
}
