// The pieces of a written word: a byte, or `$N` or `${N}`.
ghost use Rattle.std.specs.Prelude.{◌+◌, ◌≤◌, ◌<◌, ◌∷◌, length, drop, get_or};
ghost use Rattle.text.specs.Ascii.{byte};
ghost use Rattle.tcl.specs.Substitution.{closes_by};
ghost use Rattle.substitution.specs.Written.{written, IsRun};
ghost use Rattle.substitution.specs.Piece.{IsPiece};

use super::written::{Run, dropped, mark, name_run};

// A piece: where its name begins and how many bytes that has, how many it has altogether, and where it ends.
#[derive(Clone, Copy)]
pub struct Piece {
    pub from: usize,
    pub name: usize,
    pub size: usize,
    pub end: usize,
}

// The brace that closes, where one was opened.
fn closing(body: &[u8], at: usize, quoted: bool, opened: usize) -> Run
    requires { at ≤ length body.now }
    ensures { IsRun quoted body.now at (closes_by opened (get_or (written quoted (drop at body.now)) 0 0)) result }
{
    if opened == 1 {
        return mark(body, at, quoted, b'}');
    }
    Run { size: 0, end: at }
}

// The piece whose `$` stands before `at`.
fn reference(body: &[u8], at: usize, quoted: bool) -> Piece
    requires { at ≤ length body.now }
    ensures { IsPiece quoted body.now at (byte "$" ∷ written quoted (drop at body.now)) result }
{
    let o = mark(body, at, quoted, b'{');
    let from = o.end;
    let n = name_run(body, from, quoted);
    let to = n.end;
    let c = closing(body, to, quoted, o.size);
    Piece {
        from: from,
        name: n.size,
        size: 1 + o.size + n.size + c.size,
        end: c.end,
    }
}

// The piece at i.
pub fn next_piece(body: &[u8], i: usize, quoted: bool) -> Piece
    requires { i < length body.now }
    ensures { IsPiece quoted body.now (i + 1) (written quoted (drop i body.now)) result }
{
    let e = dropped(body, i, quoted);
    let k = i + e;
    let a = i + 1 + e;
    if body[k] == b'$' {
        return reference(body, a, quoted);
    }
    Piece {
        from: a,
        name: 0,
        size: 1,
        end: a,
    }
}
