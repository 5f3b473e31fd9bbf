// The scope moved, where it is within the limits.
ghost use Rattle.std.specs.Prelude.{◌≡◌, ◌++◌, take};
ghost use Rattle.spans.specs.Span.{bytes};
ghost use Rattle.model.specs.Scope.{below, moved as Scope·moved};
ghost use Rattle.tcl.specs.Arguments.{name_of, option_of};
ghost use Rattle.text.specs.Ascii.{ascii};
ghost use Rattle.args.specs.View.{words_from};
ghost use Rattle.store.specs.Strings.{string};
ghost use Rattle.scopes.specs.Target.{target_of};
ghost use Rattle.scopes.specs.Stops.{number_of, tag_of};
ghost use Rattle.scopes.specs.Moves.{scope_fits, place_of, out_of, Reaches, Goes, Line, Aims, Shifts, Moves, Leads};
ghost use Rattle.spans.specs.Memory.{memory};

use super::target::{entered, moved};
use args::argument::{name, option};
use spans::area::append_span;
use spans::span::{Memory, Span, size};
use store::state::State;
use store::stored::{Stored, narrow};
use text::part::Rows;

// Why a reading ends before its last command.
#[derive(Clone, Copy)]
pub enum Stop {
    // A load would be nested too deep.
    TooDeep,
    // A load names a file that the job does not list.
    NotListed,
    // A reading limit is passed.
    PastLimit,
}

// The number of the refusal. Other numbers than those of the checks before it, so one function for both is no plainer.
fn number_of(x: Stop) -> usize
    ensures { result ≡ number_of x }
{
    match x {
        Stop::TooDeep => 8,
        Stop::NotListed => 9,
        Stop::PastLimit => 10,
    }
}

// The number of the refusal, 0 where there is none.
pub fn tag_of(stop: Option<Stop>) -> usize
    ensures { result ≡ tag_of stop }
{
    match stop {
        None => 0,
        Some(x) => number_of(x),
    }
}

// The state that a reading leaves, at its end or where it stops.
#[derive(Clone, Copy)]
pub struct Out {
    pub stop: Option<Stop>,
    pub state: State,
}

// The scope, the bytes of all scopes, and where the area ends.
#[derive(Clone, Copy)]
pub struct Place {
    pub scope: Stored,
    pub scopes: usize,
    pub end: usize,
}

// The scope is a string that is there.
fn go_to(mem: &Memory, p: Place, t: Span) -> Result<Place, Stop>
    requires { Reaches mem.now.files.now mem.now.area.now p t }
    ensures { Goes (memory mem.now) p t result (scope_fits p.scopes (bytes (memory mem.now) t)) }
{
    let n = size(mem, t);
    let all = p.scopes;
    if (512 < n) | (8192 - all < n) {
        return Err(Stop::PastLimit);
    }
    Ok(Place {
        scope: narrow(t),
        scopes: all + n,
        end: p.end,
    })
}

// The scope is a name below the scope, written to the area.
// The area is written here, so it stays apart from the files.
fn go_below(files: &[u8], area: &mut [u8], p: Place, name: Span) -> Result<Place, Stop>
    requires { Aims files.now area.old p name None }
    ensures { Shifts files.now area.old area.new p (below (string (files.now ++ take p.end area.old) p.scope) (bytes (files.now ++ take p.end area.old) name)) result (scope_fits p.scopes (below (string (files.now ++ take p.end area.old) p.scope) (bytes (files.now ++ take p.end area.old) name))) }
{
    let scope = Span::from(p.scope);
    let o = p.end;
    let all = p.scopes;
    let mem = Memory {
        files,
        area: &area[..o],
    };
    let a = size(&mem, scope);
    if a == 0 {
        return go_to(&mem, p, name);
    }
    let n = a + 1 + size(&mem, name);
    if (512 < n) | (8192 - all < n) {
        return Err(Stop::PastLimit);
    }
    let m = append_span(files, area, o, scope, o);
    area[m] = b'/';
    let e = append_span(files, area, o, name, m + 1);
    let w = Span {
        at: files.len() + o,
        len: n,
    };
    Ok(Place {
        scope: narrow(w),
        scopes: all + n,
        end: e,
    })
}

// The area is written here, so it stays apart from the files.
fn go(files: &[u8], area: &mut [u8], p: Place, name: Span, t: Option<Span>) -> Result<Place, Stop>
    requires { Aims files.now area.old p name t }
    ensures { Shifts files.now area.old area.new p (target_of (files.now ++ take p.end area.old) (string (files.now ++ take p.end area.old) p.scope) (bytes (files.now ++ take p.end area.old) name) t) result (scope_fits p.scopes (target_of (files.now ++ take p.end area.old) (string (files.now ++ take p.end area.old) p.scope) (bytes (files.now ++ take p.end area.old) name) t)) }
{
    match t {
        Some(x) => go_to(
            &Memory {
                files,
                area: &area[..p.end],
            },
            p,
            x,
        ),
        None => go_below(files, area, p, name),
    }
}

// set_scope.
// The area is written here, so it stays apart from the files.
pub fn set_scope(files: &[u8], area: &mut [u8], command: &Rows, p: Place) -> Result<Place, Stop>
    requires { Line files.now area.old command.now.rows.now command.now.n p }
    ensures { (s : State) → place_of s ≡ p → Moves files.now area.old area.new s (Scope·moved (string (files.now ++ take s.fill.end area.old) s.head.scope) (name_of (words_from (files.now ++ take s.fill.end area.old) command.now.rows.now command.now.n 1))) (out_of s result) (scope_fits s.count.scopes (Scope·moved (string (files.now ++ take s.fill.end area.old) s.head.scope) (name_of (words_from (files.now ++ take s.fill.end area.old) command.now.rows.now command.now.n 1)))) }
{
    let scope = Span::from(p.scope);
    let o = p.end;
    let mem = Memory {
        files,
        area: &area[..o],
    };
    let named = name(&mem, command);
    let t = moved(&mem, scope, named);
    go(files, area, p, named, t)
}

// The scope that a load enters.
// The area is written here, so it stays apart from the files.
pub fn load_scope(files: &[u8], area: &mut [u8], command: &Rows, p: Place) -> Result<Place, Stop>
    requires { Line files.now area.old command.now.rows.now command.now.n p }
    ensures { Leads files.now area.old area.new p (option_of (ascii "-scope") (words_from (files.now ++ take p.end area.old) command.now.rows.now command.now.n 1)) result }
{
    let scope = Span::from(p.scope);
    let o = p.end;
    let mem = Memory {
        files,
        area: &area[..o],
    };
    let Some(w) = option(&mem, command, b"-scope") else {
        return Ok(p);
    };
    let t = entered(&mem, scope, w);
    go(files, area, p, w, t)
}
