// set, set_design_top, set_retention, set_level_shifter, and commands of no name of the table.
#![tactic(auto)]

ghost use Rattle.std.specs.Prelude.{[], ◌++◌, ◌≡◌, ◌<◌, ◌^◌};
ghost use Rattle.text.specs.Ascii.{Bytes};
ghost use Rattle.spans.specs.Span.{bytes, pair_at, pairs};
ghost use Rattle.spans.specs.Reach.{span_end, last_of};
ghost use Rattle.args.specs.View.{words_from};
ghost use Rattle.model.specs.Names.{Command, is_query};
ghost use Rattle.model.specs.Commands.{set_command, design_top_command, retention_command, shifter_command, unsupported as Commands·unsupported, carried_out};
ghost use Rattle.made.specs.Made.{Line, brief_of, Does};
ghost use Rattle.model.specs.Records.{Model};
ghost use Rattle.store.specs.declared.state.State.{State};
ghost use Rattle.plaincmds.specs.Retentions.{RetentionIs};
ghost use Rattle.plaincmds.specs.Shifters.{ShifterIs};
ghost use Rattle.spans.specs.Memory.{memory};

use args::argument::{name, option, positional};
use made::{Brief, Deed};
use spans::span::{Memory, Span, is, pair, size};
use store::state::{Retention, Shifter};
use store::stored::{Stored, narrow, or_empty};
use text::part::Rows;

// The most variables that are kept.
const MOST_VARIABLES: usize = 64;

// A variable more, where there are two positional words.
pub fn set(mem: &Memory, command: &Rows, b: Brief) -> Deed
    requires { Line command.now.rows.now command.now.n }
    ensures { Does mem.now.files.now mem.now.area.now command.now.rows.now command.now.n (λ (s : State). brief_of s ≡ b) result (λ (m : Model). set_command m (words_from (memory mem.now) command.now.rows.now command.now.n 1)) }
{
    match positional(mem, command, 1) {
        None => Deed::Nothing,
        Some(v) => {
            if MOST_VARIABLES <= b.variables {
                return Deed::Full;
            }
            let named = name(mem, command);
            Deed::Variable(narrow(named), narrow(v))
        }
    }
}

// The design top, where none is set and the scope is the root.
pub fn set_design_top(mem: &Memory, command: &Rows, b: Brief) -> Deed
    requires { Line command.now.rows.now command.now.n }
    ensures { Does mem.now.files.now mem.now.area.now command.now.rows.now command.now.n (λ (s : State). brief_of s ≡ b) result (λ (m : Model). design_top_command m (words_from (memory mem.now) command.now.rows.now command.now.n 1)) }
{
    match b.top {
        Some(_) => Deed::Nothing,
        None => {
            if size(mem, Span::from(b.scope)) != 0 {
                return Deed::Nothing;
            }
            let named = name(mem, command);
            Deed::Top(Some(narrow(named)))
        }
    }
}

// The retention that the words of a command name.
fn retention<'a>(mem: &Memory<'a>, command: &Rows, scope: Stored) -> Retention
    requires { last_of span_end (pairs command.now.rows.now 0 command.now.n) < 2 ^ 32 }
    ensures { RetentionIs (memory mem.now) command.now.rows.now command.now.n scope result }
{
    let named = name(mem, command);
    let domain = option(mem, command, b"-domain");
    let elements = option(mem, command, b"-elements");
    Retention {
        name: narrow(named),
        domain: or_empty(domain),
        scope: scope,
        elements: or_empty(elements),
    }
}

// A retention more.
pub fn set_retention<'a>(mem: &Memory<'a>, command: &Rows, b: Brief) -> Deed
    requires { Line command.now.rows.now command.now.n }
    ensures { Does mem.now.files.now mem.now.area.now command.now.rows.now command.now.n (λ (s : State). brief_of s ≡ b) result (λ (m : Model). retention_command m (words_from (memory mem.now) command.now.rows.now command.now.n 1)) }
{
    if 32 <= b.retentions {
        return Deed::Full;
    }
    let x = retention(mem, command, b.scope);
    Deed::Retention(x)
}

// The shifter that the words of a command name.
fn shifter<'a>(mem: &Memory<'a>, command: &Rows) -> Shifter
    requires { last_of span_end (pairs command.now.rows.now 0 command.now.n) < 2 ^ 32 }
    ensures { ShifterIs (memory mem.now) command.now.rows.now command.now.n result }
{
    let named = name(mem, command);
    let domain = option(mem, command, b"-domain");
    Shifter {
        name: narrow(named),
        domain: or_empty(domain),
    }
}

// A level shifter more.
pub fn set_level_shifter<'a>(mem: &Memory<'a>, command: &Rows, b: Brief) -> Deed
    requires { Line command.now.rows.now command.now.n }
    ensures { Does mem.now.files.now mem.now.area.now command.now.rows.now command.now.n (λ (s : State). brief_of s ≡ b) result (λ (m : Model). shifter_command m (words_from (memory mem.now) command.now.rows.now command.now.n 1)) }
{
    if 32 <= b.shifters {
        return Deed::Full;
    }
    let x = shifter(mem, command);
    Deed::Shifter(x)
}

// Whether a word begins with `query_`.
fn is_query<'a>(mem: &Memory<'a>, w: Span) -> bool
    ensures { result ≡ is_query (bytes (memory mem.now) w) }
{
    let front = Span {
        at: w.at,
        len: w.len.min(6),
    };
    is(mem, front, b"query_")
}

// A command of no name of the table; its words begin with its name.
pub fn unsupported<'a>(mem: &Memory<'a>, words: &[u32]) -> Deed
    requires { Line words.now 1 }
    ensures { Does mem.now.files.now mem.now.area.now words.now 1 (λ (s : State). Unit {0}) result (λ (m : Model). Commands·unsupported m (bytes (memory mem.now) (pair_at words.now 0))) }
{
    let w = pair(words, 0);
    if is_query(mem, w) {
        return Deed::Nothing;
    }
    Deed::Warning(8, narrow(w))
}

// A command that is parsed but not simulated, whatever words are behind its name.
pub fn not_simulated(words: &[u32]) -> Deed
    requires { Line words.now 1 }
    ensures { (files area : Bytes) → Does files area words.now 1 (λ (s : State). Unit {0}) result (λ (m : Model). carried_out Command.not_simulated m (bytes (files ++ area) (pair_at words.now 0)) []) }
{
    let w = pair(words, 0);
    Deed::Warning(7, narrow(w))
}
