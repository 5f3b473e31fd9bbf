// Files and their commands: reading a file and carrying out its load_upf lines call each other.
ghost use Rattle.std.specs.Prelude.{◌≡◌};
ghost use Rattle.held.specs.Held.{Ran};
ghost use Rattle.loads.specs.Steps.{command_reads, file_reads, Opening};
ghost use Rattle.files.specs.Loads.{Loads};

use cmdnames::{Command, named_command};
use commands::next::{Words, next_command};
use deeds::{add, add_variable, refused, replace, rows_with, warnings_with, with_top};
use held::begun;
use loads::{back, before_load};
use made::{Deed, brief_of};
use plain::{act, counted, puts};
use scopes::go::{Out, Place, Stop, set_scope};
use spans::span::{Memory, pair};
use store::state::{Head, State};
use store::stored::Stored;
use substitution::put::Full;
use text::part::{Rows, place};

// The head with another scope.
fn in_scope(h: Head, scope: Stored) -> Head
    ensures { result ≡ record { scope = scope; top = h.top } }
{
    let top = h.top;
    Head {
        scope: scope,
        top: top,
    }
}

// The load with these words, of file k; `left` loads may still be nested. It has no value that is read as a list.
// The area is written here, so it stays apart from the files.
#[cycle(load_read_file)]
fn load(
    job: &[u8],
    files: &[u8],
    area: &mut [u8],
    nums: &mut [u32],
    log: &mut [u8],
    count: usize,
    command: &Rows,
    s: State,
    k: usize,
    left: usize,
) -> Out
    requires { Loads job.now files.now area.old nums.old command.now.rows.now count command.now.n k left s }
    ensures { Ran files.now area.old area.new nums.old nums.new log.old log.new s result (command_reads job.now files.now area.old nums.old count command.now.rows.now command.now.n k left s) }
{
    if 1024 < s.count.commands {
        return Out {
            stop: Some(Stop::PastLimit),
            state: s,
        };
    }
    let h = s.head;
    let scope = h.scope;
    let p = Place {
        scope: scope,
        scopes: s.count.scopes,
        end: s.fill.end,
    };
    match before_load(job, files, area, nums, count, command, p, k, left) {
        Err(x) => Out {
            stop: Some(x),
            state: s,
        },
        Ok(b) => {
            let q = b.place;
            let mut u = s;
            u.head = in_scope(h, q.scope);
            u.count.scopes = q.scopes;
            u.fill.end = q.end;
            let r = read_file(job, files, area, nums, log, count, u, b.file, left - 1);
            if r.stop.is_some() {
                return r;
            }
            u = r.state;
            u.head = back(h, u.head);
            Out {
                stop: None,
                state: u,
            }
        }
    }
}

// File k, command by command, its words substituted with the variables known when it is opened. What is no load is
// carried out here: the state would be copied for each call that it is passed to.
// The area is written here, so it stays apart from the files.
#[cycle(load_read_file)]
pub fn read_file(
    job: &[u8],
    files: &[u8],
    area: &mut [u8],
    nums: &mut [u32],
    log: &mut [u8],
    count: usize,
    s: State,
    k: usize,
    left: usize,
) -> Out
    requires { Opening job.now files.now area.old nums.old count k left s }
    ensures { Ran files.now area.old area.new nums.old nums.new log.old log.new s result (file_reads job.now files.now area.old nums.old count k left s) }
{
    let base = place(nums, 1152 + 2 * k);
    let len = place(nums, 1153 + 2 * k);
    let known = s.variables;
    let vars = known.all;
    let nv = known.n;
    let mut words: [u32; 256] = [0; 256];
    let mut at = 0;
    let mut u = s;
    // Counted by hand: where the next command begins is known when this one is read, and a load is nested in it, so an iterator is no plainer.
    loop {
        let o = u.fill.end;
        let limit = o + (16384 - u.count.substituted);
        match next_command(
            files,
            base,
            len,
            at,
            &Rows { rows: &vars, n: nv },
            area,
            o,
            limit,
            &mut words,
        ) {
            Ok(None) => return Out {
                stop: None,
                state: u,
            },
            Err(Full) => {
                let v = begun(u, o);
                return Out {
                    stop: Some(Stop::PastLimit),
                    state: v,
                };
            }
            Ok(
                Some(
                    Words {
                        count: n,
                        next: next,
                        end: e,
                    },
                ),
            ) => {
                let commands = u.count.commands + 1;
                let substituted = u.count.substituted + (e - o);
                u.count.commands = commands;
                u.count.substituted = substituted;
                u.fill.end = e;
                let mem = Memory {
                    files,
                    area: &area[..e],
                };
                let c = named_command(&mem, pair(&words, 0));
                if let Command::LoadUpf = c {
                    let r = load(
                        job,
                        files,
                        area,
                        nums,
                        log,
                        count,
                        &Rows { rows: &words, n },
                        u,
                        k,
                        left,
                    );
                    if r.stop.is_some() {
                        return r;
                    }
                    u = r.state;
                    at = next;
                    continue;
                }
                let before = u.count.entries;
                let Some(t) = counted(&mem, &Rows { rows: &words, n }, commands, before, c) else {
                    return Out {
                        stop: Some(Stop::PastLimit),
                        state: u,
                    };
                };
                u.count.entries = t;
                at = next;
                if let Command::Puts = c {
                    let end = puts(&mem, log, &Rows { rows: &words, n }, u.fill.log);
                    u.fill.log = end;
                    continue;
                }
                if let Command::SetScope = c {
                    let scope = u.head.scope;
                    let p = Place {
                        scope: scope,
                        scopes: u.count.scopes,
                        end: e,
                    };
                    match set_scope(files, area, &Rows { rows: &words, n }, p) {
                        Err(x) => return Out {
                            stop: Some(x),
                            state: u,
                        },
                        Ok(q) => {
                            u.head = in_scope(u.head, q.scope);
                            u.count.scopes = q.scopes;
                            u.fill.end = q.end;
                            continue;
                        }
                    }
                }
                let b = brief_of(u);
                let d = act(
                    &mem,
                    nums,
                    &Rows { rows: &words, n },
                    b,
                    u.fill.rows,
                    u.fill.warnings,
                    u.domains,
                    u.nets,
                    u.isolations,
                    u.tables,
                    c,
                );
                if refused(d, u.fill.warnings) {
                    return Out {
                        stop: Some(Stop::PastLimit),
                        state: u,
                    };
                }
                let rows = rows_with(d, u.fill.rows);
                let warnings = warnings_with(d, u.fill.warnings);
                u.fill.rows = rows;
                u.fill.warnings = warnings;
                match d {
                    Deed::Variable(a, b) => u.variables = add_variable(u.variables, a, b),
                    Deed::Top(t) => u.head = with_top(u.head, t),
                    Deed::Domain(x) => u.domains = add(u.domains, x),
                    Deed::Supplied(i, x) => u.domains = replace(u.domains, i, x),
                    Deed::Net(x) => u.nets = add(u.nets, x),
                    Deed::Port(x) => u.ports = add(u.ports, x),
                    Deed::Isolation(x) => u.isolations = add(u.isolations, x),
                    Deed::Controlled(i, x) => u.isolations = replace(u.isolations, i, x),
                    Deed::Retention(x) => u.retentions = add(u.retentions, x),
                    Deed::Shifter(x) => u.shifters = add(u.shifters, x),
                    Deed::Table(x) => u.tables = add(u.tables, x),
                    Deed::Switch(x, e) => {
                        u.switches = add(u.switches, x);
                        u.fill.words = e;
                    }
                    Deed::PortState(x, e) => {
                        u.portstates = add(u.portstates, x);
                        u.fill.words = e;
                    }
                    _ => {}
                }
            }
        }
    }
}
