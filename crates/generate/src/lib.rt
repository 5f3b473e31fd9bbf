// The three texts of generation in one pass: each limit is asked for before anything is said of the room.
#![tactic(auto)]

mod front;
mod isolate;
mod prefix;
mod rooms;
mod tail;

ghost use Rattle.std.specs.Prelude.{◌≤◌, length};
ghost use Rattle.out.specs.Emit.{◌▸◌};
ghost use Rattle.generate.specs.Generates.{Asks, Generated};
ghost use Rattle.generate.specs.Steps.{HasNets, Bodied};

use answers::{Texts, stopped};
use domains::Told;
use format::source::Source;
use front::{glue_front, report_front};
use isolate::isolate;
use rooms::walked;
use store::state::State;
use supplies::nets::supply_nets;
use supplies::write::package_text;
use tail::tail;
use text::part::Rows;

// The texts from the isolation on: the report goes on at `at`, the package ends at `end`. `nets` are the supply nets, `ports` is for the isolated ports.
fn bodies_by<'a>(
    src: &Source<'a>,
    k: usize,
    s: State,
    nets: &Rows,
    ports: &mut [u32],
    glue: &mut [u8],
    end: usize,
    report: &mut [u8],
    at: usize,
) -> Texts
    requires { Asks src.now.design.index.job.now src.now.design.index.rows.now src.now.design.count k src.now.mem.files.now src.now.mem.area.now src.now.scope.over.now s × (HasNets src.now.mem.files.now src.now.mem.area.now src.now.design.index.rows.now s nets.now.rows.now nets.now.n × (5120 ≤ length ports.old)) }
    ensures { Bodied src.now.design.index.job.now src.now.design.index.rows.now src.now.design.count k src.now.mem.files.now src.now.mem.area.now src.now.scope.over.now src.now.scope.from src.now.top.now s glue.old glue.new end (report.old ▸ at) report.new result }
{
    let c = isolate(report, at, false, &src.design, k, &src.mem, s, ports);
    if c.over {
        return stopped(13);
    }
    let g = glue_front(
        glue,
        src,
        s,
        nets,
        &Rows {
            rows: ports,
            n: c.ports,
        },
    );
    let o = Told {
        glue: g,
        report: c.at,
    };
    let Ok(u) = walked(
        src,
        k,
        s,
        &Rows {
            rows: ports,
            n: c.ports,
        },
        glue,
        report,
        o,
    ) else {
        return stopped(13);
    };
    let x = tail(report, u.report, src, k, s, c.warnings);
    if 512 < x.count {
        return stopped(13);
    }
    Texts {
        number: 0,
        glue: u.glue,
        pkg: end,
        report: x.at,
    }
}

// The same with a table of its own.
fn bodies<'a>(
    src: &Source<'a>,
    k: usize,
    s: State,
    nets: &Rows,
    glue: &mut [u8],
    end: usize,
    report: &mut [u8],
    at: usize,
) -> Texts
    requires { Asks src.now.design.index.job.now src.now.design.index.rows.now src.now.design.count k src.now.mem.files.now src.now.mem.area.now src.now.scope.over.now s × HasNets src.now.mem.files.now src.now.mem.area.now src.now.design.index.rows.now s nets.now.rows.now nets.now.n }
    ensures { Bodied src.now.design.index.job.now src.now.design.index.rows.now src.now.design.count k src.now.mem.files.now src.now.mem.area.now src.now.scope.over.now src.now.scope.from src.now.top.now s glue.old glue.new end (report.old ▸ at) report.new result }
{
    let mut ports: [u32; 5120] = [0; 5120];
    bodies_by(src, k, s, nets, &mut ports, glue, end, report, at)
}

// The texts by a table for the supply nets.
fn generate_by<'a>(
    src: &Source<'a>,
    k: usize,
    s: State,
    nets: &mut [u32],
    glue: &mut [u8],
    pkg: &mut [u8],
    report: &mut [u8],
) -> Texts
    requires { Asks src.now.design.index.job.now src.now.design.index.rows.now src.now.design.count k src.now.mem.files.now src.now.mem.area.now src.now.scope.over.now s × (640 ≤ length nets.old) }
    ensures { Generated src.now.design.index.job.now src.now.design.index.rows.now src.now.design.count k src.now.mem.files.now src.now.mem.area.now src.now.scope.over.now src.now.scope.from src.now.top.now s glue.old glue.new pkg.old pkg.new report.old report.new result }
{
    let n = supply_nets(&src.mem, src.design.index.rows, s, nets);
    let end = package_text(pkg, src, &Rows { rows: nets, n });
    let at = report_front(report, src, k, s, &Rows { rows: nets, n });
    bodies(src, k, s, &Rows { rows: nets, n }, glue, end, report, at)
}

// The texts of the records s in a scope: module k of `count`, the parts of `path` from `from` on; `top` is the top's name. Or 13 where a limit is passed.
pub fn generate<'a>(
    src: &Source<'a>,
    k: usize,
    s: State,
    glue: &mut [u8],
    pkg: &mut [u8],
    report: &mut [u8],
) -> Texts
    requires { Asks src.now.design.index.job.now src.now.design.index.rows.now src.now.design.count k src.now.mem.files.now src.now.mem.area.now src.now.scope.over.now s }
    ensures { Generated src.now.design.index.job.now src.now.design.index.rows.now src.now.design.count k src.now.mem.files.now src.now.mem.area.now src.now.scope.over.now src.now.scope.from src.now.top.now s glue.old glue.new pkg.old pkg.new report.old report.new result }
{
    let mut nets: [u32; 640] = [0; 640];
    generate_by(src, k, s, &mut nets, glue, pkg, report)
}
