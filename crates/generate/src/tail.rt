// The end of the report: shifters, tables, warnings.
ghost use Rattle.std.specs.Prelude.{◌≡◌, ◌≤◌, ◌++◌, length, map, take};
ghost use Rattle.out.specs.Emit.{◌▸◌, emit};
ghost use Rattle.out.specs.Text.{shown, SameRoom};
ghost use Rattle.out.specs.Items.{each};
ghost use Rattle.texts.specs.Texts.{shifter_line, table_line};
ghost use Rattle.store.specs.View.{shifter_of, table_of, numbered};
ghost use Rattle.store.specs.Rows.{rows_in};
ghost use Rattle.setting.specs.Orders.{Orders};
ghost use Rattle.generate.specs.Generates.{Asks};
ghost use Rattle.generate.specs.Steps.{QuietWarned, AllWarned, AllRemarked, AllTailed};
ghost use Rattle.spans.specs.Memory.{memory};

use super::isolate::isolate;
use domainwarnings::domain_warnings;
use format::source::Source;
use out::emit::Text;
use reportlines::{read_warnings, shifter_lines};
use spans::span::Memory;
use store::state::State;
use switchwarnings::switch_warnings;
use tablelines::table_lines;

// Where the report ends, and how many warnings there are.
#[derive(Clone, Copy)]
pub struct Warned {
    pub at: usize,
    pub count: usize,
}

// The warnings behind `at`: of reading, of switches, of isolation, of domains. `ports` is for the isolated ports.
fn warnings_by<'a>(
    report: &mut [u8],
    at: usize,
    src: &Source<'a>,
    k: usize,
    s: State,
    ports: &mut [u32],
) -> Warned
    requires { Asks src.now.design.index.job.now src.now.design.index.rows.now src.now.design.count k src.now.mem.files.now src.now.mem.area.now src.now.scope.over.now s × (5120 ≤ length ports.old) }
    ensures { AllWarned src.now.design.index.job.now src.now.design.index.rows.now src.now.design.count k src.now.mem.files.now src.now.mem.area.now src.now.scope.over.now src.now.scope.from src.now.top.now s (report.old ▸ at) report.new result }
{
    let fill = s.fill;
    let switches = s.switches;
    let domains = s.domains;
    let mut to = Text::over(report, at);
    read_warnings(&mut to, &src.mem, src.design.index.rows, fill.rows);
    let b = switch_warnings(&mut to, fill.warnings, src, switches);
    let o = to.end();
    let c = isolate(report, o, true, &src.design, k, &src.mem, s, ports);
    if c.over {
        return Warned {
            at: c.at,
            count: 513,
        };
    }
    let mut text = Text::over(report, c.at);
    let count = domain_warnings(&mut text, b + c.warnings, &src.design, k, &src.mem, domains);
    Warned {
        at: text.end(),
        count,
    }
}

// The warnings where isolation has none: of reading, of switches, of domains.
fn quiet_warnings<'a>(report: &mut [u8], at: usize, src: &Source<'a>, k: usize, s: State) -> Warned
    requires { Asks src.now.design.index.job.now src.now.design.index.rows.now src.now.design.count k src.now.mem.files.now src.now.mem.area.now src.now.scope.over.now s }
    ensures { QuietWarned src.now.design.index.job.now src.now.design.index.rows.now src.now.design.count k src.now.mem.files.now src.now.mem.area.now src.now.scope.over.now src.now.scope.from src.now.top.now s (report.old ▸ at) report.new result }
{
    let fill = s.fill;
    let switches = s.switches;
    let domains = s.domains;
    let mut to = Text::over(report, at);
    read_warnings(&mut to, &src.mem, src.design.index.rows, fill.rows);
    let b = switch_warnings(&mut to, fill.warnings, src, switches);
    let count = domain_warnings(&mut to, b, &src.design, k, &src.mem, domains);
    Warned {
        at: to.end(),
        count,
    }
}

// The warnings behind `at`; isolation has `remarks` of them, and is not gone over again where that is none.
fn warnings<'a>(
    report: &mut [u8],
    at: usize,
    src: &Source<'a>,
    k: usize,
    s: State,
    remarks: usize,
) -> Warned
    requires { Asks src.now.design.index.job.now src.now.design.index.rows.now src.now.design.count k src.now.mem.files.now src.now.mem.area.now src.now.scope.over.now s }
    ensures { AllRemarked remarks src.now.design.index.job.now src.now.design.index.rows.now src.now.design.count k src.now.mem.files.now src.now.mem.area.now src.now.scope.over.now src.now.scope.from src.now.top.now s (report.old ▸ at) report.new result }
{
    if remarks == 0 {
        return quiet_warnings(report, at, src, k, s);
    }
    let mut ports: [u32; 5120] = [0; 5120];
    warnings_by(report, at, src, k, s, &mut ports)
}

// Writes the lines of shifters and tables.
fn listed<'a>(to: &mut Text, mem: &Memory<'a>, nums: &[u32], s: State)
    requires { Orders mem.now.files.now mem.now.area.now nums.now s }
    ensures same_room { SameRoom to.old to.new }
    ensures lines { shown to.new ≡ emit (emit (shown to.old) (each shifter_line (map (shifter_of (memory mem.now)) (take s.shifters.n s.shifters.all)))) (each table_line (numbered (table_of (memory mem.now) (rows_in nums.now s.fill.rows)) 0 (take s.tables.n s.tables.all))) }
{
    shifter_lines(to, mem, s.shifters);
    table_lines(to, mem, nums, s.fill.rows, s.tables)
}

// The lines of shifters and tables and the warnings, behind `at`; isolation has `remarks` warnings.
pub fn tail<'a>(
    report: &mut [u8],
    at: usize,
    src: &Source<'a>,
    k: usize,
    s: State,
    remarks: usize,
) -> Warned
    requires { Asks src.now.design.index.job.now src.now.design.index.rows.now src.now.design.count k src.now.mem.files.now src.now.mem.area.now src.now.scope.over.now s }
    ensures { AllTailed remarks src.now.design.index.job.now src.now.design.index.rows.now src.now.design.count k src.now.mem.files.now src.now.mem.area.now src.now.scope.over.now src.now.scope.from src.now.top.now s (report.old ▸ at) report.new result }
{
    let mut to = Text::over(report, at);
    listed(&mut to, &src.mem, src.design.index.rows, s);
    let b = to.end();
    warnings(report, b, src, k, s, remarks)
}
