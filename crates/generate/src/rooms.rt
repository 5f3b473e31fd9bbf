// The domains, by a table of the modules, the retained entries, and room for the walks.
ghost use Rattle.std.specs.Prelude.{◌≤◌, ◌++◌};
ghost use Rattle.out.specs.Emit.{◌▸◌};
ghost use Rattle.modtable.specs.Table.{Tabled};
ghost use Rattle.alike.specs.Ruled.{Ruled};
ghost use Rattle.domains.specs.Told.{AllTold};
ghost use Rattle.generate.specs.Generates.{Asks};
ghost use Rattle.generate.specs.Steps.{Retains};
ghost use Rattle.spans.specs.Memory.{memory};

use super::prefix::prefix;
use domainlists::retained;
use domains::{Told, domains};
use format::source::Source;
use listing::TooMany;
use modtable::make::make;
use store::state::State;
use text::part::Rows;

// The glue and the report lines of all domains, with room for the walks.
fn in_room<'a>(
    src: &Source<'a>,
    k: usize,
    table: &[u32],
    s: State,
    kept: &[u32],
    r: usize,
    ports: &Rows,
    glue: &mut [u8],
    report: &mut [u8],
    at: Told,
) -> Result<Told, TooMany>
    requires { (Asks src.now.design.index.job.now src.now.design.index.rows.now src.now.design.count k src.now.mem.files.now src.now.mem.area.now src.now.scope.over.now s × (Tabled src.now.design.index.job.now src.now.design.index.rows.now src.now.design.count table.now × Retains src.now.mem.files.now src.now.mem.area.now s kept.now r)) × Ruled (memory src.now.mem) s.isolations ports.now.rows.now ports.now.n }
    ensures { AllTold src.now.design.index.job.now src.now.design.index.rows.now src.now.design.count k src.now.mem.files.now src.now.mem.area.now src.now.scope.over.now src.now.scope.from src.now.top.now s ports.now.rows.now ports.now.n (glue.old ▸ at.glue) glue.new (report.old ▸ at.report) report.new result }
{
    let mut tail: [u8; 2112] = [0; 2112];
    let mut text: [u8; 32768] = [0; 32768];
    let mut ends: [u32; 17408] = [0; 17408];
    let p = prefix(src.scope.over, src.scope.from);
    domains(
        src, k, table, p, s, kept, r, ports, &mut tail, &mut text, &mut ends, glue, report, at,
    )
}

// The same with the table of the modules at hand.
fn over_table<'a>(
    src: &Source<'a>,
    k: usize,
    table: &[u32],
    s: State,
    ports: &Rows,
    glue: &mut [u8],
    report: &mut [u8],
    at: Told,
) -> Result<Told, TooMany>
    requires { (Asks src.now.design.index.job.now src.now.design.index.rows.now src.now.design.count k src.now.mem.files.now src.now.mem.area.now src.now.scope.over.now s × Tabled src.now.design.index.job.now src.now.design.index.rows.now src.now.design.count table.now) × Ruled (memory src.now.mem) s.isolations ports.now.rows.now ports.now.n }
    ensures { AllTold src.now.design.index.job.now src.now.design.index.rows.now src.now.design.count k src.now.mem.files.now src.now.mem.area.now src.now.scope.over.now src.now.scope.from src.now.top.now s ports.now.rows.now ports.now.n (glue.old ▸ at.glue) glue.new (report.old ▸ at.report) report.new result }
{
    let mut kept: [u32; 5120] = [0; 5120];
    let retentions = s.retentions;
    let r = retained(&src.mem, retentions, &mut kept);
    in_room(src, k, table, s, &kept, r, ports, glue, report, at)
}

// The glue and the report lines of all domains, of at most 8 modules. `ports` are the isolated ports.
// A function for each size of table: with the size as a const parameter the proof of the slice did not close, and a caller that makes all three
// tables pays at entry for the largest.
fn walked_few<'a>(
    src: &Source<'a>,
    k: usize,
    s: State,
    ports: &Rows,
    glue: &mut [u8],
    report: &mut [u8],
    at: Told,
) -> Result<Told, TooMany>
    requires { (Asks src.now.design.index.job.now src.now.design.index.rows.now src.now.design.count k src.now.mem.files.now src.now.mem.area.now src.now.scope.over.now s × (src.now.design.count ≤ 8)) × Ruled (memory src.now.mem) s.isolations ports.now.rows.now ports.now.n }
    ensures { AllTold src.now.design.index.job.now src.now.design.index.rows.now src.now.design.count k src.now.mem.files.now src.now.mem.area.now src.now.scope.over.now src.now.scope.from src.now.top.now s ports.now.rows.now ports.now.n (glue.old ▸ at.glue) glue.new (report.old ▸ at.report) report.new result }
{
    let mut inputs: [u32; 384] = [0; 384];
    let mut table: [u32; 4624] = [0; 4624];
    make(&src.design, &mut inputs, &mut table);
    over_table(src, k, &table, s, ports, glue, report, at)
}

// The same, of at most 40 modules.
fn walked_some<'a>(
    src: &Source<'a>,
    k: usize,
    s: State,
    ports: &Rows,
    glue: &mut [u8],
    report: &mut [u8],
    at: Told,
) -> Result<Told, TooMany>
    requires { (Asks src.now.design.index.job.now src.now.design.index.rows.now src.now.design.count k src.now.mem.files.now src.now.mem.area.now src.now.scope.over.now s × (src.now.design.count ≤ 40)) × Ruled (memory src.now.mem) s.isolations ports.now.rows.now ports.now.n }
    ensures { AllTold src.now.design.index.job.now src.now.design.index.rows.now src.now.design.count k src.now.mem.files.now src.now.mem.area.now src.now.scope.over.now src.now.scope.from src.now.top.now s ports.now.rows.now ports.now.n (glue.old ▸ at.glue) glue.new (report.old ▸ at.report) report.new result }
{
    let mut inputs: [u32; 384] = [0; 384];
    let mut table: [u32; 23120] = [0; 23120];
    make(&src.design, &mut inputs, &mut table);
    over_table(src, k, &table, s, ports, glue, report, at)
}

// The same, of all that a job can have.
fn walked_many<'a>(
    src: &Source<'a>,
    k: usize,
    s: State,
    ports: &Rows,
    glue: &mut [u8],
    report: &mut [u8],
    at: Told,
) -> Result<Told, TooMany>
    requires { Asks src.now.design.index.job.now src.now.design.index.rows.now src.now.design.count k src.now.mem.files.now src.now.mem.area.now src.now.scope.over.now s × Ruled (memory src.now.mem) s.isolations ports.now.rows.now ports.now.n }
    ensures { AllTold src.now.design.index.job.now src.now.design.index.rows.now src.now.design.count k src.now.mem.files.now src.now.mem.area.now src.now.scope.over.now src.now.scope.from src.now.top.now s ports.now.rows.now ports.now.n (glue.old ▸ at.glue) glue.new (report.old ▸ at.report) report.new result }
{
    let mut inputs: [u32; 384] = [0; 384];
    let mut table: [u32; 73984] = [0; 73984];
    make(&src.design, &mut inputs, &mut table);
    over_table(src, k, &table, s, ports, glue, report, at)
}

// The same, of a job's modules.
pub fn walked<'a>(
    src: &Source<'a>,
    k: usize,
    s: State,
    ports: &Rows,
    glue: &mut [u8],
    report: &mut [u8],
    at: Told,
) -> Result<Told, TooMany>
    requires { Asks src.now.design.index.job.now src.now.design.index.rows.now src.now.design.count k src.now.mem.files.now src.now.mem.area.now src.now.scope.over.now s × Ruled (memory src.now.mem) s.isolations ports.now.rows.now ports.now.n }
    ensures { AllTold src.now.design.index.job.now src.now.design.index.rows.now src.now.design.count k src.now.mem.files.now src.now.mem.area.now src.now.scope.over.now src.now.scope.from src.now.top.now s ports.now.rows.now ports.now.n (glue.old ▸ at.glue) glue.new (report.old ▸ at.report) report.new result }
{
    if src.design.count <= 8 {
        return walked_few(src, k, s, ports, glue, report, at);
    }
    if src.design.count <= 40 {
        return walked_some(src, k, s, ports, glue, report, at);
    }
    walked_many(src, k, s, ports, glue, report, at)
}
