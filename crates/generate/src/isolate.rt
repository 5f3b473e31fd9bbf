// Isolation, by the stored records.
ghost use Rattle.std.specs.Prelude.{◌≤◌, length};
ghost use Rattle.out.specs.Emit.{◌▸◌};
ghost use Rattle.generate.specs.Steps.{Isolates, AllIsolated};

use isolation::isolation;
use jobindex::Design;
use keep::Cover;
use spans::span::Memory;
use store::state::State;

// The isolated ports into their table, and behind `at` the lines of the report, or where `warn` is set the warnings.
pub fn isolate<'a>(
    out: &mut [u8],
    at: usize,
    warn: bool,
    design: &Design,
    k: usize,
    mem: &Memory<'a>,
    s: State,
    ports: &mut [u32],
) -> Cover
    requires { Isolates design.now.index.job.now design.now.index.rows.now design.now.count k mem.now.files.now mem.now.area.now s × (5120 ≤ length ports.old) }
    ensures { AllIsolated design.now.index.job.now design.now.index.rows.now design.now.count k mem.now.files.now mem.now.area.now s warn (out.old ▸ at) out.new ports.new result }
{
    let isolations = s.isolations;
    let domains = s.domains;
    isolation(out, at, warn, design, k, mem, isolations, domains, ports)
}
