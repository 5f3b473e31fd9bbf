// All domains, one after the other: what each loses, its glue, its report line.
#![tactic(auto)]

ghost use Rattle.std.specs.Prelude.{◌++◌, ◌≤◌, length};
ghost use Rattle.out.specs.Emit.{◌▸◌};
ghost use Rattle.nametable.specs.Table.{table_names};
ghost use Rattle.scope.specs.Parts.{parts};
ghost use Rattle.listing.specs.Listing.{paths_of};
ghost use Rattle.pathlines.specs.Lines.{below};
ghost use Rattle.domains.specs.Told.{OfDomains, WalkRoom, AllTold};
ghost use Rattle.domains.specs.One.{OfTexts, Texts, OfOne, SuppliedTold, Bare, OneTold};
ghost use Rattle.spans.specs.Memory.{memory};
ghost use Rattle.scope.specs.Path.{path_of};
ghost use Rattle.nametable.specs.Names.{names_in};

use domainglue::powered_glue;
use domainpaths::lost;
use domainreport::{below_name, powered_line, unpowered_line};
use format::source::Source;
use listing::{PathList, TooMany};
use modtable::part::low;
use out::emit::Text;
use spans::span::Memory;
use store::state::{Domain, Few, Isolation, Retention, State};
use store::stored::Below;
use text::part::Rows;

// Where glue and report end.
#[derive(Clone, Copy)]
pub struct Told {
    pub glue: usize,
    pub report: usize,
}

// The glue and the line of a domain with both supplies: m elements in a table, and the n paths that its walk listed.
fn texts<'a>(
    src: &Source<'a>,
    xs: Few<Isolation>,
    rs: Few<Retention>,
    ports: &Rows,
    d: Domain,
    p: Below,
    g: Below,
    elements: &Rows,
    listed: &PathList,
    glue: &mut [u8],
    report: &mut [u8],
    at: Told,
) -> Told
    requires { OfTexts src.now.mem.files.now src.now.mem.area.now xs rs ports.now.rows.now ports.now.n elements.now.n listed.now.ends.now listed.now.n }
    ensures { Texts (memory src.now.mem) (path_of src.now.scope) xs rs ports.now.rows.now ports.now.n d p g (names_in (memory src.now.mem) elements.now) (below (path_of src.now.scope) (paths_of listed.now.text.now listed.now.ends.now listed.now.n)) listed.now.n (glue.old ▸ at.glue) glue.new (report.old ▸ at.report) report.new result }
{
    let power = below_name(&src.mem, p);
    let ground_net = below_name(&src.mem, g);
    let name = d.name;
    let mut u = Text::over(glue, at.glue);
    powered_glue(&mut u, src, xs, ports, listed, name, power, ground_net);
    let a = u.end();
    let mut v = Text::over(report, at.report);
    powered_line(
        &mut v, &src.mem, &src.scope, rs, name, power, ground_net, elements, listed.n,
    );
    let b = v.end();
    Told { glue: a, report: b }
}

// A domain with both supplies; its elements go through a table.
fn supplied_by<'a>(
    src: &Source<'a>,
    k: usize,
    table: &[u32],
    prefix: usize,
    s: State,
    retained: &[u32],
    kept: usize,
    ports: &Rows,
    d: Domain,
    p: Below,
    g: Below,
    elements: &mut [u32],
    tail: &mut [u8],
    text: &mut [u8],
    ends: &mut [u32],
    glue: &mut [u8],
    report: &mut [u8],
    at: Told,
) -> Result<Told, TooMany>
    requires { (OfDomains src.now.design.index.job.now src.now.design.index.rows.now src.now.design.count k table.now src.now.mem.files.now src.now.mem.area.now src.now.scope.over.now src.now.scope.from prefix s retained.now kept ports.now.rows.now ports.now.n × OfOne src.now.mem.files.now src.now.mem.area.now d) × (WalkRoom tail.old text.old ends.old × (325 ≤ length elements.old)) }
    ensures { SuppliedTold src.now.design.index.job.now src.now.design.index.rows.now src.now.design.count k src.now.mem.files.now src.now.mem.area.now src.now.scope.over.now src.now.scope.from src.now.top.now s ports.now.rows.now ports.now.n d p g (glue.old ▸ at.glue) glue.new (report.old ▸ at.report) report.new result }
{
    let stamp = low(at.report);
    match lost(
        &src.design,
        k,
        table,
        &src.mem,
        retained,
        kept,
        d,
        prefix,
        elements,
        tail,
        text,
        ends,
        stamp,
    ) {
        Err(_) => Err(TooMany),
        Ok(l) => {
            let w = l.walk;
            let xs = s.isolations;
            let rs = s.retentions;
            Ok(texts(
                src,
                xs,
                rs,
                ports,
                d,
                p,
                g,
                &Rows {
                    rows: elements,
                    n: l.elements,
                },
                &PathList {
                    text,
                    ends,
                    n: w.count,
                },
                glue,
                report,
                at,
            ))
        }
    }
}

// A domain with both supplies.
fn supplied<'a>(
    src: &Source<'a>,
    k: usize,
    table: &[u32],
    prefix: usize,
    s: State,
    retained: &[u32],
    kept: usize,
    ports: &Rows,
    d: Domain,
    p: Below,
    g: Below,
    tail: &mut [u8],
    text: &mut [u8],
    ends: &mut [u32],
    glue: &mut [u8],
    report: &mut [u8],
    at: Told,
) -> Result<Told, TooMany>
    requires { (OfDomains src.now.design.index.job.now src.now.design.index.rows.now src.now.design.count k table.now src.now.mem.files.now src.now.mem.area.now src.now.scope.over.now src.now.scope.from prefix s retained.now kept ports.now.rows.now ports.now.n × OfOne src.now.mem.files.now src.now.mem.area.now d) × WalkRoom tail.old text.old ends.old }
    ensures { SuppliedTold src.now.design.index.job.now src.now.design.index.rows.now src.now.design.count k src.now.mem.files.now src.now.mem.area.now src.now.scope.over.now src.now.scope.from src.now.top.now s ports.now.rows.now ports.now.n d p g (glue.old ▸ at.glue) glue.new (report.old ▸ at.report) report.new result }
{
    let mut elements: [u32; 325] = [0; 325];
    supplied_by(
        src,
        k,
        table,
        prefix,
        s,
        retained,
        kept,
        ports,
        d,
        p,
        g,
        &mut elements,
        tail,
        text,
        ends,
        glue,
        report,
        at,
    )
}

// A domain without both supplies.
fn bare(mem: &Memory, d: Domain, report: &mut [u8], at: Told) -> Told
    ensures { Bare (memory mem.now) d at.glue (report.old ▸ at.report) report.new result }
{
    let name = d.name;
    let mut v = Text::over(report, at.report);
    unpowered_line(&mut v, mem, name);
    let b = v.end();
    Told {
        glue: at.glue,
        report: b,
    }
}

// A domain.
fn domain<'a>(
    src: &Source<'a>,
    k: usize,
    table: &[u32],
    prefix: usize,
    s: State,
    retained: &[u32],
    kept: usize,
    ports: &Rows,
    d: Domain,
    tail: &mut [u8],
    text: &mut [u8],
    ends: &mut [u32],
    glue: &mut [u8],
    report: &mut [u8],
    at: Told,
) -> Result<Told, TooMany>
    requires { (OfDomains src.now.design.index.job.now src.now.design.index.rows.now src.now.design.count k table.now src.now.mem.files.now src.now.mem.area.now src.now.scope.over.now src.now.scope.from prefix s retained.now kept ports.now.rows.now ports.now.n × OfOne src.now.mem.files.now src.now.mem.area.now d) × WalkRoom tail.old text.old ends.old }
    ensures { OneTold src.now.design.index.job.now src.now.design.index.rows.now src.now.design.count k src.now.mem.files.now src.now.mem.area.now src.now.scope.over.now src.now.scope.from src.now.top.now s ports.now.rows.now ports.now.n d (glue.old ▸ at.glue) glue.new (report.old ▸ at.report) report.new result }
{
    let power = d.power;
    let Some(p) = power else {
        return Ok(bare(&src.mem, d, report, at));
    };
    let ground_net = d.ground_net;
    let Some(g) = ground_net else {
        return Ok(bare(&src.mem, d, report, at));
    };
    supplied(
        src, k, table, prefix, s, retained, kept, ports, d, p, g, tail, text, ends, glue, report,
        at,
    )
}

// The glue and the report lines of all domains.
pub fn domains<'a>(
    src: &Source<'a>,
    k: usize,
    table: &[u32],
    prefix: usize,
    s: State,
    retained: &[u32],
    kept: usize,
    ports: &Rows,
    tail: &mut [u8],
    text: &mut [u8],
    ends: &mut [u32],
    glue: &mut [u8],
    report: &mut [u8],
    at: Told,
) -> Result<Told, TooMany>
    requires { OfDomains src.now.design.index.job.now src.now.design.index.rows.now src.now.design.count k table.now src.now.mem.files.now src.now.mem.area.now src.now.scope.over.now src.now.scope.from prefix s retained.now kept ports.now.rows.now ports.now.n × WalkRoom tail.old text.old ends.old }
    ensures { AllTold src.now.design.index.job.now src.now.design.index.rows.now src.now.design.count k src.now.mem.files.now src.now.mem.area.now src.now.scope.over.now src.now.scope.from src.now.top.now s ports.now.rows.now ports.now.n (glue.old ▸ at.glue) glue.new (report.old ▸ at.report) report.new result }
{
    let t = s.domains;
    let m = t.n;
    let mut o = at;
    for i in 0..m {
        let d = t.all[i];
        o = domain(
            src, k, table, prefix, s, retained, kept, ports, d, tail, text, ends, glue, report, o,
        )?;
    }
    Ok(o)
}
