// One line of the job, by the lines that are due. A line begins at `from`, and its LF stands at `end`.
#![tactic(auto)]

ghost use Rattle.std.specs.Prelude.{◌≡◌, List, [], ◌∷◌, ℕ, ◌+◌, ◌≤◌, ◌<◌, ◌^◌, length, drop};
ghost use Rattle.joblines.specs.Lines.{first_of, top_line, override_line, start_line, file_line, bytes_line, module_line, style_line, port_line, decl_line, inst_line, conn_line, end_line};
ghost use Rattle.jobindex.specs.Index.{index_size, bytes_at, job_of};
ghost use Rattle.jobindex.specs.Stores.{with_name};
ghost use Rattle.jobsteps.specs.State.{line_of, job_in, Outside, Inside, BytesDue, StyleDue, PortsDue, DeclsDue, InstsDue, Alone, Asked, Stepped, file_on, module_on, port_on, decl_on, conn_on, inst_on};

use jobindex::{Header, Index, Open, Span};
use joblines::Refusal;

// Which lines are due. `Nothing` is one state of eleven, in which a job is whole: an option around the other ten is no plainer.
#[derive(PartialEq, Eq, Clone, Copy, Debug)]
pub enum Due {
    Top,
    Override,
    Start,
    File,
    Bytes { at: usize, len: usize },
    More,
    Style { at: usize, len: usize },
    Ports,
    Decls,
    Insts,
    Nothing,
}

// The reading goes on, at a place.
#[derive(PartialEq, Eq, Clone, Copy, Debug)]
pub struct Step {
    pub at: usize,
    pub due: Due,
    pub head: Header,
    pub opened: Open,
}

// `top=NAME` is due. One function for this and for `start_step` would take the test, the key's length, the part of the header and what is due next of each,
// and be no plainer.
pub fn top_step(
    job: &[u8],
    from: usize,
    end: usize,
    head: Header,
    opened: Open,
) -> Result<Step, Refusal>
    requires { Alone job.now from end (Outside job.now head from) }
    ensures { (index : List ℕ) → Stepped job.now index index from (first_of (top_line ∷ []) (job_of job.now index head) (line_of job.now from end) (drop (end + 1) job.now)) result }
{
    let line = text::part::part(job, from, end - from);
    if !joblines::is_top(line) {
        return Err(Refusal::Malformed);
    }
    let v = text::part::rest(line, 4);
    let top = Span {
        at: from + 4,
        len: v.len(),
    };
    let mut head = head;
    head.top = top;
    Ok(Step {
        at: end + 1,
        due: Due::Override,
        head,
        opened,
    })
}

// `override=PATH` is due.
pub fn override_step(
    job: &[u8],
    from: usize,
    end: usize,
    head: Header,
    opened: Open,
) -> Result<Step, Refusal>
    requires { Alone job.now from end (Outside job.now head from) }
    ensures { (index : List ℕ) → Stepped job.now index index from (first_of (override_line ∷ []) (job_of job.now index head) (line_of job.now from end) (drop (end + 1) job.now)) result }
{
    let line = text::part::part(job, from, end - from);
    if !text::compare::starts_with(line, b"override=") {
        return Err(Refusal::Malformed);
    }
    let v = text::part::rest(line, 9);
    let over = Span {
        at: from + 9,
        len: v.len(),
    };
    let mut head = head;
    head.over = over;
    Ok(Step {
        at: end + 1,
        due: Due::Start,
        head,
        opened,
    })
}

// `start=PATH` is due.
pub fn start_step(
    job: &[u8],
    from: usize,
    end: usize,
    head: Header,
    opened: Open,
) -> Result<Step, Refusal>
    requires { Alone job.now from end (Outside job.now head from) }
    ensures { (index : List ℕ) → Stepped job.now index index from (first_of (start_line ∷ []) (job_of job.now index head) (line_of job.now from end) (drop (end + 1) job.now)) result }
{
    let line = text::part::part(job, from, end - from);
    if !joblines::is_start(line) {
        return Err(Refusal::Malformed);
    }
    let v = text::part::rest(line, 6);
    let start = Span {
        at: from + 6,
        len: v.len(),
    };
    let mut head = head;
    head.start = start;
    Ok(Step {
        at: end + 1,
        due: Due::File,
        head,
        opened,
    })
}

// The first `file=PATH` is due. One function for this and for `module_step` would take the count, the test and the step of each, and be no plainer.
pub fn file_step(
    index: &Index,
    from: usize,
    end: usize,
    head: Header,
    opened: Open,
) -> Result<Step, Refusal>
    requires { Asked index.now.job.now index.now.rows.now from end (Outside index.now.job.now head from) }
    ensures { Stepped index.now.job.now index.now.rows.now index.now.rows.now from (first_of (file_line ∷ []) (job_of index.now.job.now index.now.rows.now head) (line_of index.now.job.now from end) (drop (end + 1) index.now.job.now)) result }
{
    let line = text::part::part(index.job, from, end - from);
    let count = head.files;
    if jobindex::look::file_line(index, line, count)? {
        return Ok(file_on(line, from, end, head, opened));
    }
    Err(Refusal::Malformed)
}

// A file's path is read, and its bytes are due. One function for this and for `module_on` would take the key's length and the variant of `Due`, and be
// no plainer.
fn file_on(line: &[u8], from: usize, end: usize, head: Header, opened: Open) -> Step
    requires { (from < 2 ^ 32) × (end < 2 ^ 32) }
    ensures { result ≡ file_on line.now from end head opened }
{
    let v = text::part::rest(line, 5);
    let due = Due::Bytes {
        at: from + 5,
        len: v.len(),
    };
    Step {
        at: end + 1,
        due,
        head,
        opened,
    }
}

// `bytes=N` is due, for the file with the path at `at`.
pub fn bytes_step(
    job: &[u8],
    index: &mut [u32],
    from: usize,
    end: usize,
    at: usize,
    len: usize,
    head: Header,
    opened: Open,
) -> Result<Step, Refusal>
    requires { Asked job.now index.old from end (BytesDue job.now head at len from) }
    ensures { Stepped job.now index.old index.new from (first_of (bytes_line (bytes_at job.now at len) ∷ []) (job_of job.now index.old head) (line_of job.now from end) (drop (end + 1) job.now)) result }
{
    let line = text::part::part(job, from, end - from);
    let n = jobindex::look::bytes_line(line);
    let Some(size) = n else {
        return Err(Refusal::Malformed);
    };
    let body = end + 1;
    if job.len() - body <= size {
        return Err(Refusal::Malformed);
    }
    if job[body + size] != b'\n' {
        return Err(Refusal::Malformed);
    }
    let files = head.files;
    jobindex::put_file(index, files, at, len, body, size);
    let mut head = head;
    head.files = files + 1;
    Ok(Step {
        at: body + size + 1,
        due: Due::More,
        head,
        opened,
    })
}

// Another file, or the first module, is due.
pub fn more_step(
    index: &Index,
    from: usize,
    end: usize,
    head: Header,
    opened: Open,
) -> Result<Step, Refusal>
    requires { Asked index.now.job.now index.now.rows.now from end (Outside index.now.job.now head from) }
    ensures { Stepped index.now.job.now index.now.rows.now index.now.rows.now from (first_of (file_line ∷ module_line ∷ []) (job_of index.now.job.now index.now.rows.now head) (line_of index.now.job.now from end) (drop (end + 1) index.now.job.now)) result }
{
    let line = text::part::part(index.job, from, end - from);
    let count = head.files;
    if jobindex::look::file_line(index, line, count)? {
        return Ok(file_on(line, from, end, head, opened));
    }
    module_step(index, from, end, head, opened)
}

// A module is due.
fn module_step(
    index: &Index,
    from: usize,
    end: usize,
    head: Header,
    opened: Open,
) -> Result<Step, Refusal>
    requires { Asked index.now.job.now index.now.rows.now from end (Outside index.now.job.now head from) }
    ensures { Stepped index.now.job.now index.now.rows.now index.now.rows.now from (first_of (module_line ∷ []) (job_of index.now.job.now index.now.rows.now head) (line_of index.now.job.now from end) (drop (end + 1) index.now.job.now)) result }
{
    let line = text::part::part(index.job, from, end - from);
    let count = head.modules;
    if jobindex::look::module_line(index, line, count)? {
        return Ok(module_on(line, from, end, head, opened));
    }
    Err(Refusal::Malformed)
}

// A module's name is read, and its style is due.
fn module_on(line: &[u8], from: usize, end: usize, head: Header, opened: Open) -> Step
    requires { (from < 2 ^ 32) × (end < 2 ^ 32) }
    ensures { result ≡ module_on line.now from end head opened }
{
    let v = text::part::rest(line, 7);
    let due = Due::Style {
        at: from + 7,
        len: v.len(),
    };
    Step {
        at: end + 1,
        due,
        head,
        opened,
    }
}

// `style=` is due, for the module with the name at `at`.
pub fn style_step(
    job: &[u8],
    from: usize,
    end: usize,
    at: usize,
    len: usize,
    head: Header,
) -> Result<Step, Refusal>
    requires { Alone job.now from end (StyleDue job.now head at len from) }
    ensures { (index : List ℕ) → Stepped job.now index index from (first_of (style_line (bytes_at job.now at len) ∷ []) (job_of job.now index head) (line_of job.now from end) (drop (end + 1) job.now)) result }
{
    let line = text::part::part(job, from, end - from);
    if !text::compare::starts_with(line, b"style=") {
        return Err(Refusal::Malformed);
    }
    let Some(style) = fields::read_style(text::part::rest(line, 6)) else {
        return Err(Refusal::Malformed);
    };
    let next = end + 1;
    let name = Span { at, len };
    let opened = Open {
        name,
        style,
        ports: next,
        decls: next,
        insts: next,
        end: next,
        nports: 0,
        ndecls: 0,
        ninsts: 0,
        nconns: 0,
    };
    Ok(Step {
        at: next,
        due: Due::Ports,
        head,
        opened,
    })
}

// In a module, behind its style or a port.
pub fn ports_step(
    job: &[u8],
    index: &mut [u32],
    from: usize,
    end: usize,
    head: Header,
    opened: Open,
) -> Result<Step, Refusal>
    requires { Asked job.now index.old from end (PortsDue job.now index.old head opened from) }
    ensures { Stepped job.now index.old index.new from (first_of (port_line ∷ decl_line ∷ inst_line ∷ module_line ∷ end_line ∷ []) (job_in job.now index.old head opened) (line_of job.now from end) (drop (end + 1) job.now)) result }
{
    let line = text::part::part(job, from, end - from);
    let style = opened.style;
    let count = opened.nports;
    if joblines::port_line(line, style, count)? {
        return Ok(port_on(end, head, opened));
    }
    decls_step(job, index, from, end, head, opened)
}

// A port is read.
fn port_on(end: usize, head: Header, opened: Open) -> Step
    requires { (end < 2 ^ 32) × (opened.nports < 2 ^ 32) }
    ensures { result ≡ port_on end head opened }
{
    let next = end + 1;
    let mut opened = opened;
    opened.decls = next;
    opened.insts = next;
    opened.end = next;
    opened.nports = opened.nports + 1;
    Step {
        at: next,
        due: Due::Ports,
        head,
        opened,
    }
}

// In a module, behind a declaration. One function for this and for `conns_step` would take the count, the test and the step of each, and be no plainer.
#[inline(always)]
pub fn decls_step(
    job: &[u8],
    index: &mut [u32],
    from: usize,
    end: usize,
    head: Header,
    opened: Open,
) -> Result<Step, Refusal>
    requires { Asked job.now index.old from end (DeclsDue job.now index.old head opened from) }
    ensures { Stepped job.now index.old index.new from (first_of (decl_line ∷ inst_line ∷ module_line ∷ end_line ∷ []) (job_in job.now index.old head opened) (line_of job.now from end) (drop (end + 1) job.now)) result }
{
    let line = text::part::part(job, from, end - from);
    let count = opened.ndecls;
    if joblines::decl_line(line, count)? {
        return Ok(decl_on(end, head, opened));
    }
    insts_step(job, index, from, end, head, opened)
}

// A declaration is read.
fn decl_on(end: usize, head: Header, opened: Open) -> Step
    requires { (end < 2 ^ 32) × (opened.ndecls < 2 ^ 32) }
    ensures { result ≡ decl_on end head opened }
{
    let next = end + 1;
    let mut opened = opened;
    opened.insts = next;
    opened.end = next;
    opened.ndecls = opened.ndecls + 1;
    Step {
        at: next,
        due: Due::Decls,
        head,
        opened,
    }
}

// In a module, behind an instance or a connection.
pub fn conns_step(
    job: &[u8],
    index: &mut [u32],
    from: usize,
    end: usize,
    head: Header,
    opened: Open,
) -> Result<Step, Refusal>
    requires { Asked job.now index.old from end (InstsDue job.now index.old head opened from) }
    ensures { Stepped job.now index.old index.new from (first_of (conn_line ∷ inst_line ∷ module_line ∷ end_line ∷ []) (job_in job.now index.old head opened) (line_of job.now from end) (drop (end + 1) job.now)) result }
{
    let line = text::part::part(job, from, end - from);
    let count = opened.nconns;
    if joblines::conn_line(line, count)? {
        return Ok(conn_on(end, head, opened));
    }
    insts_step(job, index, from, end, head, opened)
}

// A connection is read.
fn conn_on(end: usize, head: Header, opened: Open) -> Step
    requires { (end < 2 ^ 32) × (opened.nconns < 2 ^ 32) }
    ensures { result ≡ conn_on end head opened }
{
    let next = end + 1;
    let mut opened = opened;
    opened.end = next;
    opened.nconns = opened.nconns + 1;
    Step {
        at: next,
        due: Due::Insts,
        head,
        opened,
    }
}

// In a module, where an instance may stand.
#[inline(always)]
fn insts_step(
    job: &[u8],
    index: &mut [u32],
    from: usize,
    end: usize,
    head: Header,
    opened: Open,
) -> Result<Step, Refusal>
    requires { Asked job.now index.old from end (Inside job.now index.old head opened from) }
    ensures { Stepped job.now index.old index.new from (first_of (inst_line ∷ module_line ∷ end_line ∷ []) (job_in job.now index.old head opened) (line_of job.now from end) (drop (end + 1) job.now)) result }
{
    let line = text::part::part(job, from, end - from);
    let count = opened.ninsts;
    if let Some(name) = jobindex::look::inst_line(
        &Index {
            job,
            rows: &index[..],
        },
        line,
        count,
    )? {
        return Ok(inst_on(index, from + 5 + name.at, name.len, end, head, opened));
    }
    leave_step(job, index, from, end, head, opened)
}

// An instance is read, whose name stands at `at`.
fn inst_on(index: &mut [u32], at: usize, len: usize, end: usize, head: Header, opened: Open) -> Step
    requires { (end < 2 ^ 32) × ((opened.ninsts < 64) × ((index_size ≤ length index.old) × ((at < 2 ^ 32) × (len < 2 ^ 32)))) }
    ensures { (result ≡ inst_on end head opened) × (index.new ≡ with_name index.old opened.ninsts at len) }
{
    let next = end + 1;
    let count = opened.ninsts;
    jobindex::put_name(index, count, at, len);
    let mut opened = opened;
    opened.end = next;
    opened.ninsts = count + 1;
    opened.nconns = 0;
    Step {
        at: next,
        due: Due::Insts,
        head,
        opened,
    }
}

// The module that is being read ends before this line.
#[inline(always)]
fn leave_step(
    job: &[u8],
    index: &mut [u32],
    from: usize,
    end: usize,
    head: Header,
    opened: Open,
) -> Result<Step, Refusal>
    requires { Asked job.now index.old from end (Inside job.now index.old head opened from) }
    ensures { Stepped job.now index.old index.new from (first_of (module_line ∷ end_line ∷ []) (job_in job.now index.old head opened) (line_of job.now from end) (drop (end + 1) job.now)) result }
{
    let modules = head.modules;
    jobindex::put_module(index, modules, opened);
    let mut head = head;
    head.modules = modules + 1;
    next_step(
        &Index {
            job,
            rows: &index[..],
        },
        from,
        end,
        head,
        opened,
    )
}

// Another module, or `end=`, is due.
fn next_step(
    index: &Index,
    from: usize,
    end: usize,
    head: Header,
    opened: Open,
) -> Result<Step, Refusal>
    requires { Asked index.now.job.now index.now.rows.now from end (Outside index.now.job.now head from) }
    ensures { Stepped index.now.job.now index.now.rows.now index.now.rows.now from (first_of (module_line ∷ end_line ∷ []) (job_of index.now.job.now index.now.rows.now head) (line_of index.now.job.now from end) (drop (end + 1) index.now.job.now)) result }
{
    let line = text::part::part(index.job, from, end - from);
    let count = head.modules;
    if jobindex::look::module_line(index, line, count)? {
        return Ok(module_on(line, from, end, head, opened));
    }
    end_step(index.job, from, end, head, opened)
}

// `end=` is due.
fn end_step(
    job: &[u8],
    from: usize,
    end: usize,
    head: Header,
    opened: Open,
) -> Result<Step, Refusal>
    requires { Alone job.now from end (Outside job.now head from) }
    ensures { (index : List ℕ) → Stepped job.now index index from (first_of (end_line ∷ []) (job_of job.now index head) (line_of job.now from end) (drop (end + 1) job.now)) result }
{
    let line = text::part::part(job, from, end - from);
    if !text::compare::same(line, b"end=") {
        return Err(Refusal::Malformed);
    }
    Ok(Step {
        at: end + 1,
        due: Due::Nothing,
        head,
        opened,
    })
}
