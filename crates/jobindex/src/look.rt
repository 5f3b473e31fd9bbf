// The lines whose value has to be new: they are looked at beside the index.
ghost use Rattle.std.specs.Prelude.{◌≡◌, ◌≤◌};
ghost use Rattle.joblines.specs.Forms.{numbered, verdict};
ghost use Rattle.joblines.specs.Lines.{file_read, module_read};
ghost use Rattle.jobindex.specs.Index.{path_at, name_at, inst_at, rows};
ghost use Rattle.jobindex.specs.Looks.{InstSeen, bytes_of};

use super::{Index, Span, Table};
use joblines::Refusal;

// Whether a line is a file line, good in a job that has `count` files. Where its key is another kind's, it is none. One function for this and for
// `module_line` would take the key, the test, the limit and the table of each, and be no plainer.
#[tactic(auto, using(crate::proofs::Looks::file_lines))]
pub fn file_line(index: &Index, line: &[u8], count: usize) -> Result<bool, Refusal>
    requires { count ≤ 32 }
    ensures { numbered result ≡ verdict (file_read (rows (path_at index.now.job.now index.now.rows.now) count) line.now) }
{
    if !text::compare::starts_with(line, b"file=") {
        return Ok(false);
    }
    let v = text::part::rest(line, 5);
    if !fields::is_path(v) {
        return Err(Refusal::Malformed);
    }
    if 32 <= count {
        return Err(Refusal::OverLimit);
    }
    if super::row_of(index, Table::Files, count, v).is_some() {
        return Err(Refusal::NotNew);
    }
    Ok(true)
}

// Whether a line is a module line, good in a job that has `count` modules.
#[tactic(auto, using(crate::proofs::Looks::module_lines))]
pub fn module_line(index: &Index, line: &[u8], count: usize) -> Result<bool, Refusal>
    requires { count ≤ 128 }
    ensures { numbered result ≡ verdict (module_read (rows (name_at index.now.job.now index.now.rows.now) count) line.now) }
{
    if !text::compare::starts_with(line, b"module=") {
        return Ok(false);
    }
    let v = text::part::rest(line, 7);
    if !fields::is_name(v) {
        return Err(Refusal::Malformed);
    }
    if 128 <= count {
        return Err(Refusal::OverLimit);
    }
    if super::row_of(index, Table::Modules, count, v).is_some() {
        return Err(Refusal::NotNew);
    }
    Ok(true)
}

// The name of the instance line that a line is, good in a module that has `count` instances: where it stands in the line's value.
#[tactic(auto, using(crate::proofs::Looks::inst_lines))]
pub fn inst_line(index: &Index, line: &[u8], count: usize) -> Result<Option<Span>, Refusal>
    requires { count ≤ 64 }
    ensures { InstSeen line.now (rows (inst_at index.now.job.now index.now.rows.now) count) result }
{
    if !text::compare::starts_with(line, b"inst=") {
        return Ok(None);
    }
    let v = text::part::rest(line, 5);
    let Some(f) = joblines::form::inst_form(v) else {
        return Err(Refusal::Malformed);
    };
    if 64 <= count {
        return Err(Refusal::OverLimit);
    }
    let own = text::part::part(v, f.name, f.len);
    if super::row_of(index, Table::Insts, count, own).is_some() {
        return Err(Refusal::NotNew);
    }
    let name = Span {
        at: f.name,
        len: f.len,
    };
    Ok(Some(name))
}

// The number of a line `bytes=N` with N at most 65,536; none where it is no such line.
#[tactic(auto, using(crate::proofs::Looks::bytes_lines))]
pub fn bytes_line(line: &[u8]) -> Option<usize>
    ensures { result ≡ bytes_of line.now }
{
    if !text::compare::starts_with(line, b"bytes=") {
        return None;
    }
    text::number::number(text::part::rest(line, 6), 65536)
}
