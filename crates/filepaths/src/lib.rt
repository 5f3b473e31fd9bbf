// Paths of files: a path is joined to the loader's directory as text.
#![tactic(auto)]

ghost use Rattle.std.specs.Prelude.{◌≡◌, ◌++◌, ◌≤◌};
ghost use Rattle.text.specs.Compare.{same};
ghost use Rattle.spans.specs.Span.{bytes};
ghost use Rattle.jobindex.specs.Index.{path_at, file_at, rows};
ghost use Rattle.model.specs.Scope.{below};
ghost use Rattle.model.specs.Up.{up_size};
ghost use Rattle.read.specs.Reading.{joined_path};
ghost use Rattle.filepaths.specs.Paths.{place_of};
ghost use Rattle.spans.specs.Memory.{memory};

use jobindex::{Index, path_at};
use spans::span::{Memory, Span, is};
use text::compare::starts_with;
use text::part::{part, peek, rest};

// How many bytes stand before the last `/`; none where there is none.
#[tactic(auto, using(crate::proofs::Finds::clears))]
fn directory(path: &[u8]) -> usize
    ensures { result ≡ up_size path.now }
{
    for i in (0..path.len()).rev() {
        if path[i] == b'/' {
            return i;
        }
    }
    0
}

// Whether a path is a name below a directory.
#[tactic(auto, using(crate::proofs::Finds::joins))]
fn is_joined<'a>(mem: &Memory<'a>, path: &[u8], directory: &[u8], name: Span) -> bool
    ensures { result ≡ same path.now (below directory.now (bytes (memory mem.now) name)) }
{
    let n = directory.len();
    if n == 0 {
        return is(mem, name, path);
    }
    if !starts_with(path, directory) {
        return false;
    }
    if peek(path, n) != b'/' {
        return false;
    }
    is(mem, name, rest(path, n + 1))
}

// The first of n files with the path of a name joined to the directory of file `loader`; n where there is none.
// n files of the index are looked at, not all its numbers.
#[tactic(auto, using(crate::proofs::Finds::finds))]
pub fn find_file<'a>(
    job: &[u8],
    nums: &[u32],
    n: usize,
    loader: usize,
    mem: &Memory<'a>,
    name: Span,
) -> usize
    requires { (n ≤ 32) × (loader ≤ 32) }
    ensures { result ≡ place_of (rows (file_at job.now nums.now) n) (joined_path (path_at job.now nums.now loader) (bytes (memory mem.now) name)) }
{
    let by = path_at(&Index { job, rows: nums }, loader);
    let d = part(by, 0, directory(by));
    for k in 0..n {
        if is_joined(mem, path_at(&Index { job, rows: nums }, k), d, name) {
            return k;
        }
    }
    n
}
