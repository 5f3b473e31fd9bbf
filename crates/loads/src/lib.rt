// A load: what stands before it reads its file, and what is back behind it.
#![tactic(auto)]

ghost use Rattle.std.specs.Prelude.{◌≡◌};
ghost use Rattle.store.specs.declared.state.State.{State};
ghost use Rattle.scopes.specs.Moves.{place_of};
ghost use Rattle.loads.specs.Loads.{head_back, opened, file_of, Asked, Loading, Loaded};

use args::argument::name;
use filepaths::find_file;
use scopes::go::{Place, Stop, load_scope};
use spans::span::Memory;
use store::state::Head;
use text::part::Rows;

// Behind a load: the scope that stood before it, and the design top where there was one, else that of the load.
pub fn back(h: Head, g: Head) -> Head
    ensures { result ≡ head_back h g }
{
    Head {
        scope: h.scope,
        top: h.top.or(g.top),
    }
}

// What a load needs before it reads: the place in its scope, and the file.
#[derive(Clone, Copy)]
pub struct Load {
    pub place: Place,
    pub file: usize,
}

// A load up to its file: the scope that it enters, and the file that it names; `left` loads may still be nested.
// The area is written here, so it stays apart from the files; the files of the index are counted, not its numbers.
pub fn before_load(
    job: &[u8],
    files: &[u8],
    area: &mut [u8],
    nums: &[u32],
    count: usize,
    command: &Rows,
    p: Place,
    k: usize,
    left: usize,
) -> Result<Load, Stop>
    requires { Asked files.now area.old command.now.rows.now count command.now.n k p }
    ensures { (s : State) → Loading job.now files.now area.old nums.now command.now.rows.now count command.now.n k left s → place_of s ≡ p → Loaded job.now files.now area.old area.new nums.now count command.now.rows.now command.now.n k left s (opened s result) (file_of result) }
{
    let q = load_scope(files, area, command, p)?;
    if left == 0 {
        return Err(Stop::TooDeep);
    }
    let e = q.end;
    let mem = Memory {
        files,
        area: &area[..e],
    };
    let named = name(&mem, command);
    let f = find_file(job, nums, count, k, &mem, named);
    if f == count {
        return Err(Stop::NotListed);
    }
    Ok(Load { place: q, file: f })
}
