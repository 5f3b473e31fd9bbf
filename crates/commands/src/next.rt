// The next command of a file.
ghost use Rattle.std.specs.Prelude.{◌+◌, ◌≤◌, ◌<◌, ◌^◌, ◌++◌, length, take, drop};
ghost use Rattle.substitution.specs.Stored.{variables};
ghost use Rattle.commands.specs.Stored.{NextOf};

use super::resolve::resolve;
use super::split::split;
use substitution::put::Full;
use text::part::{Rows, part};

// A command: how many words it has, where the next command begins, and where the area ends.
#[derive(Clone, Copy)]
pub struct Words {
    pub count: usize,
    pub next: usize,
    pub end: usize,
}

// The next command from `at` on of the file that is the part of `len` bytes at `base`.
pub fn next_command(
    files: &[u8],
    base: usize,
    len: usize,
    at: usize,
    vars: &Rows,
    area: &mut [u8],
    o: usize,
    limit: usize,
    words: &mut [u32],
) -> Result<Option<Words>, Full>
    requires { (length files.now + length area.old < 2 ^ 32) × ((256 ≤ length words.old) × ((o ≤ limit) × (limit ≤ length area.old))) }
    ensures { NextOf files.now (take len (drop base files.now)) at (variables (files.now ++ take o area.old) vars.now.rows.now vars.now.n) area.old area.new o limit words.old words.new result }
{
    let text = part(files, base, len);
    let Some((n, next)) = split(text, at, words)? else {
        return Ok(None);
    };
    let end = resolve(files, base, text, vars, area, o, limit, words, n)?;
    Ok(Some(Words {
        count: n,
        next: next,
        end: end,
    }))
}
