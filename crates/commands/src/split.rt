// Splitting: the words of the next command as they are written.
ghost use Rattle.std.specs.Prelude.{◌+◌, ◌*◌, ◌≤◌, ◌<◌, ◌^◌, length};
ghost use Rattle.commands.specs.Stored.{Splits};

use substitution::put::Full;
use tcl::word::size;
use text::class::is_space;
use text::scan::find;

// The next command of a text from `at` on: two numbers a word, where it begins and how many bytes it has besides its first.
pub fn split(text: &[u8], at: usize, words: &mut [u32]) -> Result<Option<(usize, usize)>, Full>
    requires { (length text.now < 2 ^ 32) × (256 ≤ length words.old) }
    ensures { Splits text.now at words.old words.new result }
{
    let mut i = at;
    let mut n = 0;
    // Counted by hand: the place moves on by a whole word or comment, so an iterator is no plainer.
    while i < text.len() {
        let c = text[i];
        if (c == b'\n') | (c == b';') {
            if n == 0 {
                i += 1;
                continue;
            }
            return Ok(Some((n, i + 1)));
        }
        if is_space(c) {
            i += 1;
            continue;
        }
        if (c == b'#') & (n == 0) {
            i = find(text, i + 1, b'\n');
            continue;
        }
        if n == 128 {
            return Err(Full);
        }
        let l = size(text, i);
        words[2 * n] = i as u32;
        words[2 * n + 1] = (l - 1) as u32;
        n += 1;
        i += l;
    }
    if n == 0 {
        return Ok(None);
    }
    Ok(Some((n, i)))
}
