// Substituting: what the words of a command come to.
ghost use Rattle.std.specs.Prelude.{◌+◌, ◌*◌, ◌≤◌, ◌<◌, ◌^◌, ◌≡◌, [], ◌++◌, cond, length, take, drop};
ghost use Rattle.spans.specs.Span.{pairs};
ghost use Rattle.spans.specs.Frame.{last_end};
ghost use Rattle.tcl.specs.Substitution.{value, has_dollar, substitute as Substitution·substitute};
ghost use Rattle.substitution.specs.Stored.{variables};
ghost use Rattle.substitution.specs.Written.{written};
ghost use Rattle.commands.specs.Reading.{result as result_bytes};
ghost use Rattle.commands.specs.Stored.{Filed, written_at, written_words, Placed, Resolves};

use spans::span::{Span, pair};
use substitution::put::{Full, substitute};
use text::part::{Rows, part, peek};
use text::scan::find;

// A quoted word, or a plain one with a `$`, substituted to the area.
fn to_area(
    files: &[u8],
    vars: &Rows,
    body: &[u8],
    quoted: bool,
    area: &mut [u8],
    m: usize,
    o: usize,
    limit: usize,
) -> Result<(Span, usize), Full>
    requires { (m ≤ o) × ((o ≤ limit) × (limit ≤ length area.old)) }
    ensures { Placed files.now area.old area.new o limit (Substitution·substitute (variables (files.now ++ take m area.old) vars.now.rows.now vars.now.n) (written quoted body.now)) (Substitution·substitute (variables (files.now ++ take m area.old) vars.now.rows.now vars.now.n) (written quoted body.now)) result }
{
    let e = substitute(files, vars, body, quoted, area, m, o, limit)?;
    Ok((
        Span {
            at: files.len() + o,
            len: e - o,
        },
        e,
    ))
}

// A plain word: a part of the file where it has no `$`.
fn plain_word(
    files: &[u8],
    at: usize,
    vars: &Rows,
    body: &[u8],
    area: &mut [u8],
    m: usize,
    o: usize,
    limit: usize,
) -> Result<(Span, usize), Full>
    requires { (body.now ≡ take (length body.now) (drop at files.now)) × ((at + length body.now ≤ length files.now) × ((m ≤ o) × ((o ≤ limit) × (limit ≤ length area.old)))) }
    ensures { Placed files.now area.old area.new o limit (Substitution·substitute (variables (files.now ++ take m area.old) vars.now.rows.now vars.now.n) body.now) (cond (has_dollar body.now) (Substitution·substitute (variables (files.now ++ take m area.old) vars.now.rows.now vars.now.n) body.now) []) result }
{
    if find(body, 0, b'$') < body.len() {
        return to_area(files, vars, body, false, area, m, o, limit);
    }
    Ok((
        Span {
            at: at,
            len: body.len(),
        },
        o,
    ))
}

// What the word comes to that is written at s in the text, which begins at `base` in the files.
fn word(
    files: &[u8],
    base: usize,
    text: &[u8],
    s: Span,
    vars: &Rows,
    area: &mut [u8],
    m: usize,
    o: usize,
    limit: usize,
) -> Result<(Span, usize), Full>
    requires { Filed files.now base text.now × ((s.at + s.len ≤ length text.now) × ((m ≤ o) × ((o ≤ limit) × (limit ≤ length area.old)))) }
    ensures { Placed files.now area.old area.new o limit (value (variables (files.now ++ take m area.old) vars.now.rows.now vars.now.n) (written_at text.now s)) (result_bytes (variables (files.now ++ take m area.old) vars.now.rows.now vars.now.n) (written_at text.now s)) result }
{
    let c = peek(text, s.at);
    let whole = part(text, s.at, s.len + 1);
    let inner = part(text, s.at + 1, s.len.saturating_sub(1));
    if c == b'{' {
        return Ok((
            Span {
                at: base + s.at + 1,
                len: inner.len(),
            },
            o,
        ));
    }
    if c == b'"' {
        return to_area(files, vars, inner, true, area, m, o, limit);
    }
    if c == b'[' {
        return Ok((
            Span {
                at: base + s.at,
                len: whole.len(),
            },
            o,
        ));
    }
    plain_word(files, base + s.at, vars, whole, area, m, o, limit)
}

// Puts in place of each of the first n written words of the text the span of what it comes to.
pub fn resolve(
    files: &[u8],
    base: usize,
    text: &[u8],
    vars: &Rows,
    area: &mut [u8],
    at: usize,
    limit: usize,
    words: &mut [u32],
    n: usize,
) -> Result<usize, Full>
    requires { Filed files.now base text.now × ((last_end (pairs words.old 0 n) ≤ length text.now) × ((2 * n ≤ length words.old) × ((n ≤ 128) × ((length files.now + length area.old < 2 ^ 32) × ((at ≤ limit) × (limit ≤ length area.old)))))) }
    ensures { Resolves files.now area.old area.new words.old words.new (variables (files.now ++ take at area.old) vars.now.rows.now vars.now.n) at limit (written_words text.now words.old 0 n) n result }
{
    let mut o = at;
    for k in 0..n {
        let s = pair(words, k);
        let (w, e) = word(files, base, text, s, vars, area, at, o, limit)?;
        words[2 * k] = w.at as u32;
        words[2 * k + 1] = w.len as u32;
        o = e;
    }
    Ok(o)
}
