// The Tcl-subset reader, exported for the comparison with the Rust. What a function answers besides its number stands behind the references.
#![tactic(auto)]

ghost use Rattle.std.specs.Prelude.{◌≡◌, ◌++◌, ◌+◌, ◌≤◌, ◌<◌, ◌^◌, length, take, drop};
ghost use Rattle.spans.specs.Area.{Wrote};
ghost use Rattle.tcl.specs.Join.{join};
ghost use Rattle.tcl.specs.Lists.{list};
ghost use Rattle.tcl.specs.Arguments.{positionals, option_of, has_flag};
ghost use Rattle.substitution.specs.Stored.{variables};
ghost use Rattle.commands.specs.Stored.{NextOf};
ghost use Rattle.entries.specs.Entry.{entries_left, entry_bytes};
ghost use Rattle.entries.specs.View.{Finds as Item-as-Finds, next_of};
ghost use Rattle.args.specs.View.{words_from, pick, Finds};
ghost use Rattle.tclc.specs.Numbers.{next_by, item_by, found_by, read_by};

use spans::span::Memory;
use substitution::put::Full;
use text::part::Rows;

pub fn tclc_join(body: &[u8], area: &mut [u8]) -> usize
    requires { 0 + length body.now ≤ length area.old }
    ensures { Wrote area.old area.new 0 (join body.now) result }
{
    tcl::join::join(body, area, 0)
}

// The next command of the file that is the part of `len` bytes at `base`.
pub fn tclc_next(
    files: &[u8],
    base: usize,
    len: usize,
    at: usize,
    vars: &[u32],
    nv: usize,
    area: &mut [u8],
    o: usize,
    limit: usize,
    words: &mut [u32],
    count: &mut usize,
    next: &mut usize,
    end: &mut usize,
) -> u32
    requires { (length files.now + length area.old < 2 ^ 32) × ((256 ≤ length words.old) × ((o ≤ limit) × (limit ≤ length area.old))) }
    ensures { NextOf files.now (take len (drop base files.now)) at (variables (files.now ++ take o area.old) vars.now nv) area.old area.new o limit words.old words.new (next_by result count.new next.new end.new) }
{
    let r = commands::next::next_command(
        files,
        base,
        len,
        at,
        &Rows { rows: vars, n: nv },
        area,
        o,
        limit,
        words,
    );
    match r {
        Err(Full) => 1,
        Ok(None) => 0,
        Ok(Some(w)) => {
            *count = w.count;
            *next = w.next;
            *end = w.end;
            2
        }
    }
}

// The first entry of a value from `at` on.
pub fn tclc_entry(
    v: &[u8],
    at: usize,
    first: bool,
    from: &mut usize,
    size: &mut usize,
    next: &mut usize,
) -> u32
    ensures { Item-as-Finds v.now (entries_left first (drop at v.now)) (item_by result from.new size.new next.new) }
{
    let Some(item) = entries::item::next_entry(v, at, first) else {
        return 0;
    };
    *from = item.entry.at;
    *size = item.entry.len;
    *next = item.next;
    if item.quoted {
        return 2;
    }
    1
}

pub fn tclc_count(v: &[u8]) -> usize
    ensures { result ≡ length (list v.now) }
{
    entries::item::count(v)
}

// Positional word k.
pub fn tclc_positional(
    files: &[u8],
    area: &[u8],
    words: &[u32],
    n: usize,
    k: usize,
    at: &mut usize,
    len: &mut usize,
) -> u32
    ensures { Finds (files.now ++ area.now) words.now n (pick k (positionals (words_from (files.now ++ area.now) words.now n 1))) (found_by result at.new len.new) }
{
    let Some(s) = args::argument::positional(&Memory { files, area }, &Rows { rows: words, n }, k)
    else {
        return 0;
    };
    *at = s.at;
    *len = s.len;
    1
}

// The value of an option.
pub fn tclc_option<'a>(
    files: &'a [u8],
    area: &'a [u8],
    words: &[u32],
    n: usize,
    key: &[u8],
    at: &mut usize,
    len: &mut usize,
) -> u32
    ensures { Finds (files.now ++ area.now) words.now n (option_of key.now (words_from (files.now ++ area.now) words.now n 1)) (found_by result at.new len.new) }
{
    let Some(s) = args::argument::option(&Memory { files, area }, &Rows { rows: words, n }, key)
    else {
        return 0;
    };
    *at = s.at;
    *len = s.len;
    1
}

pub fn tclc_flag<'a>(files: &'a [u8], area: &'a [u8], words: &[u32], n: usize, key: &[u8]) -> bool
    ensures { result ≡ has_flag key.now (words_from (files.now ++ area.now) words.now n 1) }
{
    args::argument::flag(&Memory { files, area }, &Rows { rows: words, n }, key)
}

// The next byte of an entry from i on.
pub fn tclc_byte(raw: &[u8], i: usize, quoted: bool, byte: &mut u8, next: &mut usize) -> u32
    ensures { entry_bytes quoted (drop i raw.now) ≡ next_of quoted raw.now (read_by result byte.new next.new) }
{
    let Some((b, j)) = entries::byte::next_byte(raw, i, quoted) else {
        return 0;
    };
    *byte = b;
    *next = j;
    1
}
