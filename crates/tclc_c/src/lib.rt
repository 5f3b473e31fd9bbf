// The Tcl-subset reader, for a caller in C or Rust: tests/oracle links this crate to compare it with the Rust.
#![tactic(auto)]

ghost use Rattle.std.specs.Prelude.{◌≡◌, ◌++◌, ◌+◌, ◌≤◌, ◌<◌, ◌^◌, length, take, drop};
ghost use Rattle.spans.specs.Area.{Wrote};
ghost use Rattle.tcl.specs.Join.{join};
ghost use Rattle.tcl.specs.Lists.{list};
ghost use Rattle.tcl.specs.Arguments.{positionals, option_of, has_flag};
ghost use Rattle.substitution.specs.Stored.{variables};
ghost use Rattle.commands.specs.Stored.{NextOf};
ghost use Rattle.entries.specs.Entry.{entries_left, entry_bytes};
ghost use Rattle.entries.specs.View.{Finds as Item-as-Finds, next_of};
ghost use Rattle.args.specs.View.{words_from, pick, Finds};
ghost use Rattle.tclc.specs.Numbers.{next_by, item_by, found_by, read_by};

#[unsafe(no_mangle)]
pub extern "C" fn tclc_join(body: &[u8], area: &mut [u8]) -> usize
    requires { 0 + length body.now ≤ length area.old }
    ensures { Wrote area.old area.new 0 (join body.now) result }
{
    tclc::tclc_join(body, area)
}

// The next command of the file that is the part of `len` bytes at `base`.
#[unsafe(no_mangle)]
pub extern "C" fn tclc_next(
    files: &[u8],
    base: usize,
    len: usize,
    at: usize,
    vars: &[u32],
    nv: usize,
    area: &mut [u8],
    o: usize,
    limit: usize,
    words: &mut [u32],
    count: &mut usize,
    next: &mut usize,
    end: &mut usize,
) -> u32
    requires { (length files.now + length area.old < 2 ^ 32) × ((256 ≤ length words.old) × ((o ≤ limit) × (limit ≤ length area.old))) }
    ensures { NextOf files.now (take len (drop base files.now)) at (variables (files.now ++ take o area.old) vars.now nv) area.old area.new o limit words.old words.new (next_by result count.new next.new end.new) }
{
    tclc::tclc_next(
        files, base, len, at, vars, nv, area, o, limit, words, count, next, end,
    )
}

// The first entry of a value from `at` on.
#[unsafe(no_mangle)]
pub extern "C" fn tclc_entry(
    v: &[u8],
    at: usize,
    first: bool,
    from: &mut usize,
    size: &mut usize,
    next: &mut usize,
) -> u32
    ensures { Item-as-Finds v.now (entries_left first (drop at v.now)) (item_by result from.new size.new next.new) }
{
    tclc::tclc_entry(v, at, first, from, size, next)
}

#[unsafe(no_mangle)]
pub extern "C" fn tclc_count(v: &[u8]) -> usize
    ensures { result ≡ length (list v.now) }
{
    tclc::tclc_count(v)
}

// Positional word k.
#[unsafe(no_mangle)]
pub extern "C" fn tclc_positional(
    files: &[u8],
    area: &[u8],
    words: &[u32],
    n: usize,
    k: usize,
    at: &mut usize,
    len: &mut usize,
) -> u32
    ensures { Finds (files.now ++ area.now) words.now n (pick k (positionals (words_from (files.now ++ area.now) words.now n 1))) (found_by result at.new len.new) }
{
    tclc::tclc_positional(files, area, words, n, k, at, len)
}

// The value of an option.
#[unsafe(no_mangle)]
pub extern "C" fn tclc_option<'a>(
    files: &'a [u8],
    area: &'a [u8],
    words: &[u32],
    n: usize,
    key: &[u8],
    at: &mut usize,
    len: &mut usize,
) -> u32
    ensures { Finds (files.now ++ area.now) words.now n (option_of key.now (words_from (files.now ++ area.now) words.now n 1)) (found_by result at.new len.new) }
{
    tclc::tclc_option(files, area, words, n, key, at, len)
}

#[unsafe(no_mangle)]
pub extern "C" fn tclc_flag<'a>(
    files: &'a [u8],
    area: &'a [u8],
    words: &[u32],
    n: usize,
    key: &[u8],
) -> bool
    ensures { result ≡ has_flag key.now (words_from (files.now ++ area.now) words.now n 1) }
{
    tclc::tclc_flag(files, area, words, n, key)
}

// The next byte of an entry from i on.
#[unsafe(no_mangle)]
pub extern "C" fn tclc_byte(
    raw: &[u8],
    i: usize,
    quoted: bool,
    byte: &mut u8,
    next: &mut usize,
) -> u32
    ensures { entry_bytes quoted (drop i raw.now) ≡ next_of quoted raw.now (read_by result byte.new next.new) }
{
    tclc::tclc_byte(raw, i, quoted, byte, next)
}
