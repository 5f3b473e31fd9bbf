// The index in the lent area of u32: at most 1,280 numbers.
//   0 to 127       32 files, 4 numbers each: path at, path length, body at, body length
//   128 to 1151    128 modules, 8 numbers each: name at, name length, style, where its ports, declarations and instances begin, where it
//                  ends, number of instances
//   1152 to 1279   64 names of the instances of the module that is being read, 2 numbers each: name at, name length
// Places are offsets in the job. The lines of ports, declarations, instances and connections are not indexed: their sections are scanned.
#![tactic(auto)]

ghost use Rattle.std.specs.Prelude.{◌≡◌, ◌+◌, ◌≤◌, ◌<◌, ◌^◌, length};
ghost use Rattle.jobindex.specs.Index.{index_size, num, bytes_at, path_at, name_at, named_at, first_of, step_of, row_of};
ghost use Rattle.jobindex.specs.Stores.{Fits, with_four, with_file, with_module, with_name};

pub mod look;

use fields::Style;
use text::part::place;

// A job and its index. Each has a lifetime of its own: a name of the job lives on when the index is written.
#[derive(Clone, Copy)]
pub struct Index<'a, 'b> {
    pub job: &'a [u8],
    pub rows: &'b [u32],
}

// The modules of a job: its index, and how many there are.
#[derive(Clone, Copy)]
pub struct Design<'a> {
    pub index: Index<'a, 'a>,
    pub count: usize,
}

// A part of the job: where it begins, and its length. It is no `Span` of `spans`, a part of the files and the area: one type for both would be no
// plainer, since the one could then be taken for the other.
#[derive(PartialEq, Eq, Clone, Copy, Debug)]
pub struct Span {
    pub at: usize,
    pub len: usize,
}

// A table of the index whose rows have a name: the files, the modules, and the instances of the module that is being read.
#[derive(PartialEq, Eq, Clone, Copy, Debug)]
pub enum Table {
    Files,
    Modules,
    Insts,
}

// What was read beside the design, how many files and modules there are, and the rows of the start file and the top module.
#[derive(PartialEq, Eq, Clone, Copy, Debug)]
pub struct Header {
    pub top: Span,
    pub over: Span,
    pub start: Span,
    pub files: usize,
    pub modules: usize,
    pub startfile: usize,
    pub topmodule: usize,
}

// The module that is being read: its name and style, where its ports, declarations and instances begin, where it ends, and how many lines
// of each kind it has (of connections: its last instance).
#[derive(PartialEq, Eq, Clone, Copy, Debug)]
pub struct Open {
    pub name: Span,
    pub style: Style,
    pub ports: usize,
    pub decls: usize,
    pub insts: usize,
    pub end: usize,
    pub nports: usize,
    pub ndecls: usize,
    pub ninsts: usize,
    pub nconns: usize,
}

// The part of the job whose place and length stand from i on, in the index or in another table.
// The two stay apart: the part lives as long as the job, not as the numbers.
pub fn part_at<'a>(job: &'a [u8], index: &[u32], i: usize) -> &'a [u8]
    requires { i ≤ 2 ^ 32 }
    ensures { result.now ≡ bytes_at job.now (num index.now i) (num index.now (i + 1)) }
{
    text::part::part(job, place(index, i), place(index, i + 1))
}

// The path of file k.
#[tactic(auto, unfolding(crate::specs::Index::path_at))]
pub fn path_at<'a>(index: &Index<'a, '_>, k: usize) -> &'a [u8]
    requires { k ≤ 128 }
    ensures { result.now ≡ path_at index.now.job.now index.now.rows.now k }
{
    part_at(index.job, index.rows, 4 * k)
}

// The name of module k.
#[tactic(auto, unfolding(crate::specs::Index::name_at))]
pub fn name_at<'a>(index: &Index<'a, '_>, k: usize) -> &'a [u8]
    requires { k ≤ 128 }
    ensures { result.now ≡ name_at index.now.job.now index.now.rows.now k }
{
    part_at(index.job, index.rows, 128 + 8 * k)
}

// Where the name of a table's first row stands.
fn first_of(table: Table) -> usize
    ensures { result ≡ first_of table }
{
    match table {
        Table::Files => 0,
        Table::Modules => 128,
        Table::Insts => 1152,
    }
}

// How far on the name of the next row is.
fn step_of(table: Table) -> usize
    ensures { result ≡ step_of table }
{
    match table {
        Table::Files => 4,
        Table::Modules => 8,
        Table::Insts => 2,
    }
}

// The name of row k of a table, whose names stand from `first` on, `step` apart: asked once, and not for each row.
#[tactic(auto, using(crate::proofs::Places::placing))]
fn named_at<'a>(
    index: &Index<'a, '_>,
    table: Table,
    first: usize,
    step: usize,
    k: usize,
) -> &'a [u8]
    requires { (k ≤ 128) × ((first ≡ first_of table) × (step ≡ step_of table)) }
    ensures { result.now ≡ named_at table index.now.job.now index.now.rows.now k }
{
    part_at(index.job, index.rows, first + step * k)
}

// The last of the first `count` rows of a table with a name.
#[tactic(auto, using(crate::specs::Rows::row_loops))]
pub fn row_of(index: &Index, table: Table, count: usize, name: &[u8]) -> Option<usize>
    requires { count ≤ 128 }
    ensures { result ≡ row_of (named_at table index.now.job.now index.now.rows.now) name.now count }
{
    let first = first_of(table);
    let step = step_of(table);
    for k in (0..count).rev() {
        if text::compare::same(named_at(index, table, first, step, k), name) {
            return Some(k);
        }
    }
    None
}

// Four numbers of a row, from i on.
fn put_four(index: &mut [u32], i: usize, a: u32, b: u32, c: u32, d: u32)
    requires { i + 4 ≤ length index.old }
    ensures { index.new ≡ with_four index.old i a b c d }
{
    index[i] = a;
    index[i + 1] = b;
    index[i + 2] = c;
    index[i + 3] = d;
}

// File k gets its row.
pub fn put_file(index: &mut [u32], k: usize, at: usize, len: usize, body: usize, size: usize)
    requires { (k < 32) × ((index_size ≤ length index.old) × ((at < 2 ^ 32) × ((len < 2 ^ 32) × ((body < 2 ^ 32) × (size < 2 ^ 32))))) }
    ensures { index.new ≡ with_file index.old k at len body size }
{
    put_four(
        index,
        4 * k,
        at as u32,
        len as u32,
        body as u32,
        size as u32,
    );
}

// Module k gets its row.
pub fn put_module(index: &mut [u32], k: usize, m: Open)
    requires { (k < 128) × ((index_size ≤ length index.old) × Fits m) }
    ensures { index.new ≡ with_module index.old k m }
{
    let i = 128 + 8 * k;
    let name = m.name;
    put_four(
        &mut index[..],
        i,
        name.at as u32,
        name.len as u32,
        m.style.into(),
        m.ports as u32,
    );
    put_four(
        index,
        i + 4,
        m.decls as u32,
        m.insts as u32,
        m.end as u32,
        m.ninsts as u32,
    );
}

// Instance k of the module that is being read gets its name.
pub fn put_name(index: &mut [u32], k: usize, at: usize, len: usize)
    requires { (k < 64) × ((index_size ≤ length index.old) × ((at < 2 ^ 32) × (len < 2 ^ 32))) }
    ensures { index.new ≡ with_name index.old k at len }
{
    let i = 1152 + 2 * k;
    index[i] = at as u32;
    index[i + 1] = len as u32;
}
