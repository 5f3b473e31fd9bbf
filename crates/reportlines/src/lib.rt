// The report lines about the scope and the shifters, and what reading remarked.
#![tactic(auto)]

ghost use Rattle.std.specs.Prelude.{◌≡◌, ◌++◌, map, ◌≤◌, length, take, drop};
ghost use Rattle.out.specs.Text.{Writes};
ghost use Rattle.out.specs.Items.{each};
ghost use Rattle.nametable.specs.Table.{table_names};
ghost use Rattle.scope.specs.Parts.{parts};
ghost use Rattle.texts.specs.Texts.{shifter_line, warning_line};
ghost use Rattle.store.specs.Strings.{string};
ghost use Rattle.store.specs.View.{shifter_of, warnings_in, text_of, warning_text};
ghost use Rattle.store.specs.Order.{of_shifter};
ghost use Rattle.store.specs.Rows.{rows_in};
ghost use Rattle.made.specs.Made.{reach_of};
ghost use Rattle.setting.specs.Orders.{Holds};
ghost use Rattle.reportlines.specs.Lines.{head_text, scope_text};
ghost use Rattle.spans.specs.Memory.{memory};
ghost use Rattle.scope.specs.Path.{path_of};
ghost use Rattle.nametable.specs.Names.{names_in};

use format::arg::{Wrap, wrapped};
use format::source::Source;
use listnames::put_names;
use out::emit::Text;
use refs::of_job;
use spans::span::Memory;
use store::row::row_at;
use store::state::{Few, Shifter};
use store::stored::Stored;
use storedtexts::{fill1, fill2};
use text::part::Rows;

// Writes the scope's path, and its module, whose name is a part of the job.
fn put_head(to: &mut Text, src: &Source, place: usize, len: usize)
    ensures { Writes to.old (head_text src.now.top.now (path_of src.now.scope) (take len (drop place src.now.design.index.job.now))) to.new }
{
    format::fill::fill2(
        to,
        b"scope {0} ({1}), ",
        src,
        wrapped(Wrap::Rooted, of_job(0, 0)),
        wrapped(Wrap::Plain, of_job(place, len)),
    )
}

// Writes the line of the scope: its path, its module, the number of nets, the nets.
pub fn scope_line(to: &mut Text, src: &Source, place: usize, len: usize, nets: &Rows)
    requires { nets.now.n ≤ 65536 }
    ensures { Writes to.old (scope_text src.now.top.now (path_of src.now.scope) (take len (drop place src.now.design.index.job.now)) nets.now.n (names_in (memory src.now.mem) nets.now)) to.new }
{
    put_head(to, src, place, len);
    to.decimal(nets.n as u64);
    to.put(b" supply nets: ");
    put_names(to, &src.mem, nets, b", ");
    to.put(b"\n")
}

// Writes the line of a level shifter.
fn shifter_line(to: &mut Text, mem: &Memory, x: Shifter)
    ensures { Writes to.old (shifter_line (shifter_of (memory mem.now) x)) to.new }
{
    fill2(
        to,
        b"level shifter {0} on {1}: transparent\n",
        mem,
        x.name,
        x.domain,
    )
}

// Writes the lines of all level shifters.
pub fn shifter_lines(to: &mut Text, mem: &Memory, t: Few<Shifter>)
    requires { Holds (of_shifter (reach_of (length mem.now.files.now))) (length (memory mem.now)) t.n t.all }
    ensures { Writes to.old (each shifter_line (map (shifter_of (memory mem.now)) (take t.n t.all))) to.new }
{
    for i in 0..t.n {
        shifter_line(to, mem, t.all[i]);
    }
}

// Writes a warning of reading, by its kind.
fn warning_line(to: &mut Text, mem: &Memory, kind: u32, name: Stored)
    ensures { Writes to.old (warning_line (text_of kind (string (memory mem.now) name))) to.new }
{
    if kind == 3 {
        return fill1(
            to,
            b"warning: set_domain_supply_net: unknown power domain '{0}'\n",
            mem,
            name,
        );
    }
    if kind == 4 {
        return fill1(
            to,
            b"warning: set_isolation {0}: -no_isolation, ignored\n",
            mem,
            name,
        );
    }
    if kind == 5 {
        return fill1(
            to,
            b"warning: set_isolation_control: unknown isolation strategy '{0}'\n",
            mem,
            name,
        );
    }
    if kind == 6 {
        return fill1(
            to,
            b"warning: add_pst_state: unknown PST '{0}'\n",
            mem,
            name,
        );
    }
    if kind == 7 {
        return fill1(to, b"warning: '{0}' parsed but not simulated\n", mem, name);
    }
    fill1(
        to,
        b"warning: unsupported UPF command '{0}' ignored\n",
        mem,
        name,
    )
}

// Writes the warnings of reading.
pub fn read_warnings(to: &mut Text, mem: &Memory, nums: &[u32], rows: usize)
    requires { rows ≤ 1024 }
    ensures { Writes to.old (each warning_line (map (warning_text (memory mem.now)) (warnings_in (rows_in nums.now rows)))) to.new }
{
    for i in 0..rows {
        let r = row_at(nums, i);
        if r.kind < 3 {
            continue;
        }
        warning_line(to, mem, r.kind, r.name);
    }
}
