// A command that loads nothing.
#![tactic(auto)]

ghost use Rattle.std.specs.Prelude.{◌≡◌, ◌++◌};
ghost use Rattle.out.specs.Emit.{◌▸◌, emit};
ghost use Rattle.out.specs.Text.{Writes};
ghost use Rattle.spans.specs.Span.{strings};
ghost use Rattle.args.specs.View.{words_from};
ghost use Rattle.model.specs.Numbers.{named_by};
ghost use Rattle.cmdnames.specs.Table.{number_of};
ghost use Rattle.model.specs.Within.{entries_of, lists_by};
ghost use Rattle.read.specs.Reading.{line_of};
ghost use Rattle.plain.specs.Acts.{Acting, Acts};
ghost use Rattle.plain.specs.Asks.{Lists};
ghost use Rattle.plain.specs.Counted.{counted_in};
ghost use Rattle.plain.specs.Puts.{saying};
ghost use Rattle.spans.specs.Memory.{memory};

use args::argument::last_positional;
use cmdnames::Command;
use deeds::put_deed;
use enter::enter;
use lists::entries;
use made::{Brief, Deed};
use names::name::{Form, alone};
use names::put::put_name;
use out::emit::Text;
use spans::span::Memory;
use statecmds::{add_port_state, create_power_switch};
use store::state::{Domain, Few, Isolation, Table};
use store::stored::Below;
use text::part::Rows;

// Whether the command is within the limits of commands and lists, and how many entries there are with it.
pub fn counted<'a>(
    mem: &Memory<'a>,
    command: &Rows,
    commands: usize,
    before: usize,
    c: Command,
) -> Option<usize>
    requires { Lists mem.now.files.now mem.now.area.now command.now.rows.now command.now.n before }
    ensures { result ≡ counted_in commands before (entries_of (lists_by (named_by (number_of c)) (line_of (strings (memory mem.now) command.now.rows.now 0 command.now.n)).name (line_of (strings (memory mem.now) command.now.rows.now 0 command.now.n)).rest)) }
{
    if 1024 < commands {
        return None;
    }
    entries(mem, command, c, before)
}

// puts: its line of the log.
fn say(to: &mut Text, mem: &Memory, command: &Rows)
    ensures { Writes to.old (saying (words_from (memory mem.now) command.now.rows.now command.now.n 1)) to.new }
{
    let w = last_positional(mem, command);
    to.put(b"[UPF] ");
    put_name(to, mem, alone(w, Form::Word));
    to.put(b"\n");
}

// puts: what it writes to the log, and where that ends.
pub fn puts<'a>(mem: &Memory<'a>, log: &mut [u8], command: &Rows, at: usize) -> usize
    ensures { log.new ▸ result ≡ emit (log.old ▸ at) (saying (words_from (memory mem.now) command.now.rows.now command.now.n 1)) }
{
    let mut to = Text::over(log, at);
    say(&mut to, mem, command);
    to.end()
}

// What command c does to the records, with its row in the store.
pub fn act<'a>(
    mem: &Memory<'a>,
    nums: &mut [u32],
    command: &Rows,
    b: Brief,
    rows: usize,
    warnings: usize,
    domains: Few<Domain>,
    nets: Few<Below>,
    isolations: Few<Isolation>,
    tables: Few<Table>,
    c: Command,
) -> Deed
    requires { Acting mem.now.files.now mem.now.area.now nums.old command.now.rows.now command.now.n (number_of c) rows warnings b domains nets isolations tables }
    ensures { (v : Acting mem.now.files.now mem.now.area.now nums.old command.now.rows.now command.now.n (number_of c) rows warnings b domains nets isolations tables) → Acts mem.now.files.now v.whole nums.old nums.new command.now.rows.now command.now.n (number_of c) v.state result }
{
    if let Command::CreatePowerSwitch = c {
        let d = create_power_switch(mem, command, nums, b);
        put_deed(nums, rows, warnings, d);
        return d;
    }
    if let Command::AddPortState = c {
        let d = add_port_state(mem, command, nums, b);
        put_deed(nums, rows, warnings, d);
        return d;
    }
    let d = enter(mem, command, b, domains, nets, isolations, tables, c);
    put_deed(nums, rows, warnings, d);
    d
}
