// What glue and package have for each supply net.
ghost use Rattle.std.specs.Prelude.{◌≡◌, true, [], ◌++◌, ◌≤◌};
ghost use Rattle.out.specs.Emit.{◌▸◌, emit};
ghost use Rattle.out.specs.Text.{Writes};
ghost use Rattle.out.specs.Fill.{is_template};
ghost use Rattle.out.specs.Items.{each};
ghost use Rattle.names.specs.Name.{name_of};
ghost use Rattle.nametable.specs.Table.{table_names};
ghost use Rattle.texts.specs.Supplies.{net_block, net_blocks, apply_case, state_case, voltage_case, cases as Supplies·cases};
ghost use Rattle.texts.specs.Texts.{package_of};
ghost use Rattle.scope.specs.Parts.{parts};
ghost use Rattle.supplies.specs.Seen.{case_of, nets_setting};
ghost use Rattle.spans.specs.Memory.{memory};
ghost use Rattle.scope.specs.Path.{path_of};
ghost use Rattle.nametable.specs.Names.{names_in};

use format::arg::{Wrap, fixed, name, wrapped};
use format::fill::{fill2, fill4};
use format::source::Source;
use names::name::Name;
use nametable::row;
use out::emit::Text;
use refs::whole;
use text::part::Rows;

// The state of a net and its messages.
fn net_block(to: &mut Text, src: &Source, n: Name)
    ensures { Writes to.old (net_block (nets_setting src.now.top.now (path_of src.now.scope) []) (name_of (memory src.now.mem) n)) to.new }
{
    fill2(
        to,
        b"  logic upf__{a} = 1'b0;\n  real upf__{a}_v = 0.0;\n  always @(upf__{a}) begin\n    if (upf__{a} === 1'b1) $display(\"[UPF] Time: %0t, Supply net '{1}' toggled to '{{FULL_ON %0.2f V}}'\", $time, upf__{a}_v);\n    else if (upf__{a} === 1'b0) $display(\"[UPF] Time: %0t, Supply net '{1}' toggled to '{{OFF 0 V}}'\", $time);\n    else $display(\"[UPF] Time: %0t, Supply net '{1}' toggled to '{{UNDETERMINED}}'\", $time);\n  end\n",
        src,
        name(n),
        wrapped(Wrap::Rooted, whole(n)),
    )
}

// The blocks of all nets.
pub fn net_blocks(to: &mut Text, src: &Source, table: &Rows)
    requires { table.now.n ≤ 65536 }
    ensures { Writes to.old (net_blocks (nets_setting src.now.top.now (path_of src.now.scope) (names_in (memory src.now.mem) table.now))) to.new }
{
    for k in 0..table.n {
        net_block(to, src, row(table.rows, k));
    }
}

// A template for a net: its name, its path, its path with dots, and the top.
fn case_text(to: &mut Text, t: &[u8], src: &Source, x: Name)
    requires { is_template 4 t.now ≡ true }
    ensures { Writes to.old (case_of t.now src.now.top.now (path_of src.now.scope) (name_of (memory src.now.mem) x)) to.new }
{
    fill4(
        to,
        t,
        src,
        name(x),
        wrapped(Wrap::Rooted, whole(x)),
        wrapped(Wrap::Dots, whole(x)),
        fixed(Wrap::Top),
    )
}

// The template for each net.
fn cases(to: &mut Text, t: &[u8], src: &Source, table: &Rows)
    requires { (table.now.n ≤ 65536) × (is_template 4 t.now ≡ true) }
    ensures { Writes to.old (each (case_of t.now src.now.top.now (path_of src.now.scope)) (names_in (memory src.now.mem) table.now)) to.new }
{
    for k in 0..table.n {
        case_text(to, t, src, row(table.rows, k));
    }
}

// The cases of `upf_apply`.
// `cases` is one function for this and the next two: each of the three says which definition its template writes, and a parameter more says it no plainer.
fn apply_cases(to: &mut Text, src: &Source, table: &Rows)
    requires { table.now.n ≤ 65536 }
    ensures { Writes to.old (Supplies·cases apply_case (nets_setting src.now.top.now (path_of src.now.scope) (names_in (memory src.now.mem) table.now))) to.new }
{
    cases(
        to,
        b"      \"{B}\", \"{C}\", \"{A}\": begin\n        {3}.upf__{a}_v = on ? v : 0.0;\n        {3}.upf__{a} = on ? 1'b1 : 1'b0;\n      end\n",
        src,
        table,
    )
}

// The cases of `get_supply_on_state`.
fn state_cases(to: &mut Text, src: &Source, table: &Rows)
    requires { table.now.n ≤ 65536 }
    ensures { Writes to.old (Supplies·cases state_case (nets_setting src.now.top.now (path_of src.now.scope) (names_in (memory src.now.mem) table.now))) to.new }
{
    cases(
        to,
        b"      \"{B}\", \"{C}\", \"{A}\": return ({3}.upf__{a} === 1'b1) ? 1 : 0;\n",
        src,
        table,
    )
}

// The cases of `get_supply_voltage`.
fn voltage_cases(to: &mut Text, src: &Source, table: &Rows)
    requires { table.now.n ≤ 65536 }
    ensures { Writes to.old (Supplies·cases voltage_case (nets_setting src.now.top.now (path_of src.now.scope) (names_in (memory src.now.mem) table.now))) to.new }
{
    cases(
        to,
        b"      \"{B}\", \"{C}\", \"{A}\": return {3}.upf__{a}_v;\n",
        src,
        table,
    )
}

// Writes the package.
fn package(to: &mut Text, src: &Source, table: &Rows)
    requires { table.now.n ≤ 65536 }
    ensures { Writes to.old (package_of (nets_setting src.now.top.now (path_of src.now.scope) (names_in (memory src.now.mem) table.now))) to.new }
{
    to.put(
        b"package UPF;\n  function automatic int upf_apply(string path, bit on, real v);\n    case (path)\n",
    );
    apply_cases(to, src, table);
    to.put(
        b"      default: begin $display(\"[UPF] Time: %0t, unknown supply '%s'\", $time, path); return 0; end\n    endcase\n    return 1;\n  endfunction\n  function automatic int supply_on(string path, real value = 1.0);\n    $display(\"[UPF] Time: %0t, Supply ON applied on '%s', Voltage = %0f\", $time, path, value);\n    return upf_apply(path, 1'b1, value);\n  endfunction\n  function automatic int supply_partial_on(string path, real value = 1.0);\n    $display(\"[UPF] Time: %0t, Supply PARTIAL_ON applied on '%s', Voltage = %0f\", $time, path, value);\n    return upf_apply(path, 1'b1, value);\n  endfunction\n  function automatic int supply_off(string path);\n    $display(\"[UPF] Time: %0t, Supply OFF applied on '%s'\", $time, path);\n    return upf_apply(path, 1'b0, 0.0);\n  endfunction\n  function automatic int get_supply_on_state(string path);\n    case (path)\n",
    );
    state_cases(to, src, table);
    to.put(
        b"      default: return 0;\n    endcase\n  endfunction\n  function automatic real get_supply_voltage(string path);\n    case (path)\n",
    );
    voltage_cases(to, src, table);
    to.put(b"      default: return 0.0;\n    endcase\n  endfunction\nendpackage\n")
}

// The package, from the front of out on.
pub fn package_text(out: &mut [u8], src: &Source, table: &Rows) -> usize
    requires { table.now.n ≤ 65536 }
    ensures { out.new ▸ result ≡ emit (out.old ▸ 0) (package_of (nets_setting src.now.top.now (path_of src.now.scope) (names_in (memory src.now.mem) table.now))) }
{
    let mut to = Text::over(out, 0);
    package(&mut to, src, table);
    to.end()
}
