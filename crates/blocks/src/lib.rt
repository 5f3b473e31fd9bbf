// The wire of a domain with both supplies, and its two blocks. `text` and `ends` have the n listed paths of the domain's walk.
#![tactic(auto)]

ghost use Rattle.std.specs.Prelude.{◌≡◌, ◌++◌, ◌≤◌, length};
ghost use Rattle.out.specs.Text.{Writes};
ghost use Rattle.names.specs.Name.{name_of};
ghost use Rattle.scope.specs.Parts.{parts};
ghost use Rattle.listing.specs.Listing.{paths_of};
ghost use Rattle.pathlines.specs.Lines.{below};
ghost use Rattle.blocks.specs.Blocks.{wire_text, up_text, down_text, initial_text};
ghost use Rattle.spans.specs.Memory.{memory};
ghost use Rattle.scope.specs.Path.{path_of};

use listing::PathList;
use names::name::Name;
use nametexts::{fill1, fill3};
use out::emit::Text;
use pathlines::{put_forces, put_releases};
use scope::ScopePath;
use spans::span::Memory;

// Writes the wire of a domain.
pub fn put_wire(to: &mut Text, mem: &Memory, domain: Name, power: Name, ground_net: Name)
    ensures { Writes to.old (wire_text (name_of (memory mem.now) domain) (name_of (memory mem.now) power) (name_of (memory mem.now) ground_net)) to.new }
{
    fill3(
        to,
        b"  wire upf_pd__{a} = upf__{b} & upf__{c};\n",
        mem,
        domain,
        power,
        ground_net,
    )
}

// Writes the `always` block up to its checks: what is released when the domain is powered up.
pub fn put_up(to: &mut Text, mem: &Memory, scope: &ScopePath, listed: &PathList, domain: Name)
    requires { listed.now.n ≤ length listed.now.ends.now }
    ensures { Writes to.old (up_text (name_of (memory mem.now) domain) (below (path_of scope.now) (paths_of listed.now.text.now listed.now.ends.now listed.now.n))) to.new }
{
    fill1(
        to,
        b"  always @(upf_pd__{a}) begin\n    if (upf_pd__{a} === 1'b1) begin\n",
        mem,
        domain,
    );
    put_releases(to, scope, listed);
    fill1(
        to,
        b"      $display(\"[UPF] Time: %0t, Power domain '{0}' is powered up\", $time);\n    end else begin\n      if ($time != 0) begin\n",
        mem,
        domain,
    )
}

// Writes the `always` block behind its checks: what is forced when the domain is powered down.
pub fn put_down(to: &mut Text, mem: &Memory, scope: &ScopePath, listed: &PathList, domain: Name)
    requires { listed.now.n ≤ length listed.now.ends.now }
    ensures { Writes to.old (down_text (name_of (memory mem.now) domain) (below (path_of scope.now) (paths_of listed.now.text.now listed.now.ends.now listed.now.n))) to.new }
{
    to.put(b"      end\n");
    put_forces(to, scope, listed);
    fill1(
        to,
        b"      if ($time != 0) $display(\"[UPF] Time: %0t, Power domain '{0}' is powered down\", $time);\n    end\n  end\n",
        mem,
        domain,
    )
}

// Writes the `initial` block.
pub fn put_initial(to: &mut Text, mem: &Memory, scope: &ScopePath, listed: &PathList, domain: Name)
    requires { listed.now.n ≤ length listed.now.ends.now }
    ensures { Writes to.old (initial_text (name_of (memory mem.now) domain) (below (path_of scope.now) (paths_of listed.now.text.now listed.now.ends.now listed.now.n))) to.new }
{
    fill1(
        to,
        b"  initial begin\n    if (upf_pd__{a} !== 1'b1) begin\n",
        mem,
        domain,
    );
    put_forces(to, scope, listed);
    to.put(b"    end\n  end\n")
}
