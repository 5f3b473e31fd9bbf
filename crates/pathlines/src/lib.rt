// The lines that the glue has for each listed path of a domain's walk. Listed paths are relative to the scope, and are written below it.
#![tactic(auto)]

ghost use Rattle.std.specs.Prelude.{◌≡◌, ◌≤◌, length};
ghost use Rattle.out.specs.Text.{Writes};
ghost use Rattle.out.specs.Items.{each};
ghost use Rattle.scope.specs.Parts.{parts};
ghost use Rattle.listing.specs.Listing.{paths_of};
ghost use Rattle.texts.specs.Domains.{force, release};
ghost use Rattle.pathlines.specs.Lines.{scope_stem, below, line_of};
ghost use Rattle.scope.specs.Path.{path_of};

use format::path::{has_parts, put_path};
use listing::PathList;
use out::bytewise::Mode;
use out::emit::Text;
use scope::ScopePath;
use text::part::{part, place};

// Writes what stands before a path below the scope: the scope's path and a dot, nothing at the top.
pub fn put_scope(to: &mut Text, scope: &ScopePath)
    ensures { Writes to.old (scope_stem (path_of scope.now)) to.new }
{
    put_path(to, Mode::Same, scope);
    if has_parts(scope) {
        return to.byte(b'.');
    }
}

// Writes a listed path below the scope, between two texts.
fn put_line(to: &mut Text, scope: &ScopePath, path: &[u8], before: &[u8], after: &[u8])
    ensures { Writes to.old (line_of before.now after.now (path_of scope.now) path.now) to.new }
{
    to.put(before);
    put_scope(to, scope);
    to.put(path);
    to.put(after)
}

// Writes a line for each of the first n listed paths.
fn put_lines(to: &mut Text, scope: &ScopePath, listed: &PathList, before: &[u8], after: &[u8])
    requires { listed.now.n ≤ length listed.now.ends.now }
    ensures { Writes to.old (each (line_of before.now after.now (path_of scope.now)) (paths_of listed.now.text.now listed.now.ends.now listed.now.n)) to.new }
{
    let mut a = 0;
    for k in 0..listed.n {
        let e = place(listed.ends, k);
        let path = part(listed.text, a, e.saturating_sub(a));
        put_line(to, scope, path, before, after);
        a = e;
    }
}

// Writes the force line of each of the first n listed paths.
pub fn put_forces(to: &mut Text, scope: &ScopePath, listed: &PathList)
    requires { listed.now.n ≤ length listed.now.ends.now }
    ensures { Writes to.old (each force (below (path_of scope.now) (paths_of listed.now.text.now listed.now.ends.now listed.now.n))) to.new }
{
    put_lines(to, scope, listed, b"      force ", b" = 'x;\n")
}

// Writes the release line of each of the first n listed paths.
pub fn put_releases(to: &mut Text, scope: &ScopePath, listed: &PathList)
    requires { listed.now.n ≤ length listed.now.ends.now }
    ensures { Writes to.old (each release (below (path_of scope.now) (paths_of listed.now.text.now listed.now.ends.now listed.now.n))) to.new }
{
    put_lines(to, scope, listed, b"      release ", b";\n")
}
