// The values of a job's lines, taken apart: fields are parted by one space.
ghost use Rattle.std.specs.Prelude.{◌≡◌, [], ◌∷◌, ◌≤◌, length, drop};
ghost use Rattle.text.specs.Ascii.{ascii};
ghost use Rattle.fields.specs.Fields.{ansi};
ghost use Rattle.fields.specs.Meant.{dir_is, style_is};
ghost use Rattle.joblines.specs.Lines.{fields as Lines·fields, port_of, decl_of, inst_of, conn_of, may_have};
ghost use Rattle.joblines.specs.Forms.{port_meant, decl_meant, inst_meant, InstIn, conn_meant};

use fields::{Dims, Dir, Kind, Style};

// DIR NAME: the name stands from its offset to the end.
#[derive(PartialEq, Eq, Clone, Copy, Debug)]
pub struct PortForm {
    pub dir: Dir,
    pub name: usize,
}

// KIND D NAME: the name stands from its offset to the end.
#[derive(PartialEq, Eq, Clone, Copy, Debug)]
pub struct DeclForm {
    pub kind: Kind,
    pub dims: Dims,
    pub name: usize,
}

// D NAME MODULE: the name has an offset and a length, the module stands from its offset to the end.
#[derive(PartialEq, Eq, Clone, Copy, Debug)]
pub struct InstForm {
    pub dims: Dims,
    pub name: usize,
    pub len: usize,
    pub kind: usize,
}

// A connection: PORT and NET by their offsets, PORT with its length where NET follows. Four kinds of line, none of them a missing one: no option.
#[derive(PartialEq, Eq, Clone, Copy, Debug)]
pub enum ConnForm {
    Star,
    Implicit(usize),
    Named { port: usize, len: usize, net: usize },
    Pos(usize),
}

// The port of a port line's value, in a module whose style allows every direction.
#[tactic(auto, using(crate::proofs::Forms::ports))]
pub fn port_form(v: &[u8]) -> Option<PortForm>
    ensures { port_meant v.now result ≡ port_of ansi (Lines·fields v.now) }
{
    let a = text::scan::find(v, 0, b' ');
    if a == v.len() {
        return None;
    }
    let name = a + 1;
    let dir = fields::read_dir(text::part::part(v, 0, a))?;
    if !fields::is_name(text::part::rest(v, name)) {
        return None;
    }
    Some(PortForm { dir, name })
}

// Whether a module of a style may have a port of a direction that was read.
pub fn may_have(style: Style, dir: Dir) -> bool
    ensures { result ≡ may_have (style_is style) (dir_is dir) }
{
    match style {
        Style::Ansi => true,
        Style::Nonansi => match dir {
            Dir::In | Dir::Out | Dir::Inout | Dir::Ref => false,
            Dir::None => true,
        },
        Style::Empty => false,
    }
}

// The declaration of a declaration line's value.
#[tactic(auto, using(crate::proofs::Forms::decls))]
pub fn decl_form(v: &[u8]) -> Option<DeclForm>
    ensures { decl_meant v.now result ≡ decl_of (Lines·fields v.now) }
{
    let a = text::scan::find(v, 0, b' ');
    if a == v.len() {
        return None;
    }
    let second = a + 1;
    let b = text::scan::find(v, second, b' ');
    if b == v.len() {
        return None;
    }
    let name = b + 1;
    let kind = fields::read_kind(text::part::part(v, 0, a))?;
    let dims = fields::read_dims(text::part::part(v, second, b - second))?;
    if !fields::is_name(text::part::rest(v, name)) {
        return None;
    }
    Some(DeclForm { kind, dims, name })
}

// The instance of an instance line's value.
#[inline(always)]
#[tactic(auto, using(crate::proofs::Forms::insts))]
pub fn inst_form(v: &[u8]) -> Option<InstForm>
    ensures { (inst_meant v.now result ≡ inst_of (Lines·fields v.now)) × InstIn v.now result }
{
    let a = text::scan::find(v, 0, b' ');
    if a == v.len() {
        return None;
    }
    let name = a + 1;
    let b = text::scan::find(v, name, b' ');
    if b == v.len() {
        return None;
    }
    let kind = b + 1;
    let dims = fields::read_dims(text::part::part(v, 0, a))?;
    let len = b - name;
    if !fields::is_name(text::part::part(v, name, len)) {
        return None;
    }
    if !fields::is_name(text::part::rest(v, kind)) {
        return None;
    }
    Some(InstForm {
        dims,
        name,
        len,
        kind,
    })
}

// The connection of a connection line's value.
pub fn conn_form(v: &[u8]) -> Option<ConnForm>
    ensures { conn_meant v.now result ≡ conn_of (Lines·fields v.now) }
{
    let a = text::scan::find(v, 0, b' ');
    if a == v.len() {
        return lone_conn(v);
    }
    let second = a + 1;
    let word = text::part::part(v, 0, a);
    if text::compare::same(word, b"implicit") {
        if !fields::is_name(text::part::rest(v, second)) {
            return None;
        }
        return Some(ConnForm::Implicit(second));
    }
    if text::compare::same(word, b"pos") {
        if !fields::is_net(text::part::rest(v, second)) {
            return None;
        }
        return Some(ConnForm::Pos(second));
    }
    if !text::compare::same(word, b"named") {
        return None;
    }
    named_conn(v, second)
}

// A connection of one word.
fn lone_conn(v: &[u8]) -> Option<ConnForm>
    ensures { conn_meant v.now result ≡ conn_of (v.now ∷ []) }
{
    if text::compare::same(v, b"star") {
        return Some(ConnForm::Star);
    }
    None
}

// A connection `named PORT NET`, whose PORT begins at `port`.
fn named_conn(v: &[u8], port: usize) -> Option<ConnForm>
    requires { port ≤ length v.now }
    ensures { conn_meant v.now result ≡ conn_of (ascii "named" ∷ Lines·fields (drop port v.now)) }
{
    let b = text::scan::find(v, port, b' ');
    if b == v.len() {
        return None;
    }
    let net = b + 1;
    let len = b - port;
    if !fields::is_name(text::part::part(v, port, len)) {
        return None;
    }
    if !fields::is_net(text::part::rest(v, net)) {
        return None;
    }
    Some(ConnForm::Named { port, len, net })
}
