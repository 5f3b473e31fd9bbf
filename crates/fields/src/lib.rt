// The fields of a job's lines: NAME, PATH, D, DIR, KIND, style, NET. Each is lent as the bytes of the field.
#![tactic(auto)]

ghost use Rattle.std.specs.Prelude.{◌≡◌};
ghost use Rattle.fields.specs.Fields.{is_name, is_part, is_path, dims_of, dir_of, kind_of, style_of, is_net};
ghost use Rattle.fields.specs.Meant.{dims_meant, dir_meant, kind_meant, style_meant, style_number, body_of};

// D: whether there are unpacked dimensions.
#[derive(PartialEq, Eq, Clone, Copy, Debug)]
pub enum Dims {
    Zero,
    One,
}

// DIR, of a port line.
#[derive(PartialEq, Eq, Clone, Copy, Debug)]
pub enum Dir {
    In,
    Out,
    Inout,
    Ref,
    None,
}

// KIND, of a declaration line.
#[derive(PartialEq, Eq, Clone, Copy, Debug)]
pub enum Kind {
    Net,
    Data,
    Odd,
    In,
    Out,
    Inout,
    Ref,
}

// The style of a module.
#[derive(PartialEq, Eq, Clone, Copy, Debug)]
pub enum Style {
    Ansi,
    Nonansi,
    Empty,
}

// Whether w is a NAME: 1 to 64 letters, digits, `_`, `$`, not beginning with a digit or `$`.
pub fn is_name(w: &[u8]) -> bool
    ensures { result ≡ is_name w.now }
{
    if w.len() == 0 {
        return false;
    }
    if 64 < w.len() {
        return false;
    }
    if !text::class::opens_name(w[0]) {
        return false;
    }
    for i in 1..w.len() {
        if !text::class::in_name(w[i]) {
            return false;
        }
    }
    true
}

// Whether w may be a part of a PATH: not empty, `.` or `..`.
pub fn is_part(w: &[u8]) -> bool
    ensures { result ≡ is_part w.now }
{
    if w.len() == 0 {
        return false;
    }
    if text::compare::same(w, b".") {
        return false;
    }
    !text::compare::same(w, b"..")
}

// Whether w is a PATH: parts joined by `/`.
pub fn is_path(w: &[u8]) -> bool
    ensures { result ≡ is_path w.now }
{
    let mut i = 0;
    // No `while let`: the part behind the last `/` is one too, and would have to be tested in a second place.
    loop {
        let e = text::scan::find(w, i, b'/');
        if !is_part(&w[i..e]) {
            return false;
        }
        if e == w.len() {
            return true;
        }
        i = e + 1;
    }
}

// The D that w is, if it is one.
pub fn read_dims(w: &[u8]) -> Option<Dims>
    ensures { dims_meant result ≡ dims_of w.now }
{
    if text::compare::same(w, b"0") {
        return Some(Dims::Zero);
    }
    if text::compare::same(w, b"1") {
        return Some(Dims::One);
    }
    None
}

// The DIR that w is, if it is one.
pub fn read_dir(w: &[u8]) -> Option<Dir>
    ensures { dir_meant result ≡ dir_of w.now }
{
    if text::compare::same(w, b"in") {
        return Some(Dir::In);
    }
    if text::compare::same(w, b"out") {
        return Some(Dir::Out);
    }
    if text::compare::same(w, b"inout") {
        return Some(Dir::Inout);
    }
    if text::compare::same(w, b"ref") {
        return Some(Dir::Ref);
    }
    if text::compare::same(w, b"none") {
        return Some(Dir::None);
    }
    None
}

// The KIND that w is, if it is one.
pub fn read_kind(w: &[u8]) -> Option<Kind>
    ensures { kind_meant result ≡ kind_of w.now }
{
    if text::compare::same(w, b"net") {
        return Some(Kind::Net);
    }
    if text::compare::same(w, b"data") {
        return Some(Kind::Data);
    }
    if text::compare::same(w, b"odd") {
        return Some(Kind::Odd);
    }
    body_kind(w)
}

// The KIND of a body port that w is, if it is one.
fn body_kind(w: &[u8]) -> Option<Kind>
    ensures { kind_meant result ≡ body_of w.now }
{
    if text::compare::same(w, b"in") {
        return Some(Kind::In);
    }
    if text::compare::same(w, b"out") {
        return Some(Kind::Out);
    }
    if text::compare::same(w, b"inout") {
        return Some(Kind::Inout);
    }
    if text::compare::same(w, b"ref") {
        return Some(Kind::Ref);
    }
    None
}

// The style that w is.
#[tactic(auto, using(text::specs::Cases::cases), unfolding(crate::specs::Fields::style_of))]
pub fn read_style(w: &[u8]) -> Option<Style>
    ensures { style_meant result ≡ style_of w.now }
{
    if text::compare::same(w, b"ansi") {
        return Some(Style::Ansi);
    }
    if text::compare::same(w, b"nonansi") {
        return Some(Style::Nonansi);
    }
    if text::compare::same(w, b"empty") {
        return Some(Style::Empty);
    }
    None
}

// A style as the number that a module's row has.
impl From<Style> for u32 {
    ghost from_gives = { λ s n. n ≡ style_number s };

    fn from(s: Style) -> u32 {
        match s {
            Style::Ansi => 0,
            Style::Nonansi => 1,
            Style::Empty => 2,
        }
    }
}

// Whether w is a NET: a NAME, or `-` for what is not a plain identifier.
pub fn is_net(w: &[u8]) -> bool
    ensures { result ≡ is_net w.now }
{
    if is_name(w) {
        return true;
    }
    text::compare::same(w, b"-")
}
