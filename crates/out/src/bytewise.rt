// Texts made byte by byte of another.
ghost use Rattle.std.specs.Prelude.{◌≡◌};
ghost use Rattle.out.specs.Emit.{◌▸◌, emit};
ghost use Rattle.out.specs.Text.{Writes};
ghost use Rattle.out.specs.Bytewise.{mangled_byte, dotted_byte, sv_byte, becomes as Bytewise·becomes, flat as Bytewise·flat, mangle as Bytewise·mangle, dotted as Bytewise·dotted, sv_str};

use super::emit::Text;
use text::class::is_alnum;

// How a text is written: as it is, mangled, with `/` as `.`, or for a string of SystemVerilog.
#[derive(Clone, Copy)]
pub enum Mode {
    Same,
    Mangled,
    Dotted,
    Quoted,
}

impl Text<'_> {
    // A byte of a mangled name.
    fn mangled_byte(&mut self, b: u8)
        ensures { Writes self.old (mangled_byte b) self.new }
    {
        if is_alnum(b) {
            self.byte(b)
        } else {
            self.byte(b'_')
        }
    }

    fn dotted_byte(&mut self, b: u8)
        ensures { Writes self.old (dotted_byte b) self.new }
    {
        if b == b'/' {
            self.byte(b'.')
        } else {
            self.byte(b)
        }
    }

    // A byte of a string of SystemVerilog.
    fn sv_byte(&mut self, b: u8)
        ensures { Writes self.old (sv_byte b) self.new }
    {
        if b == b'\\' {
            self.put_slow(b"\\\\")
        } else if b == b'"' {
            self.put_slow(b"\\\"")
        } else {
            self.byte(b)
        }
    }

    // What a byte becomes.
    pub fn becomes(&mut self, m: Mode, b: u8)
        ensures { Writes self.old (Bytewise·becomes m b) self.new }
    {
        match m {
            Mode::Same => self.byte(b),
            Mode::Mangled => self.mangled_byte(b),
            Mode::Dotted => self.dotted_byte(b),
            Mode::Quoted => self.sv_byte(b),
        }
    }

    // Writes what each byte of piece becomes.
    pub fn flat(&mut self, m: Mode, piece: &[u8])
        ensures { Writes self.old (Bytewise·flat (Bytewise·becomes m) piece.now) self.new }
    {
        for &b in piece {
            self.becomes(m, b);
        }
    }

    // Writes piece with every byte that is no letter or digit as `_`.
    pub fn mangle(&mut self, piece: &[u8])
        ensures { Writes self.old (Bytewise·mangle piece.now) self.new }
    {
        self.flat(Mode::Mangled, piece)
    }

    // Writes piece with `/` as `.`.
    pub fn dotted(&mut self, piece: &[u8])
        ensures { Writes self.old (Bytewise·dotted piece.now) self.new }
    {
        self.flat(Mode::Dotted, piece)
    }

    // Writes piece with the escapes of a string of SystemVerilog.
    pub fn sv_str(&mut self, piece: &[u8])
        ensures { Writes self.old (sv_str piece.now) self.new }
    {
        self.flat(Mode::Quoted, piece)
    }
}

// The same over a buffer and a place.
pub fn mangle(out: &mut [u8], at: usize, piece: &[u8]) -> usize
    ensures { out.new ▸ result ≡ emit (out.old ▸ at) (Bytewise·mangle piece.now) }
{
    let mut to = Text::over(out, at);
    to.mangle(piece);
    to.end()
}

pub fn dotted(out: &mut [u8], at: usize, piece: &[u8]) -> usize
    ensures { out.new ▸ result ≡ emit (out.old ▸ at) (Bytewise·dotted piece.now) }
{
    let mut to = Text::over(out, at);
    to.dotted(piece);
    to.end()
}

pub fn sv_str(out: &mut [u8], at: usize, piece: &[u8]) -> usize
    ensures { out.new ▸ result ≡ emit (out.old ▸ at) (sv_str piece.now) }
{
    let mut to = Text::over(out, at);
    to.sv_str(piece);
    to.end()
}
