// A byte, and a piece of text.
ghost use Rattle.std.specs.Prelude.{◌≡◌, ◌+◌, eqb, length};
ghost use Rattle.out.specs.Emit.{◌▸◌, emit, emit1};
ghost use Rattle.out.specs.Text.{shown, Writes, Writes1};

use text::part::copy;

// A text that is being written: a lent buffer, and the place to write next.
#[derive(Drop)]
pub struct Text<'a> {
    room: &'a mut [u8],
    at: usize,
}

impl<'a> Text<'a> {
    // The text that is written into room from `at` on.
    pub fn over(room: &'a mut [u8], at: usize) -> Text<'a>
        ensures same_room { result.room.ghost_name ≡ room.entry.ghost_name }
        ensures from { shown result ≡ room.old ▸ at }
    {
        Text { room, at }
    }

    // The place behind what was written.
    pub fn end(&self) -> usize
        ensures { result ≡ (shown self.now).at }
    {
        self.at
    }

    // Whether the buffer was full: what is written then changes nothing more.
    pub fn is_full(&self) -> bool
        ensures { result ≡ eqb (shown self.now).at (length (shown self.now).bytes + 1) }
    {
        self.at.saturating_sub(self.room.len()) == 1
    }

    // Writes one byte.
    pub fn byte(&mut self, b: u8)
        ensures { Writes1 self.old b self.new }
    {
        if self.at < self.room.len() {
            self.room[self.at] = b;
            self.at += 1;
        } else {
            self.at = self.room.len() + 1;
        }
    }

    // Writes piece, byte by byte.
    pub fn put_slow(&mut self, piece: &[u8])
        ensures { Writes self.old piece.now self.new }
    {
        for &b in piece {
            self.byte(b);
        }
    }

    // Writes piece.
    pub fn put(&mut self, piece: &[u8])
        ensures { Writes self.old piece.now self.new }
    {
        let n = piece.len();
        if self.at <= self.room.len() && n <= self.room.len() - self.at {
            copy(&mut self.room[self.at..self.at + n], piece);
            self.at += n;
            return;
        }
        self.put_slow(piece)
    }
}

// Writes one byte into a buffer at the place at, and returns the place behind it.
pub fn byte(out: &mut [u8], at: usize, b: u8) -> usize
    ensures { out.new ▸ result ≡ emit1 (out.old ▸ at) b }
{
    let mut to = Text::over(out, at);
    to.byte(b);
    to.end()
}

// Writes piece into a buffer at the place at, and returns the place behind it.
pub fn put(out: &mut [u8], at: usize, piece: &[u8]) -> usize
    ensures { out.new ▸ result ≡ emit (out.old ▸ at) piece.now }
{
    let mut t = Text::over(out, at);
    t.put(piece);
    t.end()
}
