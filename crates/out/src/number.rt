// Numbers in decimal.
ghost use Rattle.std.specs.Prelude.{◌≡◌};
ghost use Rattle.out.specs.Emit.{◌▸◌, emit};
ghost use Rattle.out.specs.Text.{Writes};
ghost use Rattle.out.specs.Number.{dec as Number·dec, decimal as Number·decimal};

use super::emit::Text;

impl Text<'_> {
    // n in decimal, with at most f digits.
    fn dec(&mut self, f: u8, n: u64)
        ensures { Writes self.old (Number·dec f n) self.new }
    {
        if f == 0 {
            return;
        }
        if n < 10 {
            return self.byte(48 + n as u8);
        }
        self.dec(f - 1, n / 10);
        self.byte(48 + (n % 10) as u8)
    }

    // Writes n in decimal, without zeros in front.
    pub fn decimal(&mut self, n: u64)
        ensures { Writes self.old (Number·decimal n) self.new }
    {
        self.dec(20, n)
    }
}

// The same over a buffer and a place.
pub fn decimal(out: &mut [u8], at: usize, n: u64) -> usize
    ensures { out.new ▸ result ≡ emit (out.old ▸ at) (Number·decimal n) }
{
    let mut to = Text::over(out, at);
    to.decimal(n);
    to.end()
}
