// The leaves for text, for a caller in C or Rust: tests/oracle links this crate to compare them with the Rust.
#![tactic(auto)]

ghost use Rattle.std.specs.Prelude.{◌≡◌};
ghost use Rattle.text.specs.Compare.{same, starts_with, less};
ghost use Rattle.text.specs.Numbers.{number_of};
ghost use Rattle.out.specs.Emit.{◌▸◌, emit};
ghost use Rattle.out.specs.Bytewise.{mangle, dotted, sv_str};
ghost use Rattle.out.specs.Number.{decimal};
ghost use Rattle.leaves.specs.Sample.{to_number, sample};

#[unsafe(no_mangle)]
pub extern "C" fn leaves_same(a: &[u8], b: &[u8]) -> bool
    ensures { result ≡ same a.now b.now }
{
    leaves::leaves_same(a, b)
}

#[unsafe(no_mangle)]
pub extern "C" fn leaves_starts_with(s: &[u8], p: &[u8]) -> bool
    ensures { result ≡ starts_with p.now s.now }
{
    leaves::leaves_starts_with(s, p)
}

#[unsafe(no_mangle)]
pub extern "C" fn leaves_less(a: &[u8], b: &[u8]) -> bool
    ensures { result ≡ less a.now b.now }
{
    leaves::leaves_less(a, b)
}

// The number that s is; 2 to the 32nd where it is none of at most `most`.
#[unsafe(no_mangle)]
pub extern "C" fn leaves_number(s: &[u8], most: u32) -> usize
    ensures { result ≡ to_number (number_of most s.now) }
{
    leaves::leaves_number(s, most)
}

#[unsafe(no_mangle)]
pub extern "C" fn leaves_mangle(out: &mut [u8], piece: &[u8]) -> usize
    ensures { out.new ▸ result ≡ emit (out.old ▸ 0) (mangle piece.now) }
{
    leaves::leaves_mangle(out, piece)
}

#[unsafe(no_mangle)]
pub extern "C" fn leaves_dotted(out: &mut [u8], piece: &[u8]) -> usize
    ensures { out.new ▸ result ≡ emit (out.old ▸ 0) (dotted piece.now) }
{
    leaves::leaves_dotted(out, piece)
}

#[unsafe(no_mangle)]
pub extern "C" fn leaves_sv_str(out: &mut [u8], piece: &[u8]) -> usize
    ensures { out.new ▸ result ≡ emit (out.old ▸ 0) (sv_str piece.now) }
{
    leaves::leaves_sv_str(out, piece)
}

#[unsafe(no_mangle)]
pub extern "C" fn leaves_decimal(out: &mut [u8], n: u64) -> usize
    ensures { out.new ▸ result ≡ emit (out.old ▸ 0) (decimal n) }
{
    leaves::leaves_decimal(out, n)
}

// A template with every kind of place.
#[unsafe(no_mangle)]
pub extern "C" fn leaves_fill<'a>(out: &mut [u8], x: &'a [u8], y: &'a [u8], z: &'a [u8]) -> usize
    ensures { out.new ▸ result ≡ emit (out.old ▸ 0) (sample x.now y.now z.now) }
{
    leaves::leaves_fill(out, x, y, z)
}
