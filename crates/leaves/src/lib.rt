// The leaves for text, exported for the comparison with the Rust: tests/oracle links this crate as a static library.
#![tactic(auto)]

ghost use Rattle.std.specs.Prelude.{◌≡◌};
ghost use Rattle.text.specs.Compare.{same, starts_with, less};
ghost use Rattle.text.specs.Numbers.{number_of};
ghost use Rattle.out.specs.Emit.{◌▸◌, emit};
ghost use Rattle.out.specs.Bytewise.{mangle, dotted, sv_str};
ghost use Rattle.out.specs.Number.{decimal};
ghost use Rattle.leaves.specs.Sample.{to_number, sample};

pub fn leaves_same(a: &[u8], b: &[u8]) -> bool
    ensures { result ≡ same a.now b.now }
{
    text::compare::same(a, b)
}

pub fn leaves_starts_with(s: &[u8], p: &[u8]) -> bool
    ensures { result ≡ starts_with p.now s.now }
{
    text::compare::starts_with(s, p)
}

pub fn leaves_less(a: &[u8], b: &[u8]) -> bool
    ensures { result ≡ less a.now b.now }
{
    text::compare::less(a, b)
}

// The number that s is; 2 to the 32nd where it is none of at most `most`.
pub fn leaves_number(s: &[u8], most: u32) -> usize
    ensures { result ≡ to_number (number_of most s.now) }
{
    text::number::number(s, most).unwrap_or(4294967296)
}

pub fn leaves_mangle(out: &mut [u8], piece: &[u8]) -> usize
    ensures { out.new ▸ result ≡ emit (out.old ▸ 0) (mangle piece.now) }
{
    out::bytewise::mangle(out, 0, piece)
}

pub fn leaves_dotted(out: &mut [u8], piece: &[u8]) -> usize
    ensures { out.new ▸ result ≡ emit (out.old ▸ 0) (dotted piece.now) }
{
    out::bytewise::dotted(out, 0, piece)
}

pub fn leaves_sv_str(out: &mut [u8], piece: &[u8]) -> usize
    ensures { out.new ▸ result ≡ emit (out.old ▸ 0) (sv_str piece.now) }
{
    out::bytewise::sv_str(out, 0, piece)
}

pub fn leaves_decimal(out: &mut [u8], n: u64) -> usize
    ensures { out.new ▸ result ≡ emit (out.old ▸ 0) (decimal n) }
{
    out::number::decimal(out, 0, n)
}

// A template with every kind of place.
pub fn leaves_fill<'a>(out: &mut [u8], x: &'a [u8], y: &'a [u8], z: &'a [u8]) -> usize
    ensures { out.new ▸ result ≡ emit (out.old ▸ 0) (sample x.now y.now z.now) }
{
    out::template::fill3(
        out,
        0,
        b"wire {a} = {1} & '{{{2}}}' \"{B}\" {r};\n",
        x,
        y,
        z,
    )
}
