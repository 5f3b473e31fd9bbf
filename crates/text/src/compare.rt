// Byte strings compared.
#![tactic(auto, using(crate::proofs::Compared::compared))]

ghost use Rattle.std.specs.Prelude.{◌≡◌};
ghost use Rattle.text.specs.Compare.{same as Compare·same, starts_with, less as Compare·less};

// Whether two strings have the same bytes. It gives `==` a promise that speaks of lists of bytes; so does `less`.
pub fn same(a: &[u8], b: &[u8]) -> bool
    ensures { result ≡ Compare·same a.now b.now }
{
    a == b
}

// Whether s begins with p.
#[inline(always)]
pub fn starts_with(s: &[u8], p: &[u8]) -> bool
    ensures { result ≡ starts_with p.now s.now }
{
    s.starts_with(p)
}

// Whether the first string comes before the second, by their bytes. `cmp` looks at many bytes at a time, `<` at one.
pub fn less(a: &[u8], b: &[u8]) -> bool
    ensures { result ≡ Compare·less a.now b.now }
{
    a.cmp(&b).is_lt()
}
