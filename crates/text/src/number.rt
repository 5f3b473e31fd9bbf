// Decimal numbers, read.
ghost use Rattle.std.specs.Prelude.{◌≡◌};
ghost use Rattle.text.specs.Numbers.{number_of};

// The number that s is: decimal, no leading zero but for 0, at most `most`; none where it is no such number.
#[tactic(auto, using(crate::proofs::Digits::digits))]
pub fn number(s: &[u8], most: u32) -> Option<usize>
    ensures { result ≡ number_of most s.now }
{
    if let [] | [b'0', _, ..] = s {
        return None;
    }
    let mut n: usize = 0;
    for d in s {
        if !d.is_ascii_digit() {
            return None;
        }
        n = n * 10 + (*d - b'0') as usize;
        if n > most as usize {
            return None;
        }
    }
    Some(n)
}
