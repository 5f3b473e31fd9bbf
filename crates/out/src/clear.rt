// Clearing what was lent.
ghost use Rattle.std.specs.Prelude.{◌≡◌, ◌-◌, ◌++◌, length, take, replicate};
ghost use Rattle.out.specs.Clear.{cleared_from};

// The places of s from at on hold z, whose clone is z itself.
fn fill_from<T: Clone>(s: &mut [T], at: usize, z: T)
    requires clones { T.is_infallible z }
    requires same { (y : T) → T.is_clone z y → y ≡ z }
    ensures { s.new ≡ take at s.old ++ replicate (length s.old - at) z }
{
    let n = s.len().min(at);
    s[n..].fill(z);
}

// Zeros from at on.
pub fn clear(s: &mut [u8], at: usize)
    ensures { s.new ≡ cleared_from at s.old }
{
    fill_from(s, at, 0)
}

// The same for numbers.
pub fn clear_nums(s: &mut [u32], at: usize)
    ensures { s.new ≡ cleared_from at s.old }
{
    fill_from(s, at, 0)
}
