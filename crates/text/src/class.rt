// The classes of bytes.
ghost use Rattle.std.specs.Prelude.{◌≡◌};
ghost use Rattle.text.specs.Classes.{is_space, is_digit, is_alnum, is_variable, opens_name, in_name, ends_plain, is_ascii};

// White space: 9 to 13 and 32.
pub fn is_space(b: u8) -> bool
    ensures { result ≡ is_space b }
{
    matches!(b, 9..=13 | 32)
}

pub fn is_digit(b: u8) -> bool
    ensures { result ≡ is_digit b }
{
    b.is_ascii_digit()
}

pub fn is_alnum(b: u8) -> bool
    ensures { result ≡ is_alnum b }
{
    b.is_ascii_alphanumeric()
}

// What a variable's name is made of.
pub fn is_variable(b: u8) -> bool
    ensures { result ≡ is_variable b }
{
    is_alnum(b) || b == b'_'
}

// What a NAME may begin with.
pub fn opens_name(b: u8) -> bool
    ensures { result ≡ opens_name b }
{
    b.is_ascii_alphabetic() || b == b'_'
}

// What a NAME is made of.
pub fn in_name(b: u8) -> bool
    ensures { result ≡ in_name b }
{
    is_variable(b) || b == b'$'
}

// What ends a plain word: white space or `;`.
pub fn ends_plain(b: u8) -> bool
    ensures { result ≡ ends_plain b }
{
    is_space(b) || b == b';'
}

pub fn is_ascii(b: u8) -> bool
    ensures { result ≡ is_ascii b }
{
    b <= 127
}
