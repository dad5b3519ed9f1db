//! The signs of the assembly language.

ghost use Rattle.std.specs.Prelude.{◌≡◌, nat_eq};
ghost use Rattle.std.specs.List.{starts_with};
ghost use Rattle.bpf_spelling.specs.Signs.{sign_text, sign_at, same_sign};
ghost use Rattle.bpf_spelling.specs.Private.Letters.{first_sign};

use std::fmt;

/// A sign that forms have.
#[derive(Clone, Copy)]
pub enum Sign {
    ShlAssign,
    ShrAssign,
    AddAssign,
    SubAssign,
    MulAssign,
    DivAssign,
    OrAssign,
    AndAssign,
    RemAssign,
    XorAssign,
    Equal,
    NotEqual,
    AtLeast,
    AtMost,
    Assign,
    Above,
    Below,
    And,
    Plus,
    Minus,
    Star,
    Open,
    Close,
    Comma,
    Colon,
}

/// The signs, the longest first.
pub const SIGNS: [Sign; 25] = [
    Sign::ShlAssign,
    Sign::ShrAssign,
    Sign::AddAssign,
    Sign::SubAssign,
    Sign::MulAssign,
    Sign::DivAssign,
    Sign::OrAssign,
    Sign::AndAssign,
    Sign::RemAssign,
    Sign::XorAssign,
    Sign::Equal,
    Sign::NotEqual,
    Sign::AtLeast,
    Sign::AtMost,
    Sign::Assign,
    Sign::Above,
    Sign::Below,
    Sign::And,
    Sign::Plus,
    Sign::Minus,
    Sign::Star,
    Sign::Open,
    Sign::Close,
    Sign::Comma,
    Sign::Colon,
];

impl Sign {
    /// How it is spelled.
    pub fn text(self) -> &'static str
        ensures { result.now ≡ sign_text self }
    {
        match self {
            Sign::ShlAssign => "<<=",
            Sign::ShrAssign => ">>=",
            Sign::AddAssign => "+=",
            Sign::SubAssign => "-=",
            Sign::MulAssign => "*=",
            Sign::DivAssign => "/=",
            Sign::OrAssign => "|=",
            Sign::AndAssign => "&=",
            Sign::RemAssign => "%=",
            Sign::XorAssign => "^=",
            Sign::Equal => "==",
            Sign::NotEqual => "!=",
            Sign::AtLeast => ">=",
            Sign::AtMost => "<=",
            Sign::Assign => "=",
            Sign::Above => ">",
            Sign::Below => "<",
            Sign::And => "&",
            Sign::Plus => "+",
            Sign::Minus => "-",
            Sign::Star => "*",
            Sign::Open => "(",
            Sign::Close => ")",
            Sign::Comma => ",",
            Sign::Colon => ":",
        }
    }

    pub fn is_same(self, other: Sign) -> bool
        ensures { result ≡ same_sign self other }
    {
        self.text().as_bytes() == other.text().as_bytes()
    }
}

impl fmt::Display for Sign {
    ghost use Rattle.std.specs.Prelude.{Some};
    ghost use Rattle.bpf_spelling.specs.Signs.{sign_text};

    ghost output = { λ x. Some (sign_text x) };

    fn fmt<W: fmt::Write>(&self, f: &mut fmt::Formatter<W>) -> fmt::Result {
        f.write_str(self.text())
    }
}

/// Whether the text begins with a sign. The first bytes distinguish most signs from it.
#[inline(always)]
fn begins_with(text: &[u8], sign: Sign) -> bool
    ensures { result ≡ starts_with nat_eq text.now (sign_text sign) }
{
    let spelled = sign.text().as_bytes();
    if text.is_empty() || spelled.is_empty() || text[0] == spelled[0] {
        return text.starts_with(spelled);
    }
    false
}

/// The first of the signs that the text begins with.
fn first_sign(text: &[u8]) -> Option<Sign>
    ensures { result ≡ first_sign text.now }
{
    SIGNS.iter().copied().find(|s| begins_with(text, *s))
}

/// The longest sign that the text begins with.
#[tactic(auto, using(crate::proofs::LongestSign::first_is_longest))]
pub fn longest_sign(text: &[u8]) -> Option<Sign>
    ensures { result ≡ sign_at text.now }
{
    first_sign(text)
}
