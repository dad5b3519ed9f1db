//! Words with a meaning of their own.

ghost use Rattle.std.specs.Prelude.{◌≡◌};
ghost use Rattle.bpf_spelling.specs.Names.{keyword_text, keyword_of, same_keyword};
ghost use Rattle.bpf_spelling.specs.Private.Letters.{spelled};

use bpf_insn::{ByteSwap, SignedSize, Size, SwapWidth, Width};
use std::fmt;

/// A word that forms have.
#[derive(Clone, Copy)]
pub enum Keyword {
    /// Before the sign of a signed operation.
    Signed,
    If,
    Goto,
    GotoLong,
    Call,
    Exit,
    /// After a number of 64 bits.
    Wide,
    Map,
    Lock,
    /// How many bytes are moved.
    Unsigned(Size),
    /// How many bytes are moved, sign-extended.
    Extended(SignedSize),
    Swap(ByteSwap, SwapWidth),
    FetchAdd,
    FetchOr,
    FetchAnd,
    FetchXor,
    Exchange(Width),
    CompareExchange(Width),
}

/// All keywords.
pub const KEYWORDS: [Keyword; 33] = [
    Keyword::Signed,
    Keyword::If,
    Keyword::Goto,
    Keyword::GotoLong,
    Keyword::Call,
    Keyword::Exit,
    Keyword::Wide,
    Keyword::Map,
    Keyword::Lock,
    Keyword::Unsigned(Size::Byte),
    Keyword::Unsigned(Size::Half),
    Keyword::Unsigned(Size::Word),
    Keyword::Unsigned(Size::Double),
    Keyword::Extended(SignedSize::Byte),
    Keyword::Extended(SignedSize::Half),
    Keyword::Extended(SignedSize::Word),
    Keyword::Swap(ByteSwap::ToLittle, SwapWidth::Bits16),
    Keyword::Swap(ByteSwap::ToLittle, SwapWidth::Bits32),
    Keyword::Swap(ByteSwap::ToLittle, SwapWidth::Bits64),
    Keyword::Swap(ByteSwap::ToBig, SwapWidth::Bits16),
    Keyword::Swap(ByteSwap::ToBig, SwapWidth::Bits32),
    Keyword::Swap(ByteSwap::ToBig, SwapWidth::Bits64),
    Keyword::Swap(ByteSwap::Reverse, SwapWidth::Bits16),
    Keyword::Swap(ByteSwap::Reverse, SwapWidth::Bits32),
    Keyword::Swap(ByteSwap::Reverse, SwapWidth::Bits64),
    Keyword::FetchAdd,
    Keyword::FetchOr,
    Keyword::FetchAnd,
    Keyword::FetchXor,
    Keyword::Exchange(Width::Bits32),
    Keyword::Exchange(Width::Bits64),
    Keyword::CompareExchange(Width::Bits32),
    Keyword::CompareExchange(Width::Bits64),
];

/// All keywords, by their first letters.
const ON_S: [Keyword; 4] = [
    Keyword::Signed,
    Keyword::Extended(SignedSize::Byte),
    Keyword::Extended(SignedSize::Half),
    Keyword::Extended(SignedSize::Word),
];

const ON_I: [Keyword; 1] = [Keyword::If];

const ON_G: [Keyword; 2] = [Keyword::Goto, Keyword::GotoLong];

const ON_C: [Keyword; 3] = [
    Keyword::Call,
    Keyword::CompareExchange(Width::Bits32),
    Keyword::CompareExchange(Width::Bits64),
];

const ON_E: [Keyword; 1] = [Keyword::Exit];

const ON_L: [Keyword; 5] = [
    Keyword::Wide,
    Keyword::Lock,
    Keyword::Swap(ByteSwap::ToLittle, SwapWidth::Bits16),
    Keyword::Swap(ByteSwap::ToLittle, SwapWidth::Bits32),
    Keyword::Swap(ByteSwap::ToLittle, SwapWidth::Bits64),
];

const ON_M: [Keyword; 1] = [Keyword::Map];

const ON_U: [Keyword; 4] = [
    Keyword::Unsigned(Size::Byte),
    Keyword::Unsigned(Size::Half),
    Keyword::Unsigned(Size::Word),
    Keyword::Unsigned(Size::Double),
];

const ON_B: [Keyword; 6] = [
    Keyword::Swap(ByteSwap::ToBig, SwapWidth::Bits16),
    Keyword::Swap(ByteSwap::ToBig, SwapWidth::Bits32),
    Keyword::Swap(ByteSwap::ToBig, SwapWidth::Bits64),
    Keyword::Swap(ByteSwap::Reverse, SwapWidth::Bits16),
    Keyword::Swap(ByteSwap::Reverse, SwapWidth::Bits32),
    Keyword::Swap(ByteSwap::Reverse, SwapWidth::Bits64),
];

const ON_A: [Keyword; 4] = [
    Keyword::FetchAdd,
    Keyword::FetchOr,
    Keyword::FetchAnd,
    Keyword::FetchXor,
];

const ON_X: [Keyword; 2] = [
    Keyword::Exchange(Width::Bits32),
    Keyword::Exchange(Width::Bits64),
];

impl Keyword {
    /// How it is spelled.
    pub fn text(self) -> &'static str
        ensures { result.now ≡ keyword_text self }
    {
        match self {
            Keyword::Signed => "s",
            Keyword::If => "if",
            Keyword::Goto => "goto",
            Keyword::GotoLong => "gotol",
            Keyword::Call => "call",
            Keyword::Exit => "exit",
            Keyword::Wide => "ll",
            Keyword::Map => "map",
            Keyword::Lock => "lock",
            Keyword::Unsigned(size) => size_text(size),
            Keyword::Extended(size) => signed_size_text(size),
            Keyword::Swap(swap, width) => swap_text(swap, width),
            Keyword::FetchAdd => "atomic_fetch_add",
            Keyword::FetchOr => "atomic_fetch_or",
            Keyword::FetchAnd => "atomic_fetch_and",
            Keyword::FetchXor => "atomic_fetch_xor",
            Keyword::Exchange(Width::Bits32) => "xchg_32",
            Keyword::Exchange(Width::Bits64) => "xchg_64",
            Keyword::CompareExchange(Width::Bits32) => "cmpxchg_32",
            Keyword::CompareExchange(Width::Bits64) => "cmpxchg_64",
        }
    }

    pub fn is_same(self, other: Keyword) -> bool
        ensures { result ≡ same_keyword self other }
    {
        self.text().as_bytes() == other.text().as_bytes()
    }
}

impl fmt::Display for Keyword {
    ghost use Rattle.std.specs.Prelude.{Some};
    ghost use Rattle.bpf_spelling.specs.Names.{keyword_text};

    ghost output = { λ x. Some (keyword_text x) };

    fn fmt<W: fmt::Write>(&self, f: &mut fmt::Formatter<W>) -> fmt::Result {
        f.write_str(self.text())
    }
}

fn size_text(size: Size) -> &'static str
    ensures { result.now ≡ keyword_text (Keyword.Unsigned size) }
{
    match size {
        Size::Byte => "u8",
        Size::Half => "u16",
        Size::Word => "u32",
        Size::Double => "u64",
    }
}

fn signed_size_text(size: SignedSize) -> &'static str
    ensures { result.now ≡ keyword_text (Keyword.Extended size) }
{
    match size {
        SignedSize::Byte => "s8",
        SignedSize::Half => "s16",
        SignedSize::Word => "s32",
    }
}

fn swap_text(swap: ByteSwap, width: SwapWidth) -> &'static str
    ensures { result.now ≡ keyword_text (Keyword.Swap swap width) }
{
    match (swap, width) {
        (ByteSwap::ToLittle, SwapWidth::Bits16) => "le16",
        (ByteSwap::ToLittle, SwapWidth::Bits32) => "le32",
        (ByteSwap::ToLittle, SwapWidth::Bits64) => "le64",
        (ByteSwap::ToBig, SwapWidth::Bits16) => "be16",
        (ByteSwap::ToBig, SwapWidth::Bits32) => "be32",
        (ByteSwap::ToBig, SwapWidth::Bits64) => "be64",
        (ByteSwap::Reverse, SwapWidth::Bits16) => "bswap16",
        (ByteSwap::Reverse, SwapWidth::Bits32) => "bswap32",
        (ByteSwap::Reverse, SwapWidth::Bits64) => "bswap64",
    }
}

/// The first of these keywords with this spelling.
fn spelled(keywords: &[Keyword], word: &[u8]) -> Option<Keyword>
    ensures { result ≡ spelled keywords.now word.now }
{
    keywords
        .iter()
        .copied()
        .find(|k| k.text().as_bytes() == word)
}

/// The keyword with this spelling. Only those with its first letter are looked at.
pub fn keyword_named(word: &[u8]) -> Option<Keyword>
    ensures { result ≡ keyword_of word.now }
{
    let [first, ..] = word else {
        return None;
    };
    if *first == b's' {
        spelled(&ON_S, word)
    } else if *first == b'i' {
        spelled(&ON_I, word)
    } else if *first == b'g' {
        spelled(&ON_G, word)
    } else if *first == b'c' {
        spelled(&ON_C, word)
    } else if *first == b'e' {
        spelled(&ON_E, word)
    } else if *first == b'l' {
        spelled(&ON_L, word)
    } else if *first == b'm' {
        spelled(&ON_M, word)
    } else if *first == b'u' {
        spelled(&ON_U, word)
    } else if *first == b'b' {
        spelled(&ON_B, word)
    } else if *first == b'a' {
        spelled(&ON_A, word)
    } else if *first == b'x' {
        spelled(&ON_X, word)
    } else {
        None
    }
}
