//! Sizes of loads and stores, and their codes (RFC 9669, sections 5.1 and 5.2).

ghost use Rattle.std.specs.Prelude.{◌≡◌, ◌<◌};
ghost use Rattle.bpf_insn.specs.Codes.{size_code, signed_size_code};
ghost use Rattle.bpf_insn.specs.Private.Lookup.{size_at, signed_size_at};

/// How many bytes a load or a store moves, by the RFC's names (RFC 9669, section 5, B to DW).
#[derive(Clone, Copy, PartialEq, Eq, Debug)]
pub enum Size {
    /// 1 byte.
    Byte,
    /// 2 bytes.
    Half,
    /// 4 bytes.
    Word,
    /// 8 bytes.
    Double,
}

/// How many bytes a sign-extending load reads (RFC 9669, section 5.2): 8 would leave nothing to
/// extend.
#[derive(Clone, Copy, PartialEq, Eq, Debug)]
pub enum SignedSize {
    /// 1 byte.
    Byte,
    /// 2 bytes.
    Half,
    /// 4 bytes.
    Word,
}

const SIZES: [Size; 4] = [Size::Byte, Size::Half, Size::Word, Size::Double];

const SIGNED_SIZES: [SignedSize; 3] = [SignedSize::Byte, SignedSize::Half, SignedSize::Word];

impl Size {
    /// The size of this code.
    #[tactic(auto, unfolding(crate::specs::Private::Lookup::size_at))]
    pub(crate) fn from_code(code: u8) -> Option<Size>
        ensures { result ≡ size_at code }
    {
        SIZES.iter().copied().find(|size| size.code() == code)
    }

    pub(crate) fn code(self) -> u8
        ensures value { result ≡ size_code self }
        ensures small { result < 4 }
    {
        match self {
            Size::Word => 0,
            Size::Half => 1,
            Size::Byte => 2,
            Size::Double => 3,
        }
    }
}

impl SignedSize {
    /// The size of this code: 8 bytes aren't extended.
    #[tactic(auto, unfolding(crate::specs::Private::Lookup::signed_size_at))]
    pub(crate) fn from_code(code: u8) -> Option<SignedSize>
        ensures { result ≡ signed_size_at code }
    {
        SIGNED_SIZES
            .iter()
            .copied()
            .find(|size| size.code() == code)
    }

    pub(crate) fn code(self) -> u8
        ensures value { result ≡ signed_size_code self }
        ensures small { result < 4 }
    {
        match self {
            SignedSize::Word => Size::Word.code(),
            SignedSize::Half => Size::Half.code(),
            SignedSize::Byte => Size::Byte.code(),
        }
    }
}
