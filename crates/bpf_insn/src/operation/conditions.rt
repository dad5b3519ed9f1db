//! Conditions, and their codes (RFC 9669, section 4.3).

ghost use Rattle.std.specs.Prelude.{◌≡◌, ◌<◌};
ghost use Rattle.bpf_insn.specs.Codes.{condition_code};
ghost use Rattle.bpf_insn.specs.Private.Lookup.{condition_at};

/// When a jump is taken (RFC 9669, section 4.3), by the RFC's names without their J.
#[derive(Clone, Copy, PartialEq, Eq, Debug)]
pub enum Condition {
    /// `dst == src`.
    Eq,
    /// `dst > src` of unsigned numbers.
    Gt,
    /// `dst >= src` of unsigned numbers.
    Ge,
    /// `dst & src` is not 0.
    Set,
    /// `dst != src`.
    Ne,
    /// `dst > src` of signed numbers.
    Sgt,
    /// `dst >= src` of signed numbers.
    Sge,
    /// `dst < src` of unsigned numbers.
    Lt,
    /// `dst <= src` of unsigned numbers.
    Le,
    /// `dst < src` of signed numbers.
    Slt,
    /// `dst <= src` of signed numbers.
    Sle,
}

/// All conditions.
pub const CONDITIONS: [Condition; 11] = [
    Condition::Eq,
    Condition::Gt,
    Condition::Ge,
    Condition::Set,
    Condition::Ne,
    Condition::Sgt,
    Condition::Sge,
    Condition::Lt,
    Condition::Le,
    Condition::Slt,
    Condition::Sle,
];

impl Condition {
    /// The condition of this code.
    #[tactic(auto, unfolding(crate::specs::Private::Lookup::condition_at))]
    pub(crate) fn from_code(code: u8) -> Option<Condition>
        ensures { result ≡ condition_at code }
    {
        CONDITIONS.iter().copied().find(|c| c.code() == code)
    }

    pub(crate) fn code(self) -> u8
        ensures value { result ≡ condition_code self }
        ensures small { result < 16 }
    {
        match self {
            Condition::Eq => 0x1,
            Condition::Gt => 0x2,
            Condition::Ge => 0x3,
            Condition::Set => 0x4,
            Condition::Ne => 0x5,
            Condition::Sgt => 0x6,
            Condition::Sge => 0x7,
            Condition::Lt => 0xa,
            Condition::Le => 0xb,
            Condition::Slt => 0xc,
            Condition::Sle => 0xd,
        }
    }
}
