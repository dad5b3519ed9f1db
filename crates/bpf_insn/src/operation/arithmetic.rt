//! Arithmetic, and its codes (RFC 9669, section 4.1).

ghost use Rattle.std.specs.Prelude.{◌≡◌, ◌<◌};
ghost use Rattle.bpf_insn.specs.Codes.{alu_code};
ghost use Rattle.bpf_insn.specs.Table.{offset_k, offset_x};
ghost use Rattle.bpf_insn.specs.Private.Lookup.{alu_op_at};

use crate::row::Field;

/// Arithmetic on two operands (RFC 9669, section 4.1), by the RFC's names, on the bits of the
/// width.
#[derive(Clone, Copy, PartialEq, Eq, Debug)]
pub enum AluOp {
    /// `dst + src`, without the carry.
    Add,
    /// `dst - src`, without the borrow.
    Sub,
    /// The low bits of `dst * src`.
    Mul,
    /// `dst / src` of unsigned numbers; 0 where `src` is 0.
    Div,
    /// `dst / src` of signed numbers, rounded toward zero; 0 where `src` is 0.
    Sdiv,
    /// `dst | src`.
    Or,
    /// `dst & src`.
    And,
    /// `dst << src`, by the low 5 or 6 bits of `src`.
    Lsh,
    /// `dst >> src`, filled with zeros, by the low 5 or 6 bits of `src`.
    Rsh,
    /// `dst % src` of unsigned numbers; `dst` where `src` is 0.
    Mod,
    /// `dst % src` of signed numbers, with the sign of `dst`; `dst` where `src` is 0.
    Smod,
    /// `dst ^ src`.
    Xor,
    /// `src`.
    Mov,
    /// `dst >> src`, filled with the sign, by the low 5 or 6 bits of `src`.
    Arsh,
}

/// All operations.
pub const ALU_OPS: [AluOp; 14] = [
    AluOp::Add,
    AluOp::Sub,
    AluOp::Mul,
    AluOp::Div,
    AluOp::Sdiv,
    AluOp::Or,
    AluOp::And,
    AluOp::Lsh,
    AluOp::Rsh,
    AluOp::Mod,
    AluOp::Smod,
    AluOp::Xor,
    AluOp::Mov,
    AluOp::Arsh,
];

impl AluOp {
    /// The operation of this code; of a division the offset says whether it is signed.
    #[tactic(auto, unfolding(crate::specs::Private::Lookup::alu_op_at))]
    pub(crate) fn from_code(code: u8, offset: u16) -> Option<AluOp>
        ensures { result ≡ alu_op_at code offset }
    {
        ALU_OPS.iter().copied().find(|op| op.code() == code
            && op.offset().selects(u32::from(offset)))
    }

    /// Its code, shared by unsigned and signed division.
    pub(crate) fn code(self) -> u8
        ensures value { result ≡ alu_code self }
        ensures small { result < 16 }
    {
        match self {
            AluOp::Add => 0x0,
            AluOp::Sub => 0x1,
            AluOp::Mul => 0x2,
            AluOp::Div | AluOp::Sdiv => 0x3,
            AluOp::Or => 0x4,
            AluOp::And => 0x5,
            AluOp::Lsh => 0x6,
            AluOp::Rsh => 0x7,
            AluOp::Mod | AluOp::Smod => 0x9,
            AluOp::Xor => 0xa,
            AluOp::Mov => 0xb,
            AluOp::Arsh => 0xc,
        }
    }

    /// Its offset, which distinguishes division from signed division.
    pub(crate) fn offset(self) -> Field
        ensures { result ≡ offset_k self }
    {
        match self {
            AluOp::Div | AluOp::Mod => Field::Selects(0),
            AluOp::Sdiv | AluOp::Smod => Field::Selects(1),
            _ => Field::Unused,
        }
    }

    /// Its offset where the operand is a register, which distinguishes MOV from MOVSX too.
    pub(crate) fn offset_from_register(self) -> Field
        ensures { result ≡ offset_x self }
    {
        match self {
            AluOp::Mov => Field::Selects(0),
            _ => self.offset(),
        }
    }
}
