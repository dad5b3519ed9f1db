//! One instruction as a value: a variant a row of the table.

use crate::operation::{
    AluOp, AtomicOp, ByteSwap, Condition, SignExtension, SignedSize, Size, SwapWidth, Width,
};
use crate::register::Reg;

/// The second operand (RFC 9669, section 4).
#[derive(Clone, Copy, PartialEq, Eq, Debug)]
pub enum Operand {
    /// K: a number, sign-extended to the width.
    Immediate(i32),
    /// X: what a register holds.
    Register(Reg),
}

/// One instruction, a variant a row of the table (RFC 9669, sections 4 and 5). Offsets of jumps and
/// of local calls count words of 8 bytes from the next instruction, those of loads and stores
/// bytes.
#[derive(Clone, Copy, PartialEq, Eq, Debug)]
pub enum Insn {
    /// `dst = dst op src` (section 4.1).
    Alu {
        width: Width,
        op: AluOp,
        dst: Reg,
        src: Operand,
    },
    /// NEG: `dst = -dst` (section 4.1).
    Negate {
        width: Width,
        dst: Reg,
    },
    /// MOVSX: `dst = src`, sign-extended (section 4.1).
    SignExtend {
        extension: SignExtension,
        dst: Reg,
        src: Reg,
    },
    /// END: keeps or reverses the low bytes of `dst` (section 4.2).
    SwapBytes {
        swap: ByteSwap,
        width: SwapWidth,
        dst: Reg,
    },
    /// JA of the class JMP, with an offset of 16 bits (section 4.3).
    Jump {
        offset: i16,
    },
    /// JA of the class JMP32, with an offset of 32 bits (section 4.3).
    JumpLong {
        offset: i32,
    },
    /// Jumps where `dst condition src` (section 4.3).
    JumpIf {
        width: Width,
        condition: Condition,
        dst: Reg,
        src: Operand,
        offset: i16,
    },
    /// CALL of a helper by its number (section 4.3.1).
    CallHelper {
        number: u32,
    },
    /// CALL of a function of the program (section 4.3.2).
    CallLocal {
        offset: i32,
    },
    /// EXIT: returns from a local function, or ends the program (section 4.3).
    Exit,
    /// LDX MEM: `dst` = the bytes at `base + offset`, zero-extended (section 5.1).
    Load {
        size: Size,
        dst: Reg,
        base: Reg,
        offset: i16,
    },
    /// LDX MEMSX: the same, sign-extended (section 5.2).
    LoadSigned {
        size: SignedSize,
        dst: Reg,
        base: Reg,
        offset: i16,
    },
    /// ST MEM: the bytes at `base + offset` = `value` (section 5.1).
    StoreImmediate {
        size: Size,
        base: Reg,
        offset: i16,
        value: i32,
    },
    /// STX MEM: the bytes at `base + offset` = `src` (section 5.1).
    Store {
        size: Size,
        base: Reg,
        offset: i16,
        src: Reg,
    },
    /// STX ATOMIC on 4 or 8 bytes at `base + offset` (section 5.3).
    Atomic {
        width: Width,
        op: AtomicOp,
        base: Reg,
        offset: i16,
        src: Reg,
    },
    /// LD IMM: `dst` = a number of 64 bits; two words (section 5.4).
    LoadNumber {
        dst: Reg,
        number: u64,
    },
    /// LD IMM with src 1: `dst` = a map, by its number where the RFC has a file descriptor; two
    /// words (section 5.4).
    LoadMap {
        dst: Reg,
        map: u32,
    },
}

impl Insn {
    ghost use Rattle.std.specs.Prelude.{◌≡◌};
    ghost use Rattle.bpf_insn.specs.Table.{words};

    /// How many 8-byte words it has: two where it loads 64 bits of its own, else one.
    pub fn words(&self) -> u32
        ensures { result ≡ words self.now }
    {
        match self {
            Insn::LoadNumber { .. } | Insn::LoadMap { .. } => 2,
            _ => 1,
        }
    }
}
