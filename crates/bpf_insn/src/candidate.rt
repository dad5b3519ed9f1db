//! The one instruction whose row a word can be of, by its class and its code, with what the word's
//! fields hold. Whether the word is of that row is for its reader to ask.

ghost use Rattle.std.specs.Prelude.{◌≡◌, ◌+◌, ◌*◌, ◌^◌};
ghost use Rattle.bpf_insn.specs.Private.Lookup.{register_at};
ghost use Rattle.bpf_insn.specs.Private.Candidate.{dst_of, src_of, second_operand, high_of, alu_at, swap_bytes_at, arithmetic_at, call_at, jump_at, jump_if_at, jumps_at, wide_at, loads_at, immediate_stores_at, stores_at, candidate_at};

use crate::codes::{ALU, ALWAYS, CALL, END, EXIT, JMP, JMP32, LD, LDX, MEM, NEGATE, ST, STX};
use crate::instruction::{Insn, Operand};
use crate::operation::{
    AluOp, AtomicOp, ByteSwap, Condition, SignExtension, SignedSize, Size, SwapWidth, Width,
};
use crate::register::Reg;
use crate::word::{Window, Word};

/// The register that a field names.
fn register(field: u8) -> Option<Reg>
    ensures { result ≡ register_at field }
{
    Reg::new(field)
}

/// The first register that the word names, R0 where there is none of its number.
fn dst(word: Word) -> Reg
    ensures { result ≡ dst_of word }
{
    register(word.dst).unwrap_or(Reg::R0)
}

/// The second one.
fn src(word: Word) -> Reg
    ensures { result ≡ src_of word }
{
    register(word.src).unwrap_or(Reg::R0)
}

/// The second operand: bit 3 of the opcode says which it is.
fn operand(word: Word) -> Operand
    ensures { result ≡ second_operand word }
{
    if word.opcode / 8 % 2 == 0 {
        Operand::Immediate(word.imm.cast_signed())
    } else {
        Operand::Register(src(word))
    }
}

#[tactic(auto, unfolding(crate::specs::Private::Candidate::alu_at))]
fn alu(width: Width, word: Word) -> Option<Insn>
    ensures { result ≡ alu_at width word }
{
    let op = AluOp::from_code(word.opcode / 16, word.offset)?;
    Some(Insn::Alu {
        width,
        op,
        dst: dst(word),
        src: operand(word),
    })
}

#[tactic(auto, unfolding(crate::specs::Private::Candidate::swap_bytes_at))]
fn swap_bytes(word: Word) -> Option<Insn>
    ensures { result ≡ swap_bytes_at word }
{
    let swap = ByteSwap::from_opcode(word.opcode)?;
    let width = SwapWidth::from_bits(word.imm)?;
    Some(Insn::SwapBytes {
        swap,
        width,
        dst: dst(word),
    })
}

/// The classes ALU and ALU64 (RFC 9669, sections 4.1 and 4.2).
#[tactic(auto, unfolding(crate::specs::Private::Candidate::arithmetic_at))]
fn arithmetic(width: Width, word: Word) -> Option<Insn>
    ensures { result ≡ arithmetic_at width word }
{
    if let Some(extension) = SignExtension::from_codes(word.opcode, word.offset) {
        return Some(Insn::SignExtend {
            extension,
            dst: dst(word),
            src: src(word),
        });
    }
    match word.opcode / 16 {
        NEGATE => Some(Insn::Negate {
            width,
            dst: dst(word),
        }),
        END => swap_bytes(word),
        _ => alu(width, word),
    }
}

/// CALL: `src` says whether of a helper or of a function of the program.
fn call(word: Word) -> Insn
    ensures { result ≡ call_at word }
{
    match word.src {
        0 => Insn::CallHelper { number: word.imm },
        _ => Insn::CallLocal {
            offset: word.imm.cast_signed(),
        },
    }
}

/// JA, whose width says where its offset is.
fn jump(width: Width, word: Word) -> Insn
    ensures { result ≡ jump_at width word }
{
    match width {
        Width::Bits32 => Insn::JumpLong {
            offset: word.imm.cast_signed(),
        },
        Width::Bits64 => Insn::Jump {
            offset: word.offset.cast_signed(),
        },
    }
}

#[tactic(auto, unfolding(crate::specs::Private::Candidate::jump_if_at))]
fn jump_if(width: Width, word: Word) -> Option<Insn>
    ensures { result ≡ jump_if_at width word }
{
    let condition = Condition::from_code(word.opcode / 16)?;
    Some(Insn::JumpIf {
        width,
        condition,
        dst: dst(word),
        src: operand(word),
        offset: word.offset.cast_signed(),
    })
}

/// The classes JMP and JMP32 (RFC 9669, section 4.3).
#[tactic(auto, unfolding(crate::specs::Private::Candidate::jumps_at))]
fn jumps(width: Width, word: Word) -> Option<Insn>
    ensures { result ≡ jumps_at width word }
{
    match word.opcode / 16 {
        ALWAYS => Some(jump(width, word)),
        CALL => Some(call(word)),
        EXIT => Some(Insn::Exit),
        _ => jump_if(width, word),
    }
}

/// A number by its high and its low half.
fn join(high: u32, low: u32) -> u64
    ensures { result ≡ high * 2 ^ 32 + low }
{
    u64::from(high) * 0x1_0000_0000 + u64::from(low)
}

/// The immediate of the second word, 0 where there is none.
fn high(next: Option<Word>) -> u32
    ensures { result ≡ high_of next }
{
    match next {
        Some(word) => word.imm,
        None => 0,
    }
}

/// The class LD (RFC 9669, section 5.4): `src` says whether of a number or of a map.
fn wide(window: &Window) -> Insn
    ensures { result ≡ wide_at window.now }
{
    let word = window.word;
    match word.src {
        0 => Insn::LoadNumber {
            dst: dst(word),
            number: join(high(window.next), word.imm),
        },
        _ => Insn::LoadMap {
            dst: dst(word),
            map: word.imm,
        },
    }
}

/// The class LDX (RFC 9669, sections 5.1 and 5.2).
#[tactic(auto, unfolding(crate::specs::Private::Candidate::loads_at))]
fn loads(word: Word) -> Option<Insn>
    ensures { result ≡ loads_at word }
{
    let (dst, base) = (dst(word), src(word));
    let offset = word.offset.cast_signed();
    if word.opcode / 32 == MEM {
        let size = Size::from_code(word.opcode / 8 % 4)?;
        return Some(Insn::Load {
            size,
            dst,
            base,
            offset,
        });
    }
    let size = SignedSize::from_code(word.opcode / 8 % 4)?;
    Some(Insn::LoadSigned {
        size,
        dst,
        base,
        offset,
    })
}

/// The class ST.
#[tactic(auto, unfolding(crate::specs::Private::Candidate::immediate_stores_at))]
fn immediate_stores(word: Word) -> Option<Insn>
    ensures { result ≡ immediate_stores_at word }
{
    let size = Size::from_code(word.opcode / 8 % 4)?;
    Some(Insn::StoreImmediate {
        size,
        base: dst(word),
        offset: word.offset.cast_signed(),
        value: word.imm.cast_signed(),
    })
}

/// The class STX (RFC 9669, sections 5.1 and 5.3).
#[tactic(auto, unfolding(crate::specs::Private::Candidate::stores_at))]
fn stores(word: Word) -> Option<Insn>
    ensures { result ≡ stores_at word }
{
    let (base, src) = (dst(word), src(word));
    let offset = word.offset.cast_signed();
    if word.opcode / 32 == MEM {
        let size = Size::from_code(word.opcode / 8 % 4)?;
        return Some(Insn::Store {
            size,
            base,
            offset,
            src,
        });
    }
    let width = Width::from_atomic_size(word.opcode / 8 % 4)?;
    let op = AtomicOp::from_code(word.imm)?;
    Some(Insn::Atomic {
        width,
        op,
        base,
        offset,
        src,
    })
}

/// The instruction of the only row that the first word can be of.
#[tactic(auto, unfolding(crate::specs::Private::Candidate::candidate_at))]
pub fn candidate(window: &Window) -> Option<Insn>
    ensures { result ≡ candidate_at window.now }
{
    let word = window.word;
    match word.opcode % 8 {
        LD => Some(wide(window)),
        LDX => loads(word),
        ST => immediate_stores(word),
        STX => stores(word),
        ALU => arithmetic(Width::Bits32, word),
        JMP => jumps(Width::Bits64, word),
        JMP32 => jumps(Width::Bits32, word),
        _ => arithmetic(Width::Bits64, word),
    }
}
