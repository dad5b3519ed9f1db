//! Classes, modes, and the codes of rows that are alone, and the opcodes made of them (RFC 9669,
//! sections 3 to 5).

ghost use Rattle.std.specs.Prelude.{◌≡◌, ◌<◌};
ghost use Rattle.bpf_insn.specs.Codes.{opcode_k, opcode_x, opcode_memory};

// The classes, in bits 0 to 2 of an opcode (section 3.3).
pub const LD: u8 = 0;

pub const LDX: u8 = 1;

pub const ST: u8 = 2;

pub const STX: u8 = 3;

pub const ALU: u8 = 4;

pub const JMP: u8 = 5;

pub const JMP32: u8 = 6;

pub const ALU64: u8 = 7;

// The codes of rows that are alone, in bits 4 to 7 (sections 4.1 to 4.3).
pub const NEGATE: u8 = 0x8;

pub const END: u8 = 0xd;

pub const ALWAYS: u8 = 0x0;

pub const CALL: u8 = 0x8;

pub const EXIT: u8 = 0x9;

// The modes of loads and stores, in bits 5 to 7 (section 5).
pub const IMM: u8 = 0;

pub const MEM: u8 = 3;

pub const MEMSX: u8 = 4;

pub const ATOMIC: u8 = 6;

/// The opcode of arithmetic or a jump with an immediate.
pub fn opcode_k(class: u8, code: u8) -> u8
    requires class { class < 8 }
    requires code { code < 16 }
    ensures { result ≡ opcode_k class code }
{
    class + 16 * code
}

/// The opcode of arithmetic or a jump with a register.
pub fn opcode_x(class: u8, code: u8) -> u8
    requires class { class < 8 }
    requires code { code < 16 }
    ensures { result ≡ opcode_x class code }
{
    class + 8 + 16 * code
}

/// The opcode of a load or a store.
pub fn opcode_memory(class: u8, size: u8, mode: u8) -> u8
    requires class { class < 8 }
    requires size { size < 4 }
    requires mode { mode < 8 }
    ensures { result ≡ opcode_memory class size mode }
{
    class + 8 * size + 32 * mode
}
