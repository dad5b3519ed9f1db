//! Registers by name.

ghost use Rattle.std.specs.Prelude.{◌≡◌};
ghost use Rattle.bpf_spelling.specs.Names.{register_text, register_of};
ghost use Rattle.bpf_spelling.specs.Private.Letters.{named};

use bpf_insn::{Reg, Width};

/// All registers' names.
pub const REGISTERS: [(Width, Reg); 22] = [
    (Width::Bits64, Reg::R0),
    (Width::Bits64, Reg::R1),
    (Width::Bits64, Reg::R2),
    (Width::Bits64, Reg::R3),
    (Width::Bits64, Reg::R4),
    (Width::Bits64, Reg::R5),
    (Width::Bits64, Reg::R6),
    (Width::Bits64, Reg::R7),
    (Width::Bits64, Reg::R8),
    (Width::Bits64, Reg::R9),
    (Width::Bits64, Reg::R10),
    (Width::Bits32, Reg::R0),
    (Width::Bits32, Reg::R1),
    (Width::Bits32, Reg::R2),
    (Width::Bits32, Reg::R3),
    (Width::Bits32, Reg::R4),
    (Width::Bits32, Reg::R5),
    (Width::Bits32, Reg::R6),
    (Width::Bits32, Reg::R7),
    (Width::Bits32, Reg::R8),
    (Width::Bits32, Reg::R9),
    (Width::Bits32, Reg::R10),
];

/// Those of all 64 bits, and those of the low 32.
const WHOLE: [(Width, Reg); 11] = [
    (Width::Bits64, Reg::R0),
    (Width::Bits64, Reg::R1),
    (Width::Bits64, Reg::R2),
    (Width::Bits64, Reg::R3),
    (Width::Bits64, Reg::R4),
    (Width::Bits64, Reg::R5),
    (Width::Bits64, Reg::R6),
    (Width::Bits64, Reg::R7),
    (Width::Bits64, Reg::R8),
    (Width::Bits64, Reg::R9),
    (Width::Bits64, Reg::R10),
];

const LOW: [(Width, Reg); 11] = [
    (Width::Bits32, Reg::R0),
    (Width::Bits32, Reg::R1),
    (Width::Bits32, Reg::R2),
    (Width::Bits32, Reg::R3),
    (Width::Bits32, Reg::R4),
    (Width::Bits32, Reg::R5),
    (Width::Bits32, Reg::R6),
    (Width::Bits32, Reg::R7),
    (Width::Bits32, Reg::R8),
    (Width::Bits32, Reg::R9),
    (Width::Bits32, Reg::R10),
];

/// A register's name: `r` for all 64 bits, `w` for the low 32.
pub fn register_text(width: Width, register: Reg) -> &'static str
    ensures { result.now ≡ register_text width register }
{
    match (width, register) {
        (Width::Bits64, Reg::R0) => "r0",
        (Width::Bits64, Reg::R1) => "r1",
        (Width::Bits64, Reg::R2) => "r2",
        (Width::Bits64, Reg::R3) => "r3",
        (Width::Bits64, Reg::R4) => "r4",
        (Width::Bits64, Reg::R5) => "r5",
        (Width::Bits64, Reg::R6) => "r6",
        (Width::Bits64, Reg::R7) => "r7",
        (Width::Bits64, Reg::R8) => "r8",
        (Width::Bits64, Reg::R9) => "r9",
        (Width::Bits64, Reg::R10) => "r10",
        (Width::Bits32, Reg::R0) => "w0",
        (Width::Bits32, Reg::R1) => "w1",
        (Width::Bits32, Reg::R2) => "w2",
        (Width::Bits32, Reg::R3) => "w3",
        (Width::Bits32, Reg::R4) => "w4",
        (Width::Bits32, Reg::R5) => "w5",
        (Width::Bits32, Reg::R6) => "w6",
        (Width::Bits32, Reg::R7) => "w7",
        (Width::Bits32, Reg::R8) => "w8",
        (Width::Bits32, Reg::R9) => "w9",
        (Width::Bits32, Reg::R10) => "w10",
    }
}

/// The first of these registers with this name.
fn named(registers: &[(Width, Reg)], word: &[u8]) -> Option<(Width, Reg)>
    ensures { result ≡ named registers.now word.now }
{
    registers
        .iter()
        .copied()
        .find(|r| register_text(r.0, r.1).as_bytes() == word)
}

/// The register with this name. Only those with its first letter are looked at.
pub fn register_named(word: &[u8]) -> Option<(Width, Reg)>
    ensures { result ≡ register_of word.now }
{
    let [first, ..] = word else {
        return None;
    };
    if *first == b'r' {
        named(&WHOLE, word)
    } else if *first == b'w' {
        named(&LOW, word)
    } else {
        None
    }
}
