//! Registers compared.

ghost use Rattle.std.specs.Prelude.{◌≡◌};
ghost use Rattle.bpf_text.specs.Private.Pieces.{same_width, same_register};

use bpf_insn::{Reg, Width};

pub fn same_width(a: Width, b: Width) -> bool
    ensures { result ≡ same_width a b }
{
    match (a, b) {
        (Width::Bits32, Width::Bits32) => true,
        (Width::Bits64, Width::Bits64) => true,
        (Width::Bits32, Width::Bits64) => false,
        (Width::Bits64, Width::Bits32) => false,
    }
}

pub fn same_register(a: Reg, b: Reg) -> bool
    ensures { result ≡ same_register a b }
{
    a.number() == b.number()
}
