//! The pieces of canonical lines, as they are printed.

use bpf_insn::{Operand, Reg, Width};
use bpf_spelling::{Keyword, registers};
use std::fmt;

/// A register by its name.
#[derive(Drop)]
pub struct Named(pub Width, pub Reg);

impl fmt::Display for Named {
    ghost use Rattle.std.specs.Prelude.{Some};
    ghost use Rattle.bpf_spelling.specs.Names.{register_text};

    ghost output = { λ x. Some (register_text x.0 x.1) };

    fn fmt<W: fmt::Write>(&self, f: &mut fmt::Formatter<W>) -> fmt::Result {
        f.write_str(registers::register_text(self.0, self.1))
    }
}

/// A number after its sign and a blank.
#[derive(Drop)]
pub struct Offset(pub i16);

impl fmt::Display for Offset {
    ghost use Rattle.std.specs.Prelude.{Some, ◌∷◌, []};
    ghost use Rattle.bpf_spelling.specs.Form.{offset_text};

    ghost output = { λ x. Some (offset_text (32 ∷ []) x.0) };

    fn fmt<W: fmt::Write>(&self, f: &mut fmt::Formatter<W>) -> fmt::Result {
        let size = self.0.unsigned_abs();
        if self.0 < 0 {
            write!(f, "- {size}")
        } else {
            write!(f, "+ {size}")
        }
    }
}

/// A jump's distance, after its sign.
#[derive(Drop)]
pub struct Distance(pub i32);

impl fmt::Display for Distance {
    ghost use Rattle.std.specs.Prelude.{Some, []};
    ghost use Rattle.bpf_spelling.specs.Form.{offset_text};

    ghost output = { λ x. Some (offset_text [] x.0) };

    fn fmt<W: fmt::Write>(&self, f: &mut fmt::Formatter<W>) -> fmt::Result {
        let size = self.0.unsigned_abs();
        if self.0 < 0 {
            write!(f, "-{size}")
        } else {
            write!(f, "+{size}")
        }
    }
}

/// The second operand.
#[derive(Drop)]
pub struct Second(pub Width, pub Operand);

impl fmt::Display for Second {
    ghost use Rattle.std.specs.Prelude.{Some};
    ghost use Rattle.bpf_spelling.specs.Form.{item_text, operand_item};

    ghost output = { λ x. Some (item_text (operand_item x.0 x.1)) };

    fn fmt<W: fmt::Write>(&self, f: &mut fmt::Formatter<W>) -> fmt::Result {
        match self.1 {
            Operand::Immediate(number) => write!(f, "{number}"),
            Operand::Register(register) => write!(f, "{}", Named(self.0, register)),
        }
    }
}

/// The bytes that a load or a store moves: `(u8 *)(R + n)`.
#[derive(Drop)]
pub struct Cell(pub Keyword, pub Reg, pub i16);

impl fmt::Display for Cell {
    ghost use Rattle.std.specs.Prelude.{Some, []};
    ghost use Rattle.bpf_spelling.specs.Form.{text_of, cell_items};

    ghost output = { λ x. Some (text_of (cell_items x.0 x.1 x.2 [])) };

    fn fmt<W: fmt::Write>(&self, f: &mut fmt::Formatter<W>) -> fmt::Result {
        let size = self.0;
        let base = Named(Width::Bits64, self.1);
        let offset = Offset(self.2);
        write!(f, "({size} *)({base} {offset})")
    }
}

/// A number of 64 bits: `0x` and sixteen hex digits.
#[derive(Drop)]
pub struct WideNumber(pub u64);

impl fmt::Display for WideNumber {
    ghost use Rattle.std.specs.Prelude.{Some};
    ghost use Rattle.bpf_spelling.specs.Form.{wide_text};

    ghost output = { λ x. Some (wide_text x.0) };

    #[tactic(auto, using(crate::proofs::WideText::padded_zeros))]
    fn fmt<W: fmt::Write>(&self, f: &mut fmt::Formatter<W>) -> fmt::Result {
        write!(f, "0x{:016x}", self.0)
    }
}
