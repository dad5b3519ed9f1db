//! Instructions, as their canonical lines.

ghost use Rattle.std.specs.Prelude.{◌≡◌};
ghost use Rattle.bpf_spelling.specs.Form.{extended_size, extended_width};

use crate::atomic::Atomic;
use crate::pieces::{Cell, Distance, Named, Second, WideNumber};
use bpf_insn::{Condition, Insn, Operand, Reg, SignExtension, SignedSize, Width};
use bpf_spelling::{Keyword, operators};
use std::fmt;

fn extended_width(extension: SignExtension) -> Width
    ensures { result ≡ extended_width extension }
{
    match extension {
        SignExtension::From8To32 | SignExtension::From16To32 => Width::Bits32,
        SignExtension::From8To64 | SignExtension::From16To64 | SignExtension::From32To64 => {
            Width::Bits64
        }
    }
}

fn extended_size(extension: SignExtension) -> SignedSize
    ensures { result ≡ extended_size extension }
{
    match extension {
        SignExtension::From8To32 | SignExtension::From8To64 => SignedSize::Byte,
        SignExtension::From16To32 | SignExtension::From16To64 => SignedSize::Half,
        SignExtension::From32To64 => SignedSize::Word,
    }
}

/// A branch.
#[derive(Drop)]
struct Branch {
    width: Width,
    condition: Condition,
    dst: Reg,
    src: Operand,
    offset: i16,
}

impl fmt::Display for Branch {
    ghost use Rattle.std.specs.Prelude.{Some};
    ghost use Rattle.bpf_insn.specs.declared.instruction.Insn.TheVariants as insn;
    ghost use Rattle.bpf_spelling.specs.Form.{line_of};

    ghost output = { λ x. Some (line_of (insn.JumpIf x.width x.condition x.dst x.src x.offset)) };

    #[tactic(auto, using(crate::proofs::FormText::append_texts))]
    fn fmt<W: fmt::Write>(&self, f: &mut fmt::Formatter<W>) -> fmt::Result {
        let dst = Named(self.width, self.dst);
        let test = operators::comparison_of(self.condition);
        let src = Second(self.width, self.src);
        let target = Distance(i32::from(self.offset));
        write!(
            f,
            "{} {dst} {test} {src} {} {target}",
            Keyword::If,
            Keyword::Goto
        )
    }
}

/// An instruction as its canonical line.
#[derive(Drop)]
pub struct Line(pub Insn);

impl fmt::Display for Line {
    ghost use Rattle.std.specs.Prelude.{Some};
    ghost use Rattle.bpf_spelling.specs.Form.{line_of};

    ghost output = { λ x. Some (line_of x.0) };

    #[tactic(auto, using(crate::proofs::FormText::append_texts))]
    fn fmt<W: fmt::Write>(&self, f: &mut fmt::Formatter<W>) -> fmt::Result {
        match self.0 {
            Insn::Alu {
                width,
                op,
                dst,
                src,
            } => {
                let op = operators::operator_of(op);
                write!(f, "{} {op} {}", Named(width, dst), Second(width, src))
            }
            Insn::Negate { width, dst } => {
                let dst = Named(width, dst);
                write!(f, "{dst} = -{dst}")
            }
            Insn::SignExtend {
                extension,
                dst,
                src,
            } => {
                let width = extended_width(extension);
                let size = Keyword::Extended(extended_size(extension));
                write!(f, "{} = ({size}){}", Named(width, dst), Named(width, src))
            }
            Insn::SwapBytes { swap, width, dst } => {
                let dst = Named(Width::Bits64, dst);
                write!(f, "{dst} = {} {dst}", Keyword::Swap(swap, width))
            }
            Insn::Jump { offset } => {
                write!(f, "{} {}", Keyword::Goto, Distance(i32::from(offset)))
            }
            Insn::JumpLong { offset } => write!(f, "{} {}", Keyword::GotoLong, Distance(offset)),
            Insn::JumpIf {
                width,
                condition,
                dst,
                src,
                offset,
            } => {
                write!(
                    f,
                    "{}",
                    Branch {
                        width,
                        condition,
                        dst,
                        src,
                        offset
                    }
                )
            }
            Insn::CallHelper { number } => write!(f, "{} {number}", Keyword::Call),
            Insn::CallLocal { offset } => write!(f, "{} {}", Keyword::Call, Distance(offset)),
            Insn::Exit => write!(f, "{}", Keyword::Exit),
            Insn::Load {
                size,
                dst,
                base,
                offset,
            } => {
                let cell = Cell(Keyword::Unsigned(size), base, offset);
                write!(f, "{} = *{cell}", Named(Width::Bits64, dst))
            }
            Insn::LoadSigned {
                size,
                dst,
                base,
                offset,
            } => {
                let cell = Cell(Keyword::Extended(size), base, offset);
                write!(f, "{} = *{cell}", Named(Width::Bits64, dst))
            }
            Insn::StoreImmediate {
                size,
                base,
                offset,
                value,
            } => {
                let cell = Cell(Keyword::Unsigned(size), base, offset);
                write!(f, "*{cell} = {value}")
            }
            Insn::Store {
                size,
                base,
                offset,
                src,
            } => {
                let cell = Cell(Keyword::Unsigned(size), base, offset);
                write!(f, "*{cell} = {}", Named(Width::Bits64, src))
            }
            Insn::Atomic {
                width,
                op,
                base,
                offset,
                src,
            } => {
                write!(
                    f,
                    "{}",
                    Atomic {
                        width,
                        op,
                        base,
                        offset,
                        src
                    }
                )
            }
            Insn::LoadNumber { dst, number } => {
                let number = WideNumber(number);
                write!(
                    f,
                    "{} = {number} {}",
                    Named(Width::Bits64, dst),
                    Keyword::Wide
                )
            }
            Insn::LoadMap { dst, map } => {
                write!(f, "{} = {} {map}", Named(Width::Bits64, dst), Keyword::Map)
            }
        }
    }
}
