//! Atomic operations, as they are printed.

ghost use Rattle.std.specs.Prelude.{◌≡◌};
ghost use Rattle.bpf_spelling.specs.Form.{cell_size};

use crate::pieces::{Cell, Named, Offset};
use bpf_insn::{AtomicOp, Reg, Size, Width};
use bpf_spelling::{AtomicForm, Keyword, atomics};
use std::fmt;

/// An atomic operation.
#[derive(Drop)]
pub struct Atomic {
    pub width: Width,
    pub op: AtomicOp,
    pub base: Reg,
    pub offset: i16,
    pub src: Reg,
}

fn cell_size(width: Width) -> Keyword
    ensures { result ≡ cell_size width }
{
    match width {
        Width::Bits32 => Keyword::Unsigned(Size::Word),
        Width::Bits64 => Keyword::Unsigned(Size::Double),
    }
}

impl fmt::Display for Atomic {
    ghost use Rattle.std.specs.Prelude.{Some};
    ghost use Rattle.bpf_spelling.specs.Operators.{atomic_form};
    ghost use Rattle.bpf_spelling.specs.Form.{text_of, atomic_items};

    ghost output = { λ x. Some (text_of
        (atomic_items (atomic_form x.op) x.width x.base x.offset x.src)) };

    fn fmt<W: fmt::Write>(&self, f: &mut fmt::Formatter<W>) -> fmt::Result {
        let cell = Cell(cell_size(self.width), self.base, self.offset);
        let base = Named(Width::Bits64, self.base);
        let offset = Offset(self.offset);
        let src = Named(self.width, self.src);
        match atomics::atomic_form(self.op) {
            AtomicForm::Locked(sign) => {
                let src = Named(Width::Bits64, self.src);
                write!(f, "{} *{cell} {sign} {src}", Keyword::Lock)
            }
            AtomicForm::Fetch(name) => write!(f, "{src} = {name}({cell}, {src})"),
            AtomicForm::Exchange => {
                let name = Keyword::Exchange(self.width);
                write!(f, "{src} = {name}({base} {offset}, {src})")
            }
            AtomicForm::CompareExchange => {
                let name = Keyword::CompareExchange(self.width);
                let expected = Named(self.width, Reg::R0);
                write!(f, "{expected} = {name}({base} {offset}, {expected}, {src})")
            }
        }
    }
}
