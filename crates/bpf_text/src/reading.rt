//! One line's tokens read as an instruction.

ghost use Rattle.std.specs.Prelude.{map};
ghost use Rattle.bpf_text.specs.Private.Look.{look};
ghost use Rattle.bpf_text.specs.Private.Lines.{plain, ends, statement_at, line_at};
ghost use Rattle.bpf_text.specs.Private.Judging.{Judged};

mod address;
pub(crate) mod arithmetic;
mod assignment;
mod atomic;
pub(crate) mod begun;
mod jump;
mod memory;
pub(crate) mod named;
mod operand;
mod operator;
mod target;

use crate::token::Token;
use bpf_insn::Insn;
use bpf_spelling::{Keyword, Sign};

/// Why a line is refused.
#[derive(Clone, Copy)]
pub enum LineError {
    /// It has none of the forms.
    BadLine,
    /// It has one of them, with a number out of its range.
    BadNumber,
    /// It loads something by a name that nothing has.
    UnknownName,
}

/// An instruction, and the label that its target names, if it does; its own offset is then 0.
#[derive(Clone, Copy)]
pub struct Draft<'a> {
    pub insn: Insn,
    pub target: Option<&'a [u8]>,
}

/// An instruction whose target no label names.
pub(crate) fn plain<'a>(insn: Insn) -> Result<Draft<'a>, LineError>
    ensures { Judged result (plain insn) }
{
    Ok(Draft { insn, target: None })
}

/// The instruction, where the line ends.
pub(crate) fn ends<'a>(insn: Insn, tokens: &[Token<'a>]) -> Result<Draft<'a>, LineError>
    ensures { Judged result (ends insn (map look tokens.now)) }
{
    match tokens {
        [] => plain(insn),
        _ => Err(LineError::BadLine),
    }
}

/// After a line's first word.
#[tactic(auto, unfolding(crate::specs::Private::Lines::statement_at))]
fn statement<'a>(keyword: Keyword, tokens: &[Token<'a>]) -> Result<Draft<'a>, LineError>
    ensures { Judged result (statement_at keyword (map look tokens.now)) }
{
    match keyword {
        Keyword::Lock => atomic::lock(tokens),
        Keyword::If => jump::branch(tokens),
        Keyword::Goto => jump::jump(tokens),
        Keyword::GotoLong => jump::jump_long(tokens),
        Keyword::Call => jump::call(tokens),
        Keyword::Exit => ends(Insn::Exit, tokens),
        _ => Err(LineError::BadLine),
    }
}

/// The instruction that a line's tokens are, its label taken off.
#[tactic(auto, unfolding(crate::specs::Private::Lines::line_at))]
pub fn instruction<'a>(tokens: &[Token<'a>]) -> Result<Draft<'a>, LineError>
    ensures { Judged result (line_at (map look tokens.now)) }
{
    match tokens {
        [Token::Register(width, dst), rest @ ..] => assignment::register(*width, *dst, rest),
        [Token::Mark(Sign::Star), rest @ ..] => memory::store(rest),
        [Token::Word(keyword), rest @ ..] => statement(*keyword, rest),
        _ => Err(LineError::BadLine),
    }
}
