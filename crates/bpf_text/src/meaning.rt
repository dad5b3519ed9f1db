//! What a line means.

ghost use Rattle.std.specs.Prelude.{◌≡◌, ◌+◌, ◌<◌, ◌^◌, Ok};
ghost use Rattle.bpf_spelling.specs.Helpers.{helper_named};
ghost use Rattle.bpf_text.specs.Assembly.{at_label, helper_call, or_unknown, unless_twice, meaning_of};
ghost use Rattle.bpf_text.specs.Private.Labels.{found};
ghost use Rattle.bpf_text.specs.Private.Sources.{source_of};

use crate::error::TextError;
use crate::labels::{self, Labels, Place};
use crate::reading::LineError;
use crate::source::{Body, SourceLine};
use crate::targets;
use bpf_insn::Insn;
use bpf_spelling::helper_named;

fn unless_twice(twice: bool, line: usize, insn: Option<Insn>) -> Result<Option<Insn>, TextError>
    requires { line < 2 ^ 63 }
    ensures { result ≡ unless_twice twice line (Ok insn) }
{
    if twice {
        Err(TextError::TwiceLabel(line + 1))
    } else {
        Ok(insn)
    }
}

/// The call of a helper that a call of a function of this name stands for.
fn helper_call(insn: Insn, name: &[u8]) -> Option<Insn>
    ensures { result ≡ helper_call insn (helper_named name.now) }
{
    match insn {
        Insn::CallLocal { .. } => {
            let helper = helper_named(name)?;
            Some(Insn::CallHelper {
                number: helper.number(),
            })
        }
        _ => None,
    }
}

/// What a name means that is no label: the call of a helper, or nothing.
fn or_unknown(twice: bool, line: usize, insn: Option<Insn>) -> Result<Option<Insn>, TextError>
    requires { line < 2 ^ 63 }
    ensures { result ≡ or_unknown twice line insn }
{
    match insn {
        Some(insn) => unless_twice(twice, line, Some(insn)),
        None => Err(TextError::UnknownLabel(line + 1)),
    }
}

/// An instruction whose target is a label.
fn at_label(
    twice: bool,
    line: usize,
    pc: usize,
    insn: Insn,
    to: Place,
) -> Result<Option<Insn>, TextError>
    requires short { line < 2 ^ 63 }
    requires room { pc + 2 < 2 ^ 64 }
    ensures { result ≡ at_label twice line pc insn to }
{
    if twice {
        return Err(TextError::TwiceLabel(line + 1));
    }
    let next = pc + insn.words() as usize;
    match targets::targeted(insn, next, to.pc) {
        Some(insn) => Ok(Some(insn)),
        None => Err(TextError::FarLabel(line + 1)),
    }
}

/// What a line means, or the first refusal that applies.
#[tactic(auto, unfolding(crate::specs::Assembly::meaning_of))]
pub fn meaning(
    labels: &Labels<'_>,
    line: usize,
    pc: usize,
    source: &SourceLine<'_>,
) -> Result<Option<Insn>, TextError>
    requires short { line < 2 ^ 63 }
    requires room { pc + 2 < 2 ^ 64 }
    ensures { result ≡ meaning_of (found labels.now) line pc (source_of source.now) }
{
    let twice = labels::is_twice(labels, line, source.label);
    match &source.body {
        Body::Refused(LineError::BadLine) => Err(TextError::BadLine(line + 1)),
        Body::Refused(LineError::BadNumber) => Err(TextError::BadNumber(line + 1)),
        Body::Refused(LineError::UnknownName) => Err(TextError::UnknownLabel(line + 1)),
        Body::Empty => unless_twice(twice, line, None),
        Body::Code(insn) => unless_twice(twice, line, Some(*insn)),
        Body::Named(insn, name) => match labels::place_of(labels, name) {
            Some(to) => at_label(twice, line, pc, *insn, to),
            None => or_unknown(twice, line, helper_call(*insn, name)),
        },
    }
}
