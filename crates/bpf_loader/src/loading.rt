//! From a list of instructions to a program.

ghost use Rattle.std.specs.Prelude.{◌≡◌, ◌≢◌, ◌≤◌, ◌<◌, [], IfOk, IfErr, OnOk, IfSome, IfNone, IsOkUnless};
ghost use Rattle.bpf_insn.specs.Refusal.{max_words};
ghost use Rattle.bpf_insn.specs.Table.{word_length};
ghost use Rattle.bpf_loader.specs.Sound.{IsSound, IsFirstRefusal};

use crate::checks::check;
use crate::loaded::Program;
use crate::named::Named;
use crate::refusal::LoadError;
use crate::slots::Slots;
use bpf_insn::instruction::Insn;
use std::alloc::Global;

const MAX_WORDS: usize = 65536;

/// How many words the instructions have; `None` where they are too many for a program.
fn word_count(insns: &[Insn]) -> Option<usize>
    ensures counted { IfSome result (λ n. n ≡ word_length insns.now) }
    ensures short { IfSome result (λ n. n ≤ max_words) }
    ensures long { IfNone result (max_words < word_length insns.now) }
{
    let mut words = 0;
    for insn in insns {
        words += insn.words() as usize;
        if words > MAX_WORDS {
            return None;
        }
    }
    Some(words)
}

/// The program of these instructions, which may name these maps and arrays.
pub fn load(alloc: Global, insns: Vec<Insn>, named: Named) -> Result<Program, LoadError>
    ensures instructions { IfOk result (λ p. p.instructions ≡ insns.items) }
    ensures named { IfOk result (λ p. p.named ≡ named) }
    ensures sound { OnOk result (IsSound named insns.items) }
    ensures refused { IfErr result
        (λ e. e ≢ LoadError.OutOfMemory → IsFirstRefusal named insns.items e) }
    ensures accepted { IsSound named insns.items
        → IsOkUnless result LoadError.OutOfMemory }
    // Memory is asked for where the list is neither empty nor too long.
    ensures memory { IfErr result (λ e. e ≡ LoadError.OutOfMemory
        → (insns.items ≢ []) × (word_length insns.items ≤ max_words)) }
{
    if insns.is_empty() {
        return Err(LoadError::Empty);
    }
    let Some(words) = word_count(&insns) else {
        return Err(LoadError::TooLong);
    };
    let slots = Slots::new(alloc, &insns, words).map_err(|_| LoadError::OutOfMemory)?;
    check(&slots, named)?;
    Ok(Program::new(slots, named))
}
