//! A pass over a program from its end, again and again, until no set grows; and a test of what it
//! found.

ghost use Rattle.std.specs.Prelude.{◌≡◌, true, false, ℕ, ℤ, List, IfOk};
ghost use Rattle.bpf_insn.specs.declared.instruction.Insn.TheVariants.{CallLocal};
ghost use Rattle.bpf_insn.specs.declared.instruction.Insn.{Insn};
ghost use Rattle.bpf_loader.specs.Places.{Begins};
ghost use Rattle.bpf_live.specs.Live.{HasCalls, IsLive, IsLiveTable};
ghost use Rattle.bpf_live.specs.Private.Needs.{HasNeeded};

use crate::live::Live;
use crate::needs::{Set, is_live, needs};
use bpf_insn::Insn;
use bpf_loader::Program;
use std::alloc::{AllocError, Global};

/// Passes before the search for sets gives up. A pass does all of a program without loops.
const PASSES: u32 = 1000;

/// No program has more words.
const WORDS: usize = 65536;

/// Whether an instruction calls a function of the program.
fn is_call(insn: &Insn) -> bool
    ensures { result ≡ false → (offset : ℤ) → insn.now ≡ CallLocal offset → ⊥ }
{
    matches!(insn, Insn::CallLocal { .. })
}

/// Whether one does that begins at this pc.
fn calls_at(program: &Program, pc: usize) -> bool
    ensures { result ≡ false → (offset : ℤ)
        → Begins program.now.instructions pc (CallLocal offset) → ⊥ }
{
    bpf_loader::laws::one_instruction_begins();
    if pc >= WORDS {
        return true;
    }
    let word = pc as u32;
    if !program.is_start(word) {
        return false;
    }
    is_call(program.instruction_at(word))
}

/// Whether some instruction of the program calls a function of it.
fn has_calls(program: &Program) -> bool
    ensures { result ≡ false → HasCalls program.now.instructions → ⊥ }
{
    let words = program.ops().len();
    for pc in 0..words {
        if calls_at(program, pc) {
            return true;
        }
    }
    false
}

/// Adds what an instruction needs. Whether that is more than was there.
fn grow_at(sets: &mut [Set], calls: bool, pc: u32, insn: &Insn) -> bool {
    let mut has_grown = false;
    for register in 0u8..10 {
        if !is_live(sets, pc as usize, register) && needs(sets, calls, pc, insn, register) {
            let Some(set) = sets.get_mut(pc as usize) else {
                return false;
            };
            set[register as usize] = true;
            has_grown = true;
        }
    }
    has_grown
}

/// Adds what each instruction needs, from the last to the first. Whether that is more than was there.
fn grow(program: &Program, sets: &mut [Set], calls: bool) -> bool {
    let mut has_grown = false;
    for pc in (0..program.ops().len()).rev() {
        let Ok(pc) = u32::try_from(pc) else {
            return false;
        };
        if program.is_start(pc) && grow_at(sets, calls, pc, program.instruction_at(pc)) {
            has_grown = true;
        }
    }
    has_grown
}

/// Whether the sets have what an instruction needs.
fn has_needed(sets: &[Set], calls: bool, pc: u32, insn: &Insn) -> bool
    ensures { result ≡ true → HasNeeded sets.now calls pc insn.now }
{
    for register in 0u8..10 {
        if needs(sets, calls, pc, insn, register) && !is_live(sets, pc as usize, register) {
            return false;
        }
    }
    true
}

/// Whether they have what the instruction needs that begins at this pc.
fn is_right_at(program: &Program, sets: &[Set], calls: bool, pc: usize) -> bool
    ensures { result ≡ true → (i : Insn) → Begins program.now.instructions pc i
        → HasNeeded sets.now calls pc i }
{
    bpf_loader::laws::one_instruction_begins();
    if pc >= WORDS {
        return false;
    }
    let word = pc as u32;
    if !program.is_start(word) {
        return true;
    }
    has_needed(sets, calls, word, program.instruction_at(word))
}

/// Whether they have what each instruction needs.
fn is_right(program: &Program, sets: &[Set]) -> bool
    ensures { result ≡ true → IsLiveTable program.now.instructions sets.now }
{
    let calls = has_calls(program);
    let words = program.ops().len();
    for pc in 0..words {
        if !is_right_at(program, sets, calls, pc) {
            return false;
        }
    }
    true
}

/// These sets if they are right, else none.
fn checked(program: &Program, sets: Vec<Set>) -> Live
    ensures { IsLiveTable program.now.instructions result }
{
    let mut sets = sets;
    if !is_right(program, &sets) {
        sets.clear();
    }
    Live::new(sets)
}

/// The table by which all registers are live, which is right for each program.
pub fn all_live(alloc: Global) -> Live
    ensures all { (pc r : ℕ) → IsLive result pc r }
    ensures right { (program : List Insn) → IsLiveTable program result }
{
    Live::new(Vec::new(alloc))
}

/// The registers that a program may read before it writes them.
pub fn find_live(alloc: Global, program: &Program) -> Result<Live, AllocError>
    ensures { IfOk result (λ l. IsLiveTable program.now.instructions l) }
{
    let calls = has_calls(program);
    let mut sets: Vec<Set> = Vec::new(alloc);
    for _ in 0..program.ops().len() {
        sets.push([false; 10])?;
    }
    for _ in 0..PASSES {
        if !grow(program, &mut sets, calls) {
            break;
        }
    }
    let live = checked(program, sets);
    Ok(live)
}
