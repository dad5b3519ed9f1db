//! The checks of a program, word by word, at one word in the order of the refusals' numbers.

ghost use Rattle.std.specs.Prelude.{◌≡◌, ◌≢◌, ◌≤◌, ◌<◌, ◌⊎◌, pos, ◌<ℤ◌, ◌≤ℤ◌, [], OnOk, IfErr, IfSome, IfNone};
ghost use Rattle.bpf_insn.specs.Refusal.{max_words};
ghost use Rattle.bpf_insn.specs.Table.{word_length};
ghost use Rattle.bpf_loader.specs.Places.{Begins, target};
ghost use Rattle.bpf_loader.specs.Sound.{IsSound, IsFirstRefusal};
ghost use Rattle.bpf_loader.specs.Private.Checks.{IsClearAt, IsClearBelow, IsLeastAt};

use crate::named::Named;
use crate::refusal::LoadError;
use crate::rows::{destination, goes_on, helper_of, is_helper, jump_offset, map_of};
use crate::slots::Slots;
use bpf_insn::instruction::Insn;
use bpf_insn::register::Reg;

/// Refuses a write of R10.
fn check_write(slots: &Slots, named: Named, pc: u32, insn: Insn) -> Result<(), LoadError>
    requires begins { Begins slots.now pc insn }
    requires clear { IsClearBelow named slots.now pc 8 }
    ensures ok { OnOk result (IsClearBelow named slots.now pc 9) }
    ensures err { IfErr result (IsLeastAt named slots.now pc) }
{
    if destination(insn) == Some(Reg::R10) {
        return Err(LoadError::WritesR10(pc));
    }
    Ok(())
}

/// Where a jump leads; `None` where that is outside a program of this many words.
fn target_within(pc: u32, offset: i32, words: usize) -> Option<usize>
    requires { words ≤ max_words }
    ensures target { IfSome result (λ to. pos to ≡ target pc offset) }
    ensures inside { IfSome result (λ to. to < words) }
    ensures outside { IfNone result
        ((target pc offset <ℤ pos 0) ⊎ (pos words ≤ℤ target pc offset)) }
{
    let to = i64::from(pc) + 1 + i64::from(offset);
    if 0 <= to && to < words as i64 {
        Some(to as usize)
    } else {
        None
    }
}

/// Refuses a jump or a local call that leads to no instruction.
fn check_target(slots: &Slots, named: Named, pc: u32, insn: Insn) -> Result<(), LoadError>
    requires begins { Begins slots.now pc insn }
    requires short { word_length slots.now ≤ max_words }
    requires clear { IsClearBelow named slots.now pc 9 }
    ensures ok { OnOk result (IsClearBelow named slots.now pc 11) }
    ensures err { IfErr result (IsLeastAt named slots.now pc) }
{
    let Some(offset) = jump_offset(insn) else {
        return Ok(());
    };
    let Some(to) = target_within(pc, offset, slots.len()) else {
        return Err(LoadError::JumpOut(pc));
    };
    match slots.get(to) {
        Some(_) => Ok(()),
        None => Err(LoadError::JumpIntoWide(pc)),
    }
}

/// Refuses a last instruction after which a run would go on.
fn check_end(slots: &Slots, named: Named, pc: u32, insn: Insn) -> Result<(), LoadError>
    requires begins { Begins slots.now pc insn }
    requires short { word_length slots.now ≤ max_words }
    requires clear { IsClearBelow named slots.now pc 11 }
    ensures ok { OnOk result (IsClearBelow named slots.now pc 12) }
    ensures err { IfErr result (IsLeastAt named slots.now pc) }
{
    if goes_on(insn) && pc as usize + insn.words() as usize == slots.len() {
        return Err(LoadError::FallsOff(pc));
    }
    Ok(())
}

/// Refuses a helper that there isn't.
fn check_helper(slots: &Slots, named: Named, pc: u32, insn: Insn) -> Result<(), LoadError>
    requires begins { Begins slots.now pc insn }
    requires clear { IsClearBelow named slots.now pc 12 }
    ensures ok { OnOk result (IsClearBelow named slots.now pc 13) }
    ensures err { IfErr result (IsLeastAt named slots.now pc) }
{
    if let Some(number) = helper_of(insn) {
        if !is_helper(number) {
            return Err(LoadError::UnknownHelper(pc));
        }
    }
    Ok(())
}

/// Refuses a map or an array that there isn't.
fn check_map(slots: &Slots, named: Named, pc: u32, insn: Insn) -> Result<(), LoadError>
    requires begins { Begins slots.now pc insn }
    requires clear { IsClearBelow named slots.now pc 13 }
    ensures ok { OnOk result (IsClearBelow named slots.now pc 14) }
    ensures err { IfErr result (IsLeastAt named slots.now pc) }
{
    if let Some(map) = map_of(insn) {
        if !named.has(map as usize) {
            return Err(LoadError::UnknownMap(pc));
        }
    }
    Ok(())
}

/// Refuses the instruction at a pc by the lowest number that applies.
fn check_insn(slots: &Slots, named: Named, pc: u32, insn: Insn) -> Result<(), LoadError>
    requires begins { Begins slots.now pc insn }
    requires short { word_length slots.now ≤ max_words }
    ensures ok { OnOk result (IsClearBelow named slots.now pc 14) }
    ensures err { IfErr result (IsLeastAt named slots.now pc) }
{
    check_write(slots, named, pc, insn)?;
    check_target(slots, named, pc, insn)?;
    check_end(slots, named, pc, insn)?;
    check_helper(slots, named, pc, insn)?;
    check_map(slots, named, pc, insn)
}

/// Refuses the word at a pc by the lowest number that applies, if an instruction begins there.
fn check_word(slots: &Slots, named: Named, pc: usize) -> Result<(), LoadError>
    requires inside { pc < word_length slots.now }
    requires short { word_length slots.now ≤ max_words }
    ensures ok { OnOk result (IsClearAt named slots.now pc) }
    ensures err { IfErr result (IsLeastAt named slots.now pc) }
{
    match slots.get(pc) {
        Some(insn) => check_insn(slots, named, pc as u32, insn),
        None => Ok(()),
    }
}

/// Whether the program is sound where these maps and arrays may be named; else the first refusal that
/// applies.
pub fn check(slots: &Slots, named: Named) -> Result<(), LoadError>
    requires some { slots.now ≢ [] }
    requires short { word_length slots.now ≤ max_words }
    ensures sound { OnOk result (IsSound named slots.now) }
    ensures first { IfErr result (IsFirstRefusal named slots.now) }
{
    for pc in 0..slots.len() {
        check_word(slots, named, pc)?;
    }
    Ok(())
}
