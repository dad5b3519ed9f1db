//! Programs as words and as text: `ebpf hex`, `asm` and `disasm`.

ghost use Rattle.std.specs.Prelude.{◌≡◌, ◌<◌, [], All, false, IfErr, IfOk, IsOkUnless, List, string_bytes, true};
ghost use Rattle.bpf_insn.specs.Encoding.{IsEncodedAs};
ghost use Rattle.bpf_insn.specs.declared.instruction.Insn.{Insn};
ghost use Rattle.bpf_loader.specs.Sound.{IsSound};
ghost use Rattle.bpf_plain.specs.PlainStore.{has_cpu, is_running, shape_of};
ghost use Rattle.bpf_replies.specs.Answer.{Replies};
ghost use Rattle.bpf_replies.specs.Programs.{IsAssembled, IsAssembledRun, IsDisassembled, IsRun, IsWordsOf, RefusesAssembly, RefusesProgram, RefusesWords, ShowsWords, no_names, bare_shape, shown_program};
ghost use Rattle.bpf_replies.specs.declared.reply.Reply.{Reply};

use crate::listing::word_lines;
use crate::refusal::Refusal;
use crate::reply::Reply;
use bpf_command::RunOptions;
use bpf_cpu::{Cpu, Input};
use bpf_disassembly::{disassemble, program_lines, source_lines};
use bpf_insn::{Insn, decode, encode};
use bpf_lines::from_hex;
use bpf_loader::{Named, Program, load};
use bpf_plain::PlainStore;
use bpf_shared::{ShapeError, StoreShape};
use bpf_text::{TextError, assemble};
use std::alloc::Global;

/// What programs may name where there is no map and no array.
const NONE: Named = Named { maps: 0, arrays: 0 };

/// The instructions whose words the text has as hex digits.
fn instructions(alloc: Global, text: &str) -> Result<Vec<Insn>, Refusal>
    ensures found { IfOk result (λ v. IsWordsOf text.now v.items) }
    ensures refused { IfErr result (RefusesWords text.now) }
{
    let bytes = from_hex(alloc, text)?;
    let insns = decode(alloc, &bytes)?;
    Ok(insns)
}

/// The program whose words the text has as hex digits, for a store of no maps.
fn program(alloc: Global, text: &str) -> Result<Program, Refusal>
    ensures found { IfOk result (λ p. IsWordsOf text.now p.instructions
        × IsSound no_names p.instructions × (p.named ≡ no_names)) }
    ensures refused { IfErr result (RefusesProgram text.now) }
{
    let insns = instructions(alloc, text)?;
    let program = load(alloc, insns, NONE)?;
    Ok(program)
}

/// A store of no maps for one CPU.
fn no_maps(alloc: Global) -> Result<PlainStore, ShapeError>
    ensures shape { IfOk result (λ s. shape_of s ≡ bare_shape) }
    ensures serves { IfOk result (λ s. has_cpu s 0 ≡ true) }
    ensures idle { IfOk result (λ s. is_running s 0 ≡ false) }
    ensures memory { IfErr result (λ e. e ≡ ShapeError.OutOfMemory) }
{
    let shape = StoreShape::new(1, Vec::new(alloc))?;
    let store = PlainStore::new(alloc, shape)?;
    Ok(store)
}

/// `ebpf hex`.
pub fn run(alloc: Global, options: RunOptions, text: &str) -> Result<Reply, Refusal>
    ensures { Replies (IsRun options.budget options.context.items text.now) result }
{
    let program = program(alloc, text)?;
    let Ok(mut store) = no_maps(alloc) else {
        return Err(Refusal::OutOfMemory);
    };
    let RunOptions { budget, context } = options;
    let mut cpu = Cpu::new(0, Input::of_bytes(alloc, context));
    Ok(Reply::Ended(cpu.run(&program, &mut store, budget)))
}

/// What `ebpf asm` prints of a text's words.
fn shown_words(alloc: Global, listing: bool, text: &str, bytes: &[u8]) -> Result<String, TextError>
    ensures shown { IfOk result (λ printed.
        ShowsWords listing text.now bytes.now (string_bytes printed)) }
    ensures memory { IsOkUnless result TextError.OutOfMemory }
    // Only what the type of the slice says: a caller's proof doesn't get it of a vector.
    ensures bytes { All (λ b. b < 256) bytes.now }
{
    if listing {
        source_lines(alloc, bytes, text)
    } else {
        word_lines(alloc, bytes).map_err(|_| TextError::OutOfMemory)
    }
}

/// What `ebpf asm` prints of a text, or why it prints nothing.
fn assembly(alloc: Global, listing: bool, text: &str) -> Result<String, Refusal>
    ensures shown { IfOk result (λ printed. IsAssembled listing text.now (Reply.Text printed)) }
    ensures refused { IfErr result (RefusesAssembly text.now) }
{
    let insns = assemble(alloc, text)?;
    let bytes = encode(alloc, &insns)?;
    let lines = shown_words(alloc, listing, text, &bytes)?;
    Ok(lines)
}

/// `ebpf asm`.
pub fn assembled(alloc: Global, listing: bool, text: &str) -> Result<Reply, Refusal>
    ensures { Replies (IsAssembled listing text.now) result }
{
    let lines = assembly(alloc, listing, text)?;
    Ok(Reply::Text(lines))
}

/// `ebpf asm --run`: what `ebpf hex` replies to the words that `ebpf asm` prints.
pub fn assembled_run(alloc: Global, options: RunOptions, text: &str) -> Result<Reply, Refusal>
    ensures { Replies (IsAssembledRun options.budget options.context.items text.now) result }
{
    let words = assembly(alloc, false, text)?;
    run(alloc, options, words.as_str())
}

/// What `ebpf disasm` prints of a program's words.
fn shown_program(
    alloc: Global,
    pc: bool,
    bytes: &[u8],
    program: &[Insn],
) -> Result<String, TextError>
    requires { IsEncodedAs program.now bytes.now }
    ensures shown { IfOk result (λ printed.
        string_bytes printed ≡ shown_program pc bytes.now program.now) }
    ensures memory { IsOkUnless result TextError.OutOfMemory }
{
    if pc {
        program_lines(alloc, bytes, program)
    } else {
        disassemble(alloc, program)
    }
}

/// The text of the words that the text has as hex digits.
fn disassembly(alloc: Global, pc: bool, text: &str) -> Result<String, Refusal>
    ensures shown { IfOk result (λ printed. (is : List Insn) × (found : IsWordsOf text.now is)
        × (string_bytes printed ≡ shown_program pc found.0 is)) }
    ensures refused { IfErr result (RefusesWords text.now) }
{
    let bytes = from_hex(alloc, text)?;
    let program = decode(alloc, &bytes)?;
    let shown = shown_program(alloc, pc, &bytes, &program)?;
    Ok(shown)
}

/// `ebpf disasm`.
pub fn disassembled(alloc: Global, pc: bool, text: &str) -> Result<Reply, Refusal>
    ensures { Replies (IsDisassembled pc text.now) result }
{
    let text = disassembly(alloc, pc, text)?;
    Ok(Reply::Text(text))
}
