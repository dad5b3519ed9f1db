//! What follows from the definition of run files, as promises to the crates above.
//!
//! The functions do nothing: their contracts are the laws, which proofs cite.
ghost use Rattle.bpf_file.specs.Laws.{FilesAreDetermined, FilesCanRun};

/// A text says one file alone, or is refused for one reason alone, and never both.
pub fn files_are_determined()
    ensures { FilesAreDetermined }
{
    bpf_insn::laws::words_are_determined();
    bpf_insn::laws::refusals_are_determined();
    bpf_loader::laws::first_is_determined();
    bpf_text::laws::named_texts_are_determined();
}

/// A machine can be made of every file that a text says: its jobs wait with short inputs, each on
/// a CPU and with a program of the file, and each program was loaded for the file's maps and
/// arrays.
pub fn files_can_run()
    ensures { FilesCanRun }
{}
