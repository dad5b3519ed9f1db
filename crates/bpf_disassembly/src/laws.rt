//! What follows from the definition of assembly text, as promises to the crates above.
//!
//! These functions do nothing: their contracts are the laws, which a proof cites.
ghost use Rattle.bpf_disassembly.specs.Laws.{WordsAreShownAgain};

/// What a text is assembled to, encoded, is words of the list that they are disassembled to, and
/// that list's text is assembled to the same again.
pub fn words_are_shown_again()
    ensures { WordsAreShownAgain }
{
    bpf_insn::laws::words_are_determined();
}
