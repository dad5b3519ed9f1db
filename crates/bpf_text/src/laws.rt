//! What follows from the definition of assembly text, as promises to the crates above.
//!
//! These functions do nothing: their contracts are the laws, which a proof cites.
ghost use Rattle.bpf_text.specs.Laws.{CommentsSayNothing, NamedTextsAreDetermined, TextsAreDetermined};

/// A text stands for one list of instructions alone, or is refused for one reason alone, and
/// never both.
pub fn texts_are_determined()
    ensures { TextsAreDetermined }
{}

/// A text and a table of names have one program or one refusal.
pub fn named_texts_are_determined()
    ensures { NamedTextsAreDetermined }
{}

/// What has no tokens, as blanks and a comment, may follow a line: it stays what it is.
pub fn comments_say_nothing()
    ensures { CommentsSayNothing }
{}
