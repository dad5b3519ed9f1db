//! What answers lines.

ghost use Rattle.std.specs.Prelude.{◌≡◌, ℕ, Bool, List};

use std::alloc::Global;

/// What lines are asked of, one after the other. It keeps the text of its last answer.
pub trait Respond {
    /// The line leads from the first value to the second with this text, and is refused or isn't.
    ghost answers: { Self → Self → (line text : List ℕ) → (refused : Bool) → Type 0 };

    /// The text of the last answer.
    ghost text: { Self → List ℕ };

    /// Answers a line; whether it is refused.
    fn answer(&mut self, alloc: Global, line: &[u8]) -> bool
        ensures { answers self.old self.new line.now (text self.new) result };

    /// The text of the last answer.
    fn told(&self) -> &str
        ensures { result.now ≡ text self.now };
}
