//! Who looks for the data races of a run file, where its comments ask of them.

ghost use Rattle.std.specs.Prelude.{ℕ, Bool, List, IfErr, IfOk};
ghost use Rattle.bpf_check.specs.Findings.{Raced};
ghost use Rattle.bpf_replies.specs.Running.{RefusesFile};

use crate::refusal::Refusal;
use bpf_check::Raced;
use bpf_command::SearchOptions;
use bpf_explore::{Crew, Observer};
use std::alloc::Global;

/// Finds the data races of run files.
pub trait Racer {
    /// These are of the jobs that a text says, by a search that is patient or not, and by this limit.
    ghost finds: { (patient : Bool) → (limit : ℕ) → (text : List ℕ) → Raced → Type 0 };

    /// The races of the jobs that a text says.
    fn races<C: Crew, O: Observer>(
        alloc: Global,
        options: &SearchOptions,
        text: &str,
        crew: &C,
        observer: &mut O,
    ) -> Result<Raced, Refusal>
        requires crew { C.can }
        ensures found { IfOk result (finds options.now.patient options.now.limit text.now) }
        ensures refused { IfErr result (RefusesFile text.now) };
}
