//! What can be explained.

ghost use Rattle.std.specs.Prelude.{◌≡◌};
ghost use Rattle.bpf_explain.specs.Term.{topic_of};

use crate::term::{Term, term_named};
use bpf_codes::{Code, code_named};

/// What has a page.
#[derive(Clone, Copy, PartialEq, Eq, Debug)]
pub enum Topic {
    Code(Code),
    Term(Term),
}

/// What this is a name of: a code, or else a term.
#[tactic(auto, unfolding(crate::specs::Term::topic_of))]
pub fn topic_named(name: &str) -> Option<Topic>
    ensures { result ≡ topic_of name.now }
{
    if let Some(code) = code_named(name) {
        return Some(Topic::Code(code));
    }
    let term = term_named(name)?;
    Some(Topic::Term(term))
}
