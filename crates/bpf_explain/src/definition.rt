//! The page of a name that isn't a code.

ghost use Rattle.std.specs.Prelude.{◌≡◌};

use crate::pages::terms;
use crate::term::Term;
use std::fmt;

/// What there is to say of an error, a flag, a helper or a word of run files.
#[derive(Clone, Copy, PartialEq, Eq, Debug)]
pub struct Definition {
    pub term: Term,
    /// What it is, a sentence without its full stop.
    pub meaning: &'static str,
    /// When it comes, and what to do.
    pub advice: &'static str,
}

impl fmt::Display for Definition {
    ghost use Rattle.std.specs.Prelude.{Some};
    ghost use Rattle.bpf_explain.specs.Page.{definition_text};

    ghost output = { λ x. Some (definition_text x) };

    fn fmt<W: fmt::Write>(&self, f: &mut fmt::Formatter<W>) -> fmt::Result {
        write!(f, "{}: {}.\n\n", self.term.text(), self.meaning)?;
        write!(f, "{}\n", self.advice)
    }
}

/// The definition of a term.
pub fn definition_of(term: Term) -> Definition
    ensures { result.term ≡ term }
{
    let definition = match term {
        Term::Enoent => &terms::ENOENT,
        Term::TooBig => &terms::E2BIG,
        Term::Enomem => &terms::ENOMEM,
        Term::Ebusy => &terms::EBUSY,
        Term::Eexist => &terms::EEXIST,
        Term::Einval => &terms::EINVAL,
        Term::Eperm => &terms::EPERM,
        Term::Any => &terms::ANY,
        Term::NoExist => &terms::NO_EXIST,
        Term::Exist => &terms::EXIST,
        Term::Lookup => &terms::LOOKUP,
        Term::Update => &terms::UPDATE,
        Term::Delete => &terms::DELETE,
        Term::ProcessorId => &terms::PROCESSOR_ID,
        Term::Time => &terms::TIME,
        Term::Trace => &terms::TRACE,
        Term::Random => &terms::RANDOM,
        Term::Process => &terms::PROCESS,
        Term::User => &terms::USER,
        Term::Lock => &terms::LOCK,
        Term::Unlock => &terms::UNLOCK,
        Term::BootTime => &terms::BOOT_TIME,
        Term::Spare => &terms::SPARE,
        Term::Packet => &terms::PACKET,
        Term::Xdp => &terms::XDP,
        Term::Tc => &terms::TC,
    };
    *definition
}
