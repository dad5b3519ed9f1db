//! Names of errors, flags and helpers, and of what run files say.

ghost use Rattle.std.specs.Prelude.{◌≡◌};
ghost use Rattle.bpf_explain.specs.Term.{is_called, short_text, term_of, term_text};

/// A name that isn't a code, and has a page.
#[derive(Clone, Copy, PartialEq, Eq, Debug)]
pub enum Term {
    Enoent,
    TooBig,
    Enomem,
    Ebusy,
    Eexist,
    Einval,
    Eperm,
    Any,
    NoExist,
    Exist,
    Lookup,
    Update,
    Delete,
    ProcessorId,
    Time,
    Trace,
    Random,
    Process,
    User,
    Lock,
    Unlock,
    BootTime,
    Spare,
    Packet,
    Xdp,
    Tc,
}

/// All of them.
pub const TERMS: [Term; 26] = [
    Term::Enoent,
    Term::TooBig,
    Term::Enomem,
    Term::Ebusy,
    Term::Eexist,
    Term::Einval,
    Term::Eperm,
    Term::Any,
    Term::NoExist,
    Term::Exist,
    Term::Lookup,
    Term::Update,
    Term::Delete,
    Term::ProcessorId,
    Term::Time,
    Term::Trace,
    Term::Random,
    Term::Process,
    Term::User,
    Term::Lock,
    Term::Unlock,
    Term::BootTime,
    Term::Spare,
    Term::Packet,
    Term::Xdp,
    Term::Tc,
];

impl Term {
    /// As it is printed, or as Linux has it.
    pub fn text(self) -> &'static str
        ensures { result.now ≡ term_text self }
    {
        match self {
            Term::Enoent => "ENOENT",
            Term::TooBig => "E2BIG",
            Term::Enomem => "ENOMEM",
            Term::Ebusy => "EBUSY",
            Term::Eexist => "EEXIST",
            Term::Einval => "EINVAL",
            Term::Eperm => "EPERM",
            Term::Any => "BPF_ANY",
            Term::NoExist => "BPF_NOEXIST",
            Term::Exist => "BPF_EXIST",
            Term::Lookup => "bpf_map_lookup_elem",
            Term::Update => "bpf_map_update_elem",
            Term::Delete => "bpf_map_delete_elem",
            Term::ProcessorId => "bpf_get_smp_processor_id",
            Term::Time => "bpf_ktime_get_ns",
            Term::Trace => "bpf_trace_printk",
            Term::Random => "bpf_get_prandom_u32",
            Term::Process => "bpf_get_current_pid_tgid",
            Term::User => "bpf_get_current_uid_gid",
            Term::Lock => "bpf_spin_lock",
            Term::Unlock => "bpf_spin_unlock",
            Term::BootTime => "bpf_ktime_get_boot_ns",
            Term::Spare => "spare",
            Term::Packet => "packet",
            Term::Xdp => "xdp",
            Term::Tc => "tc",
        }
    }

    /// The name that a helper has in assembly; of others the same.
    fn short_text(self) -> &'static str
        ensures { result.now ≡ short_text self }
    {
        match self {
            Term::Lookup => "lookup",
            Term::Update => "update",
            Term::Delete => "delete",
            Term::ProcessorId => "cpu",
            Term::Time => "ktime_get_ns",
            Term::Trace => "trace_printk",
            Term::Random => "get_prandom_u32",
            Term::Process => "get_current_pid_tgid",
            Term::User => "get_current_uid_gid",
            Term::Lock => "spin_lock",
            Term::Unlock => "spin_unlock",
            Term::BootTime => "ktime_get_boot_ns",
            other => other.text(),
        }
    }

    fn is_called(self, name: &str) -> bool
        ensures { result ≡ is_called self name.now }
    {
        self.text() == name || self.short_text() == name
    }
}

/// What this is a name of.
#[tactic(auto, unfolding(crate::specs::Term::term_of))]
pub fn term_named(name: &str) -> Option<Term>
    ensures { result ≡ term_of name.now }
{
    TERMS.iter().copied().find(|term| term.is_called(name))
}
