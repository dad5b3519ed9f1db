//! Helpers by name.

ghost use Rattle.std.specs.Prelude.{◌≡◌};
ghost use Rattle.bpf_spelling.specs.Helpers.{helper_named, helper_number, helper_text, is_called, short_text};

/// A helper that has a name in assembly text.
#[derive(Clone, Copy)]
pub enum Helper {
    Lookup,
    Update,
    Delete,
    ProcessorId,
    Time,
    Trace,
    Random,
    Process,
    User,
    Lock,
    Unlock,
    BootTime,
}

/// All of them.
pub const HELPERS: [Helper; 12] = [
    Helper::Lookup,
    Helper::Update,
    Helper::Delete,
    Helper::ProcessorId,
    Helper::Time,
    Helper::Trace,
    Helper::Random,
    Helper::Process,
    Helper::User,
    Helper::Lock,
    Helper::Unlock,
    Helper::BootTime,
];

impl Helper {
    /// The number that a call has of it.
    pub fn number(self) -> u32
        ensures { result ≡ helper_number self }
    {
        match self {
            Helper::Lookup => 1,
            Helper::Update => 2,
            Helper::Delete => 3,
            Helper::ProcessorId => 8,
            Helper::Time => 5,
            Helper::Trace => 6,
            Helper::Random => 7,
            Helper::Process => 14,
            Helper::User => 15,
            Helper::Lock => 93,
            Helper::Unlock => 94,
            Helper::BootTime => 125,
        }
    }

    /// Its name in bpf-helpers(7).
    fn text(self) -> &'static str
        ensures { result.now ≡ helper_text self }
    {
        match self {
            Helper::Lookup => "bpf_map_lookup_elem",
            Helper::Update => "bpf_map_update_elem",
            Helper::Delete => "bpf_map_delete_elem",
            Helper::ProcessorId => "bpf_get_smp_processor_id",
            Helper::Time => "bpf_ktime_get_ns",
            Helper::Trace => "bpf_trace_printk",
            Helper::Random => "bpf_get_prandom_u32",
            Helper::Process => "bpf_get_current_pid_tgid",
            Helper::User => "bpf_get_current_uid_gid",
            Helper::Lock => "bpf_spin_lock",
            Helper::Unlock => "bpf_spin_unlock",
            Helper::BootTime => "bpf_ktime_get_boot_ns",
        }
    }

    /// A shorter name.
    fn short_text(self) -> &'static str
        ensures { result.now ≡ short_text self }
    {
        match self {
            Helper::Lookup => "lookup",
            Helper::Update => "update",
            Helper::Delete => "delete",
            Helper::ProcessorId => "cpu",
            Helper::Time => "ktime_get_ns",
            Helper::Trace => "trace_printk",
            Helper::Random => "get_prandom_u32",
            Helper::Process => "get_current_pid_tgid",
            Helper::User => "get_current_uid_gid",
            Helper::Lock => "spin_lock",
            Helper::Unlock => "spin_unlock",
            Helper::BootTime => "ktime_get_boot_ns",
        }
    }

    fn is_called(self, name: &[u8]) -> bool
        ensures { result ≡ is_called self name.now }
    {
        self.text().as_bytes() == name || self.short_text().as_bytes() == name
    }
}

/// The helper of this name.
#[tactic(auto, unfolding(crate::specs::Helpers::helper_named))]
pub fn helper_named(name: &[u8]) -> Option<Helper>
    ensures { result ≡ helper_named name.now }
{
    HELPERS
        .iter()
        .copied()
        .find(|helper| helper.is_called(name))
}
