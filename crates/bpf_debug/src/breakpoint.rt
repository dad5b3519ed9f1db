//! Breakpoints: where a `go` stops a CPU.

ghost use Rattle.std.specs.Prelude.{◌≡◌};
ghost use Rattle.bpf_debug.specs.Go.{has_break, without_break};

/// A pc of a CPU.
#[derive(Clone, Copy, PartialEq, Eq, Debug)]
pub struct Breakpoint {
    pub cpu: u8,
    pub pc: u32,
}

/// Whether a pc of a CPU is one of these.
pub fn has_break(breakpoints: &[Breakpoint], cpu: u8, pc: u32) -> bool
    ensures { result ≡ has_break breakpoints.now cpu pc }
{
    breakpoints.iter().any(|at| at.cpu == cpu && at.pc == pc)
}

/// Takes a pc of a CPU out of these, if it is one.
pub fn remove_break(breakpoints: &mut Vec<Breakpoint>, cpu: u8, pc: u32)
    ensures { breakpoints.new.items ≡ without_break breakpoints.old.items cpu pc }
{
    breakpoints.retain(|at| !(at.cpu == cpu && at.pc == pc));
}
