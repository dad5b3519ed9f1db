//! Where turns led in a patient search that has made all of them.

ghost use Rattle.std.specs.Prelude.{◌≡◌, ◌<◌, ◌/◌, ◌%◌, List, length, true};
ghost use Rattle.bpf_machine.specs.Machine.{MachineState};
ghost use Rattle.bpf_explore.specs.Private.Edges.{AreTurns, IsEdgeOf};

use bpf_equal::Peer;

/// The kept machine that a turn led to, with n turns after it that no store sees. From which
/// machine, and by which CPU, its place among the others says.
#[derive(Clone, Copy)]
pub(crate) struct Arrival {
    pub to: u32,
    pub ahead: u32,
}

/// A CPU's turn from a kept machine, with n turns of it after that no store sees, and the
/// kept machine that it led to.
#[derive(Clone, Copy)]
pub(crate) struct Edge {
    pub from: usize,
    pub to: u32,
    pub ahead: u32,
    pub cpu: u8,
}

/// The turns of n CPUs from each kept machine.
#[derive(Drop)]
pub(crate) struct Turns {
    pub cpus: u8,
    /// The jobs: equal ones may have changed places where a turn led.
    pub peers: Vec<Peer>,
    /// Those of the first machine, CPU by CPU, and then those of the next.
    pub arrivals: Vec<Arrival>,
}

/// Whether a CPU's turn from a kept machine is the next in this order, where n were made.
pub(crate) fn is_next(made: usize, cpus: u8, place: usize, cpu: u8) -> bool
    ensures place { result ≡ true → made / cpus ≡ place }
    ensures cpu { result ≡ true → made % cpus ≡ cpu }
{
    let width = usize::from(cpus);
    width > 0 && made / width == place && made % width == usize::from(cpu)
}

impl Turns {
    /// Where a CPU's turn from a kept machine led.
    pub fn edge(&self, place: usize, cpu: u8) -> Edge
        requires { (kept : List MachineState) × AreTurns kept self.now × (place < length kept)
            × (cpu < self.now.cpus) }
        ensures { (kept : List MachineState) → AreTurns kept self.now → place < length kept
            → IsEdgeOf self.now.peers.items kept place cpu result }
    {
        let Arrival { to, ahead } = self.arrivals[place * self.cpus as usize + cpu as usize];
        Edge {
            from: place,
            to,
            ahead,
            cpu,
        }
    }
}
