//! Stages of jobs in little memory.

ghost use Rattle.std.specs.Prelude.{◌≡◌, true, IfOk};
ghost use Rattle.bpf_machine.specs.Kept.{compact_stage, kept_stage};

use super::KeptStage;
use bpf_cpu::{Input, KeptCpu, Outcome};
use std::alloc::{AllocError, Global};

/// How far a kept job is, without room for what its CPU may come to have.
#[derive(Drop)]
pub(crate) enum CompactStage {
    /// It waits, with what it is given.
    Waiting(Input),
    /// It is in its CPU's hand, with this many steps left.
    InHand(KeptCpu, u64),
    Ended(Outcome),
}

/// A stage, made compact.
pub(crate) fn make_compact(alloc: Global, stage: &KeptStage) -> Result<CompactStage, AllocError>
    ensures { IfOk result (λ s. compact_stage s ≡ kept_stage stage.now) }
{
    match stage {
        KeptStage::Waiting(input) => Ok(CompactStage::Waiting(input.copy(alloc)?)),
        KeptStage::InHand(cpu, left) => Ok(CompactStage::InHand(KeptCpu::of(alloc, cpu)?, *left)),
        KeptStage::Ended(outcome) => Ok(CompactStage::Ended(*outcome)),
    }
}

impl CompactStage {
    ghost use Rattle.std.specs.Prelude.{◌≡◌, true, IfOk};
    ghost use Rattle.bpf_machine.specs.Kept.{compact_stage, kept_stage};

    /// The stage with all that a CPU goes on from.
    pub(crate) fn widen(&self, alloc: Global) -> Result<KeptStage, AllocError>
        ensures { IfOk result (λ s. kept_stage s ≡ compact_stage self.now) }
    {
        match self {
            CompactStage::Waiting(input) => Ok(KeptStage::Waiting(input.copy(alloc)?)),
            CompactStage::InHand(cpu, left) => Ok(KeptStage::InHand(cpu.to_cpu(alloc)?, *left)),
            CompactStage::Ended(outcome) => Ok(KeptStage::Ended(*outcome)),
        }
    }

    /// Whether it is this one.
    pub(crate) fn is(&self, stage: &KeptStage) -> bool
        ensures { result ≡ true → kept_stage stage.now ≡ compact_stage self.now }
    {
        match self {
            CompactStage::Waiting(input) => match stage {
                KeptStage::Waiting(given) => input.is_same(given),
                KeptStage::InHand(_, _) | KeptStage::Ended(_) => false,
            },
            CompactStage::InHand(cpu, left) => match stage {
                KeptStage::InHand(state, rest) => *left == *rest && cpu.is_state_of(state),
                KeptStage::Waiting(_) | KeptStage::Ended(_) => false,
            },
            CompactStage::Ended(outcome) => match stage {
                KeptStage::Ended(end) => *outcome == *end,
                KeptStage::Waiting(_) | KeptStage::InHand(_, _) => false,
            },
        }
    }

    /// About how many bytes of memory it takes beside itself, contexts and packets.
    pub(crate) fn bytes(&self) -> usize {
        match self {
            CompactStage::InHand(cpu, _) => cpu.bytes(),
            CompactStage::Waiting(_) | CompactStage::Ended(_) => 0,
        }
    }
}
