//! Searches whose kept machines are gone through.

ghost use Rattle.std.specs.Prelude.{◌≡◌, ◌<◌, Bool, false, Some, IfOk, List, OnOk, length, slice_get};
ghost use Rattle.bpf_machine.specs.Machine.{MachineState};
ghost use Rattle.bpf_machine.specs.Schedule.{unrolled};
ghost use Rattle.bpf_races.specs.Searched.{IsLedTo};

use bpf_explore::{Explorer, PatientExplorer};
use bpf_machine::Machine;
use std::alloc::AllocError;

/// Machines that a search keeps, and one to work with.
pub trait Searched {
    /// The kept machines, by their numbers.
    ghost kept: { Self → List MachineState };

    /// The one to work with.
    ghost working: { Self → MachineState };

    /// The search is patient: what schedules lead to may have fewer steps left than what is kept.
    ghost patient: { Bool };

    /// Whether it is.
    fn is_patient(&self) -> bool
        ensures { result ≡ patient };

    /// How many are kept.
    fn count(&self) -> usize
        ensures { result ≡ length (kept self.now) };

    /// The machine to work with.
    fn current(&self) -> &Machine
        ensures { result.now ≡ working self.now };

    /// Takes a kept machine to work with.
    fn take(&mut self, place: usize) -> Result<(), AllocError>
        requires { place < length (kept self.old) }
        ensures ok { OnOk result (slice_get (kept self.old) place ≡ Some (working self.new)) }
        ensures same { kept self.new ≡ kept self.old };

    /// A schedule on the way to a kept machine: CPUs, each with how many turns it makes before the
    /// next. What it leads to from the first is there to work with.
    fn witness(&mut self, place: usize) -> Result<Vec<(u8, u64)>, AllocError>
        requires { place < length (kept self.old) }
        ensures leads { IfOk result
            (λ by. IsLedTo (kept self.old) (unrolled by.items) (working self.new)) }
        ensures there { patient ≡ false
            → OnOk result (slice_get (kept self.old) place ≡ Some (working self.new)) }
        ensures same { kept self.new ≡ kept self.old };
}

impl Searched for Explorer {
    ghost use Rattle.std.specs.Prelude.{false};

    ghost kept = { λ e. e.kept };

    ghost working = { λ e. e.machine };

    ghost patient = { false };

    fn is_patient(&self) -> bool {
        false
    }

    fn count(&self) -> usize {
        self.len()
    }

    fn current(&self) -> &Machine {
        self.machine()
    }

    fn take(&mut self, place: usize) -> Result<(), AllocError> {
        self.restore(place)
    }

    fn witness(&mut self, place: usize) -> Result<Vec<(u8, u64)>, AllocError> {
        let by = self.way(place)?;
        self.restore(place)?;
        Ok(by)
    }
}

impl Searched for PatientExplorer {
    ghost use Rattle.std.specs.Prelude.{true};

    ghost kept = { λ e. e.kept };

    ghost working = { λ e. e.machine };

    ghost patient = { true };

    fn is_patient(&self) -> bool {
        true
    }

    fn count(&self) -> usize {
        self.len()
    }

    fn current(&self) -> &Machine {
        self.machine()
    }

    fn take(&mut self, place: usize) -> Result<(), AllocError> {
        self.restore(place)
    }

    /// The schedule is tried with the budgets that jobs have.
    fn witness(&mut self, place: usize) -> Result<Vec<(u8, u64)>, AllocError> {
        let by = self.way(place)?;
        self.restore(0)?;
        self.turns_by(&by);
        Ok(by)
    }
}
