//! What follows from the definitions.
//!
//! The functions do nothing: their contracts are the laws.
ghost use Rattle.bpf_explore.specs.Laws.{CoverTellsAll};
ghost use Rattle.bpf_explore.specs.Patient.{PatientTellAll};

/// Where kept machines show each end and are printed, no outcome is left out.
pub fn cover_tells_all()
    ensures { CoverTellsAll }
{}

/// After a patient search no outcome is left out in which no job is out of budget.
pub fn patient_tell_all()
    ensures { PatientTellAll }
{}
