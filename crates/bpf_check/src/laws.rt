//! What follows from the definitions.
//!
//! The functions do nothing: their contracts are the laws.
ghost use Rattle.bpf_check.specs.Laws.{FaultsAreTrue, PatientFaultsAreTrue, PatientVerdictsAreTrue, PlainTestsArePlain, VerdictsAreTrue};
ghost use Rattle.bpf_check.specs.Single.{RunsAreJudged};

/// Each verdict by answers that are outcomes is true.
pub fn verdicts_are_true()
    ensures { VerdictsAreTrue }
{}

/// So is each by answers of a patient search.
pub fn patient_verdicts_are_true()
    ensures { PatientVerdictsAreTrue }
{}

/// Where CPUs have no store buffers, nothing is tested that is expected of CPUs with such alone.
pub fn plain_tests_are_plain()
    ensures { PlainTestsArePlain }
{}

/// A fault that isn't expected is one of an outcome; where there is none, though something is expected and
/// nothing of faults, no outcome has one.
pub fn faults_are_true()
    ensures { FaultsAreTrue }
{}

/// So it is by answers of a patient search.
pub fn patient_faults_are_true()
    ensures { PatientFaultsAreTrue }
{}

/// What is said of one run is true of it.
pub fn runs_are_judged()
    ensures { RunsAreJudged }
{}
