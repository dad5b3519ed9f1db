//! Jobs that end in a fault, where something is expected, and nothing of faults.

ghost use Rattle.std.specs.Prelude.{◌≡◌};
ghost use Rattle.std.specs.List.{list_any, position};
ghost use Rattle.bpf_check.specs.Faults.{are_faults_unexpected, has_fault, speaks_of_faults, unexpected_fault};

use crate::claim::has_fault;
use crate::expectation::Expectation;
use crate::findings::Findings;
use bpf_explore::Answer;

/// Whether some expectation speaks of faults.
fn are_faults_expected(expectations: &[Expectation]) -> bool
    ensures { result ≡ list_any speaks_of_faults expectations.now }
{
    expectations
        .iter()
        .any(|expectation| expectation.speaks_of_faults())
}

/// Whether something is expected, and nothing of faults.
fn are_faults_unexpected(expectations: &[Expectation]) -> bool
    ensures { result ≡ are_faults_unexpected expectations.now }
{
    !expectations.is_empty() && !are_faults_expected(expectations)
}

/// The place of the first answer in which a job ended in a fault.
fn first_fault(answers: &[Answer]) -> Option<usize>
    ensures { result ≡ position (λ found. has_fault found.text) answers.now }
{
    answers
        .iter()
        .position(|answer| has_fault(answer.text().as_bytes()))
}

/// The place of the first answer in which a job ended in a fault, where something is expected, and nothing
/// of faults.
pub fn unexpected_fault(findings: &Findings, expectations: &[Expectation]) -> Option<usize>
    ensures { result ≡ unexpected_fault findings.now expectations.now }
{
    if are_faults_unexpected(expectations) {
        first_fault(findings.answers())
    } else {
        None
    }
}
