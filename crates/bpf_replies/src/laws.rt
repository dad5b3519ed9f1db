//! What follows from the definitions of replies.
//!
//! These functions do nothing: their contracts are the laws.
ghost use Rattle.bpf_replies.specs.Laws.{FaultsOnX86AreTrue, ListedWordsAreAnswered, ListingsAreAnsweredAlike, OutcomesAreDetermined, PatientFaultsOnX86AreTrue, PatientVerdictsOnX86AreTrue, ShownAreFound, ShownOnX86AreFound, TestsOnX86RestOnSearches, VerdictsOnX86AreTrue, WitnessesAreSeenAgain, WitnessesOnX86AreSeenAgain};

/// Searches of one input that both found all outcomes print the same of them, in the same order.
pub fn outcomes_are_determined()
    ensures { OutcomesAreDetermined }
{
    bpf_file::laws::files_are_determined();
}

/// What a search shows of an outcome, `run --by` with its schedule prints.
pub fn witnesses_are_seen_again()
    ensures { WitnessesAreSeenAgain }
{
    bpf_file::laws::files_are_determined();
    bpf_file::laws::files_can_run();
    bpf_jobs::laws::reports_by_are_determined();
}

/// What `explore --show` prints ends with the outcome that it shows.
pub fn shown_are_found()
    ensures { ShownAreFound }
{
    bpf_file::laws::files_are_determined();
    bpf_file::laws::files_can_run();
    bpf_jobs::laws::reports_by_are_determined();
    bpf_events::laws::histories_are_of_reports();
}

/// What a search with store buffers shows of an outcome, `run --x86 --by` with its schedule prints.
pub fn witnesses_on_x86_are_seen_again()
    ensures { WitnessesOnX86AreSeenAgain }
{
    bpf_file::laws::files_are_determined();
    bpf_file::laws::files_can_run();
    bpf_flushes::laws::reports_with_buffers_are_determined();
}

/// What `explore --x86 --show` prints ends with the outcome that it shows.
pub fn shown_on_x86_are_found()
    ensures { ShownOnX86AreFound }
{
    bpf_file::laws::files_are_determined();
    bpf_file::laws::files_can_run();
    bpf_flushes::laws::reports_with_buffers_are_determined();
    bpf_buffer_events::laws::histories_are_of_reports_with_buffers();
}

/// What `asm --listing` prints is assembled as the text that is listed: `asm` has the same replies
/// to both.
pub fn listings_are_answered_alike()
    ensures { ListingsAreAnsweredAlike }
{
    bpf_text::laws::texts_are_determined();
    bpf_disassembly::listing::laws::listings_assemble_alike();
}

/// What `disasm --pc` prints is assembled to the words that it was given, unless memory runs out.
pub fn listed_words_are_answered()
    ensures { ListedWordsAreAnswered }
{
    bpf_insn::laws::encodings_are_determined();
    bpf_text::laws::texts_are_determined();
    bpf_disassembly::listing::laws::program_lines_assemble_to_their_words();
}

/// Each verdict by answers that are outcomes of CPUs with store buffers is true of these.
pub fn verdicts_on_x86_are_true()
    ensures { VerdictsOnX86AreTrue }
{}

/// So is what is said of a fault that isn't expected.
pub fn faults_on_x86_are_true()
    ensures { FaultsOnX86AreTrue }
{}

/// What tests of a patient search with store buffers rest on is what such a search promises.
pub fn tests_on_x86_rest_on_searches()
    ensures { TestsOnX86RestOnSearches }
{}

/// Whether each schedule of turns and flushes can end is so as the first test says, and each other verdict by
/// answers of a patient search with store buffers is true.
pub fn patient_verdicts_on_x86_are_true()
    ensures { PatientVerdictsOnX86AreTrue }
{}

/// So is what is said of a fault that isn't expected.
pub fn patient_faults_on_x86_are_true()
    ensures { PatientFaultsOnX86AreTrue }
{}
