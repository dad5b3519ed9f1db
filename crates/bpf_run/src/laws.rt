//! What follows from the definitions of commands.
//!
//! These functions do nothing: their contracts are the laws.
ghost use Rattle.bpf_run.specs.Laws.{FoundRacesAreTrue, RepliesAreDetermined};

/// What a command prints is a function of the bytes that it reads, unless memory runs out or a read
/// fails.
pub fn replies_are_determined()
    ensures { RepliesAreDetermined }
{
    bpf_insn::laws::words_are_determined();
    bpf_insn::laws::encodings_are_determined();
    bpf_insn::laws::refusals_are_determined();
    bpf_loader::laws::first_is_determined();
    bpf_text::laws::texts_are_determined();
    bpf_cpu::laws::outcomes_are_determined();
    bpf_cpu::laws::no_maps_no_events();
    bpf_file::laws::files_are_determined();
    bpf_file::laws::files_can_run();
    bpf_jobs::laws::reports_by_are_determined();
    bpf_events::laws::histories_are_determined();
    bpf_debug::laws::scripts_are_determined();
    bpf_packets::laws::reports_with_packets_are_determined();
    bpf_flushes::laws::reports_with_buffers_are_determined();
    bpf_buffer_events::laws::histories_with_buffers_are_determined();
}

/// What `check` finds of data races is so.
pub fn found_races_are_true()
    ensures { FoundRacesAreTrue }
{}
