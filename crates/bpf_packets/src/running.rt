//! Jobs from their beginning to what is printed of them and of their packets.

ghost use Rattle.std.specs.Prelude.{◌≡◌, IfOk, string_bytes};
ghost use Rattle.bpf_names.specs.Names.{names_of};
ghost use Rattle.bpf_shared.specs.Contents.{bytes_of_all};
ghost use Rattle.bpf_cpu.specs.Setup.{IsRunnable};
ghost use Rattle.bpf_machine.specs.Machine.{Shows};
ghost use Rattle.bpf_machine.specs.Schedule.{World};
ghost use Rattle.bpf_jobs.specs.Printed.{asked_of};
ghost use Rattle.bpf_packets.specs.Packets.{given_packets};
ghost use Rattle.bpf_packets.specs.Reports.{IsReportWithPackets};

use crate::keeping::given_packets;
use crate::line::push_packets;
use crate::turning::{make_rounds, make_turns};
use bpf_cpu::Setup;
use bpf_jobs::{Report, make_asked, tell};
use bpf_machine::Machine;
use bpf_names::Names;
use std::alloc::{AllocError, Global};

/// What is printed of a machine once its jobs have run, and after it the lines of their packets,
/// which are at first those that they are given.
fn report_of(
    alloc: Global,
    machine: &mut Machine,
    packets: &mut [Vec<u8>],
    names: &Names,
    schedule: &[(u8, u64)],
    maps: bool,
) -> Result<Report, AllocError>
    requires { (w : World) × Shows machine.old w }
    ensures { IfOk result (λ r. (w : World) → Shows machine.old w
        → bytes_of_all packets.old ≡ given_packets w.jobs
        → IsReportWithPackets w schedule.now (names_of names.now) maps (string_bytes r.text)
        r.stopped) }
{
    make_turns(machine, packets, schedule)?;
    make_rounds(machine, packets)?;
    let mut report = tell(alloc, machine, names, maps)?;
    push_packets(alloc, &mut report.text, machine, packets)?;
    Ok(report)
}

/// Runs jobs over a new store whose maps, arrays and variables have these names: the turns of a
/// schedule, CPUs, each with how many it takes before the next, and then rounds until each job has
/// ended. The text is what `run_jobs_by` of bpf_jobs shows, and after it a line for each job that
/// has a packet and ended by `exit`. Out of memory is the only refusal.
pub fn run_with_packets(
    alloc: Global,
    setup: Setup,
    names: &Names,
    schedule: &[(u8, u64)],
    keys: bool,
    maps: bool,
) -> Result<Report, AllocError>
    requires { IsRunnable setup }
    ensures { IfOk result (λ r. IsReportWithPackets (asked_of keys setup) schedule.now
        (names_of names.now) maps (string_bytes r.text) r.stopped) }
{
    let mut packets = given_packets(alloc, &setup.jobs)?;
    let mut machine = make_asked(alloc, setup, keys)?;
    report_of(alloc, &mut machine, &mut packets, names, schedule, maps)
}
