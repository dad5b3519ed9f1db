//! One CPU of a store, with its jobs.

ghost use Rattle.std.specs.Prelude.{length};
ghost use Rattle.bpf_sched.specs.Worked.{IsReadyWorker, Worked};

use crate::gate::{Gate, Gated};
use crate::workload::Workload;
use bpf_loader::Program;
use hop_cpu::HopCpu;
use hop_map::HopPort;
use hop_words::HopTable;
use std::sync::Wait;

/// A CPU's port of the store, and its jobs.
#[derive(Drop)]
pub struct Worker {
    /// There, but while the jobs run.
    pub port: Option<HopPort>,
    pub workload: Workload,
}

/// Runs the CPU's jobs over the store, in their order.
pub fn work<R: Wait, G: Gate>(
    rt: &R,
    table: &HopTable,
    programs: &[Program],
    gate: &G,
    worker: &mut Worker,
)
    requires { IsReadyWorker table.now (length programs.now) worker.old }
    ensures { Worked table.now programs.now worker.old worker.new }
{
    let Some(port) = worker.port.take() else {
        unreachable!()
    };
    let mut store = Gated::new(HopCpu::new(rt, table, port), gate);
    worker.workload.run(programs, &mut store);
    worker.port = Some(store.into_store().into_port());
}
