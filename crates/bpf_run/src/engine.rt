//! What makes the reply to a text: one thread, or worker threads too.

ghost use Rattle.bpf_command.specs.declared.command.Command.{Command};
ghost use Rattle.bpf_run.specs.Commands.{IsAnswer, IsForOneThread};

use crate::pipeline::{reply, reply_by_workers};
use crate::progress::{Aside, Teller, asks_progress};
use bpf_command::Command;
use bpf_explore::{Alone, Silent};
use bpf_replies::reply::Reply;
use std::alloc::Global;
use std::sync::Wait;
use std::thread::Threads;

/// What does commands.
pub trait Engine {
    /// The commands that it can do.
    ghost does: { Command → Type 0 };

    /// What a command replies to the text that it read.
    fn reply(&self, alloc: Global, command: Command, text: &str) -> Reply
        requires { does command }
        ensures { IsAnswer command text.now result };
}

/// Does all on the thread that calls it.
#[derive(Drop)]
pub struct OneThread;

impl Engine for OneThread {
    ghost does = { IsForOneThread };

    fn reply(&self, alloc: Global, command: Command, text: &str) -> Reply {
        reply(alloc, command, text, &Alone, &mut Silent)
    }
}

/// Runs the jobs of a run file on worker threads, where a command asks for them.
#[derive(Drop)]
pub struct WithWorkers<'a, T: Threads + Wait + Sync + Aside>(pub &'a T);

impl<T: Threads + Wait + Sync + Aside> Engine for WithWorkers<'_, T> {
    ghost use Rattle.std.specs.Thread.{IsSync};

    ghost does = { λ command. IsSync T.row };

    fn reply(&self, alloc: Global, command: Command, text: &str) -> Reply {
        let mut teller = Teller::new(self.0, asks_progress(&command));
        reply_by_workers(self.0, alloc, command, text, &mut teller)
    }
}
