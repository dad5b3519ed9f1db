//! What the program answers: the text that it prints, and its exit status.

use crate::refusal::Refusal;
use bpf_cpu::Outcome;
use bpf_debug::Answer;

/// How the program ends.
#[derive(Clone, Copy, PartialEq, Eq, Debug)]
pub enum Status {
    /// What was asked for is printed.
    Done,
    /// A refusal is printed, or that there is no such outcome.
    Refused,
    /// The output couldn't be written.
    Failed,
    /// A program was run to a fault, or out of its budget; a test isn't ok; or a data race is there.
    Stopped,
    /// Not all outcomes or races were found, or not all tests could be decided.
    Incomplete,
}

impl Status {
    ghost use Rattle.std.specs.Prelude.{◌≡◌};
    ghost use Rattle.bpf_replies.specs.Answer.{exit_status};

    /// The exit status as a number.
    pub fn code(self) -> u8
        ensures { result ≡ exit_status self }
    {
        match self {
            Status::Done => 0,
            Status::Refused | Status::Failed => 1,
            Status::Stopped => 3,
            Status::Incomplete => 4,
        }
    }
}

/// What a command amounts to.
#[derive(PartialEq, Eq, Debug, Drop)]
pub enum Reply {
    /// A program was run.
    Ended(Outcome),
    /// Whole lines.
    Text(String),
    /// The lines of jobs, and whether one of them ended in a fault or out of budget; or those of
    /// tests of them, and whether one isn't ok.
    Jobs(String, bool),
    /// The lines of jobs that workers ran.
    Counted {
        text: String,
        /// Whether one of the jobs ended in a fault or out of budget.
        stopped: bool,
        /// What workers came to at the maps, a line a map, where that is asked for.
        stats: String,
    },
    /// What the lines of a script are answered.
    Script {
        answers: Vec<Answer>,
        /// The lines, where each is printed before its answer.
        lines: Option<Vec<u8>>,
        /// Whether some job ended in a fault or out of budget.
        stopped: bool,
        /// Whether a command is refused, where that is asked for.
        refused: bool,
    },
    /// The lines of outcomes, of tests of them, or of data races.
    Outcomes {
        text: String,
        /// Whether in one of them a job ended in a fault or out of budget, or a test isn't ok; of
        /// races whether there is one.
        stopped: bool,
        /// Whether they are all, or all that tests ask was decided.
        all: bool,
    },
    /// The tests of several files.
    Several {
        text: String,
        /// Whether one of the files is refused.
        refused: bool,
        /// Whether something isn't as expected.
        unmet: bool,
        /// Whether all that is expected could be decided.
        told: bool,
    },
    /// A search found no outcome of the number that was asked for.
    NoOutcome {
        text: String,
        /// Whether it found all that there are.
        all: bool,
    },
    Refused(Refusal),
}

impl Reply {
    ghost use Rattle.std.specs.Prelude.{◌≡◌};
    ghost use Rattle.bpf_replies.specs.Answer.{Replies, status_of};

    /// What is replied, or a refusal as a reply.
    pub fn of(replied: Result<Reply, Refusal>) -> Reply
        ensures { Replies (λ reply. result ≡ reply) replied }
    {
        match replied {
            Ok(reply) => reply,
            Err(refusal) => Reply::Refused(refusal),
        }
    }

    pub fn status(&self) -> Status
        ensures { result ≡ status_of self.now }
    {
        match self {
            Reply::Ended(Outcome::Exit(_)) | Reply::Text(_) => Status::Done,
            Reply::Script { refused: true, .. } => Status::Refused,
            Reply::Jobs(_, false)
            | Reply::Counted { stopped: false, .. }
            | Reply::Script { stopped: false, .. } => Status::Done,
            Reply::Ended(_) | Reply::Jobs(_, true) | Reply::Counted { .. } | Reply::Script { .. } =>
                Status::Stopped,
            Reply::Several { refused: true, .. } => Status::Refused,
            Reply::Several { told: false, .. } => Status::Incomplete,
            Reply::Several { unmet: true, .. } => Status::Stopped,
            Reply::Several { .. } => Status::Done,
            Reply::Outcomes { all: false, .. } => Status::Incomplete,
            Reply::Outcomes { stopped: true, .. } => Status::Stopped,
            Reply::Outcomes { .. } => Status::Done,
            Reply::NoOutcome { all: false, .. } => Status::Incomplete,
            Reply::NoOutcome { .. } | Reply::Refused(_) => Status::Refused,
        }
    }
}
