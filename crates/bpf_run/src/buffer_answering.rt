//! A session of the debugger of CPUs with store buffers, as a conversation asks it.

ghost use Rattle.std.specs.Prelude.{◌≡◌};

use bpf_buffer_debug::{Session, answer};
use bpf_debug::Answer;
use bpf_replies::printing::answer_text;
use bpf_talk::Respond;
use std::alloc::Global;

/// A session, and what it answered last.
#[derive(Drop)]
pub struct BufferAnswering {
    session: Session,
    last: Answer,
}

impl BufferAnswering {
    /// A session that has answered nothing.
    pub fn new(alloc: Global, session: Session) -> BufferAnswering
        ensures { result.session ≡ session }
    {
        BufferAnswering {
            session,
            last: Ok(String::new(alloc)),
        }
    }

    pub fn session(&self) -> &Session
        ensures { result.now ≡ self.now.session }
    {
        &self.session
    }
}

impl Respond for BufferAnswering {
    ghost use Rattle.bpf_debug.specs.Script.{answer_of, answer_text};
    ghost use Rattle.bpf_run.specs.Answering.{BufferSessionAnswers};

    ghost answers = { λ old new. BufferSessionAnswers old.session new.session };

    ghost text = { λ s. answer_text (answer_of s.last) };

    fn answer(&mut self, alloc: Global, line: &[u8]) -> bool {
        self.last = answer(alloc, &mut self.session, line);
        self.last.is_err()
    }

    fn told(&self) -> &str {
        answer_text(&self.last)
    }
}
