//! What is known beside printed lines: the file's name, and of which of its lines instructions come.

ghost use Rattle.std.specs.Prelude.{◌≡◌};
ghost use Rattle.bpf_json.specs.Texts.{line_at, line_of_job, some_line};

use std::alloc::Global;

/// What is known of the file that lines are printed of.
#[derive(Drop)]
pub struct Known {
    /// Its name, where it has one.
    pub file: Option<String>,
    /// The number of each job's program.
    pub jobs: Vec<usize>,
    /// Of each program the number of the line from which the instruction at each pc comes, 0 where none
    /// does.
    pub lines: Vec<Vec<usize>>,
}

/// A line of this number, unless it is 0.
fn some_line(number: usize) -> Option<u64>
    ensures { result ≡ some_line number }
{
    if number == 0 {
        None
    } else {
        Some(number as u64)
    }
}

impl Known {
    /// Nothing is known.
    pub fn nothing(alloc: Global) -> Known {
        Known {
            file: None,
            jobs: Vec::new(alloc),
            lines: Vec::new(alloc),
        }
    }

    /// The number of the line of an instruction, by its program and its pc.
    pub(crate) fn line_at(&self, program: u64, pc: u64) -> Option<u64>
        ensures { result ≡ line_at self.now program pc }
    {
        let lines = self.lines.get(program as usize)?;
        some_line(*lines.get(pc as usize)?)
    }

    /// The line of a pc in the program of a job.
    pub(crate) fn line_of_job(&self, job: u64, pc: u64) -> Option<u64>
        ensures { result ≡ line_of_job self.now job pc }
    {
        let program = *self.jobs.get(job as usize)?;
        self.line_at(program as u64, pc)
    }
}
