//! Standard input as a source, in whose place a file can be opened.

ghost use Rattle.std.specs.Prelude.{◌≡◌, None, is_some};
ghost use Rattle.std.specs.Option.{option_map_or};

use bpf_replies::stream::Source;
use std::fs::{File, Files};
use std::io;
use std::io::Read;

/// Standard input, or the file that was opened last, and why a call failed if one did. Each read is
/// one read of it.
#[derive(Drop)]
pub struct Reader<'a, F: Files<File = T>, R: Read, T: Read> {
    files: &'a F,
    standard: R,
    file: Option<T>,
    failure: Option<io::Error>,
    calls: u64,
}

impl<'a, F: Files<File = T>, R: Read, T: Read> Reader<'a, F, R, T> {
    /// Standard input, of which nothing was read.
    pub fn new(files: &'a F, standard: R) -> Reader<'a, F, R, T>
        ensures kept { result.standard ≡ standard }
        ensures standard { result.file ≡ None }
        ensures working { result.failure ≡ None }
        ensures unused { result.calls ≡ 0 }
    {
        Reader {
            files,
            standard,
            file: None,
            failure: None,
            calls: 0,
        }
    }

    /// Why the file couldn't be opened, or a read failed.
    pub fn failure(&self) -> Option<&io::Error> {
        self.failure.as_ref()
    }
}

impl<F: Files<File = T>, R: Read, T: Read> Source for Reader<'_, F, R, T> {
    ghost remaining = { λ s. option_map_or T.remaining s.file (R.remaining s.standard) };

    ghost file = { λ s name. None };

    ghost has_failed = { λ s. is_some s.failure };

    ghost reads = { λ s. s.calls };

    fn open(&mut self, name: &str) -> io::Result<()> {
        match File::open(self.files, name) {
            Ok(file) => {
                self.file = Some(file);
                self.failure = None;
                Ok(())
            }
            Err(error) => {
                self.failure = Some(error);
                Err(error)
            }
        }
    }

    fn read(&mut self, room: &mut [u8]) -> io::Result<usize> {
        self.calls = self.calls.saturating_add(1);
        let read = match &mut self.file {
            Some(file) => file.read(room),
            None => self.standard.read(room),
        };
        if let Err(error) = &read {
            self.failure = Some(*error);
        }
        read
    }
}
