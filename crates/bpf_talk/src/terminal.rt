//! A terminal: what is read there and what is written, call by call.

ghost use Rattle.std.specs.Prelude.{◌≡◌, ◌<◌, ◌∷◌, ◌++◌, ℕ, Bool, List, [], None, false, is_err, is_some, IfOk, OnErr, OnOk, length, take};
ghost use Rattle.std.specs.Io.{ReadsAtMost, WritesAtMost};
ghost use Rattle.bpf_talk.specs.Terminal.{Call, Read, Wrote, Flushed};

use std::io;
use std::io::{ErrorKind, Read, Write};

/// What commands are read from as they come, and what each is answered on. It knows the order of
/// calls: which lead from one value to another, each says by `passes`, and one that keeps no list
/// lets any lead anywhere. A call that failed is in no list.
pub trait Terminal {
    /// These calls lead from the first value to the second; the latest is first.
    ghost passes: { Self → Self → List Call → Type 0 };

    /// Whether a read failed.
    ghost is_unread: { Self → Bool };

    /// Whether a write failed, or took nothing.
    ghost has_failed: { Self → Bool };

    /// One read. It gives no byte only where there are no more.
    fn read(&mut self, room: &mut [u8]) -> io::Result<usize>
        requires readable { is_unread self.old ≡ false }
        requires some { 0 < length room.old }
        ensures bound { ReadsAtMost result room.new }
        ensures made { IfOk result (λ n. passes self.old self.new (Read (take n room.new) ∷ [])) }
        ensures lost { OnErr result (passes self.old self.new []) }
        ensures told { is_unread self.new ≡ is_err result }
        ensures writable { has_failed self.new ≡ has_failed self.old };

    /// One write. Where there is a byte to write, it takes one at least or fails.
    fn write(&mut self, bytes: &[u8]) -> io::Result<usize>
        requires { has_failed self.old ≡ false }
        ensures bound { WritesAtMost result bytes.now }
        ensures some { 0 < length bytes.now → IfOk result (λ n. 0 < n) }
        ensures made { IfOk result (λ n. passes self.old self.new (Wrote (take n bytes.now) ∷ [])) }
        ensures lost { OnErr result (passes self.old self.new []) }
        ensures told { has_failed self.new ≡ is_err result }
        ensures readable { is_unread self.new ≡ is_unread self.old };

    /// Brings what was written to its end.
    fn flush(&mut self) -> io::Result<()>
        requires { has_failed self.old ≡ false }
        ensures made { OnOk result (passes self.old self.new (Flushed ∷ [])) }
        ensures lost { OnErr result (passes self.old self.new []) }
        ensures told { has_failed self.new ≡ is_err result }
        ensures readable { is_unread self.new ≡ is_unread self.old };

    /// No call leads from a value to itself.
    ghost nothing: { (x : Self) → passes x x [] };

    /// Calls follow each other.
    ghost follows: { (x y z : Self) (xs ys : List Call) → passes x y xs → passes y z ys
        → passes x z (ys ++ xs) };
}

/// What is said on standard error to somebody who types what is no command.
const NO_COMMAND: &str =
    "  `help` prints the commands: C is a CPU, as in `step 0`; `quit` or Ctrl-D leaves\n";

/// Whether somebody who types this line leaves.
fn is_leave(line: &[u8]) -> bool {
    let word = line.trim_ascii();
    word == b"quit".as_slice() || word == b"exit".as_slice() || word == b"q".as_slice()
}

/// Standard input and output. Each call is one call of the one or the other. Where somebody types,
/// a prompt is on standard error before each read, a hint after a command that is none, and a line
/// `quit`, `exit` or `q` is the end of what is read.
#[derive(Drop)]
pub struct Console<'a, P: Eprint, R: Read, W: Write> {
    rt: &'a P,
    input: R,
    output: W,
    /// Whether somebody types.
    prompts: bool,
    /// Whether what was typed is no command, which isn't said yet.
    is_refused: bool,
    /// Why a read failed, if one did.
    failure: Option<io::Error>,
    failed: bool,
}

impl<'a, P: Eprint, R: Read, W: Write> Console<'a, P, R, W> {
    /// A console of which no call failed.
    pub fn new(rt: &'a P, input: R, output: W, prompts: bool) -> Console<'a, P, R, W>
        ensures unread { result.failure ≡ None }
        ensures writable { result.failed ≡ false }
    {
        Console {
            rt,
            input,
            output,
            prompts,
            is_refused: false,
            failure: None,
            failed: false,
        }
    }

    /// Why a read failed.
    pub fn failure(&self) -> Option<&io::Error> {
        self.failure.as_ref()
    }
}

impl<P: Eprint, R: Read, W: Write> Terminal for Console<'_, P, R, W> {
    ghost passes = { λ x y calls. Unit {0} };

    ghost is_unread = { λ s. is_some s.failure };

    ghost has_failed = { λ s. s.failed };

    fn read(&mut self, room: &mut [u8]) -> io::Result<usize> {
        if self.prompts {
            let _ = eprint!(self.rt; "ebpf> ");
        }
        let mut read = self.input.read(room);
        if let Err(error) = &read {
            self.failure = Some(*error);
        }
        if self.prompts
            && let Ok(count) = read
            && room.get(..count).is_some_and(is_leave)
        {
            read = Ok(0);
        }
        read
    }

    fn write(&mut self, bytes: &[u8]) -> io::Result<usize> {
        let mut written = self.output.write(bytes);
        if !bytes.is_empty() && matches!(written, Ok(0)) {
            written = Err(io::Error::from(ErrorKind::WriteZero));
        }
        self.failed = written.is_err();
        self.is_refused = self.prompts && bytes == b"refused G4\n".as_slice();
        written
    }

    fn flush(&mut self) -> io::Result<()> {
        let flushed = self.output.flush();
        self.failed = flushed.is_err();
        if self.is_refused {
            self.is_refused = false;
            let _ = eprint!(self.rt; "{NO_COMMAND}");
        }
        flushed
    }

    ghost nothing = { λ x. tt };

    ghost follows = { λ x y z xs ys p q. tt };
}
