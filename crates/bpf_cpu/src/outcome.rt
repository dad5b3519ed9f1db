//! How a step answers, and how a job ends.

use bpf_codes::Code;

/// Why a job can't go on. The printed codes F1 to F7 are those of the program `ebpf`.
#[derive(Clone, Copy, PartialEq, Eq, Debug)]
pub enum Fault {
    /// F1: an accessed byte lies outside the context, the live frames, and the values that may be reached.
    BadAddress,
    /// F2: the bytes are good, but the address isn't a multiple of the access's size.
    Misaligned,
    /// F3: a local call where eight frames are live.
    CallDepth,
    /// F4: a map helper whose R1 is no map and no array.
    NotAMap,
    /// F5: a lookup answered the 257th distinct value of the run.
    TooManyHeld,
    /// F6: the run can't begin, since the CPU's run counter has its last value.
    Worn,
    /// F7: a store or an atomic operation to a value of an array that is read only.
    ReadOnly,
}

impl Fault {
    ghost use Rattle.std.specs.Prelude.{◌≡◌};
    ghost use Rattle.bpf_cpu.specs.Lines.{fault_code};

    /// The code that is printed of it.
    pub fn code(self) -> Code
        ensures { result ≡ fault_code self }
    {
        match self {
            Fault::BadAddress => Code::F1,
            Fault::Misaligned => Code::F2,
            Fault::CallDepth => Code::F3,
            Fault::NotAMap => Code::F4,
            Fault::TooManyHeld => Code::F5,
            Fault::Worn => Code::F6,
            Fault::ReadOnly => Code::F7,
        }
    }
}

/// How a job ends.
#[derive(Clone, Copy, PartialEq, Eq, Debug)]
pub enum Outcome {
    /// EXIT in the program's first function, with R0.
    Exit(u64),
    /// A fault of the instruction at a pc.
    Fault(Fault, u32),
    /// The budget's steps are made; the pc is that of the next instruction.
    OutOfBudget(u32),
}

/// What a step answers.
#[derive(Clone, Copy, PartialEq, Eq, Debug)]
pub enum Progress {
    /// The job goes on.
    On,
    /// The job has ended.
    Done(Outcome),
}

/// A step's answer in one byte: the rest of it is in the CPU that the step leaves.
#[derive(Clone, Copy)]
pub(crate) enum Next {
    On,
    Exit,
    BadAddress,
    Misaligned,
    CallDepth,
    NotAMap,
    TooManyHeld,
    ReadOnly,
}

/// What executing an instruction came to.
pub(crate) enum Executed {
    /// It is done.
    Here(Next),
    /// It calls the helper of this number, and nothing is done yet.
    Helper(u32),
}
