//! The words that lines of a run file begin with or have between their fields.

ghost use Rattle.std.specs.Prelude.{◌≡◌};
ghost use Rattle.bpf_file.specs.Key.{key_text, is_key};

/// A word with a meaning of its own.
#[derive(Clone, Copy)]
pub enum Key {
    /// `ebpf-run`
    RunFile,
    /// `1`, the version
    One,
    /// `2`, the version in which maps may grow
    Two,
    /// `3`, the version in which there may be arrays
    Three,
    Cpus,
    Seed,
    Map,
    /// Before a map's size of keys, in bytes.
    KeySize,
    ValueSize,
    Max,
    Spare,
    Mask,
    /// After a map that begins with one segment and splits it as keys come.
    Grow,
    Array,
    /// After an array of which each CPU has values of its own.
    PerCpu,
    /// After an array whose values may only be read.
    Frozen,
    Data,
    /// Before a variable's name.
    Variable,
    /// Before a pair of a map, or a value of an array.
    Put,
    /// Before the size of numbers.
    Of,
    /// Before numbers.
    Equals,
    Program,
    Hex,
    Job,
    Budget,
    Context,
    /// Before a packet of a card's queue.
    Xdp,
    /// Before a packet of a traffic filter.
    Tc,
    /// Before the time at which a job runs.
    Time,
    /// Before the seed of a job's random numbers.
    Random,
    /// After a program's assembly, alone.
    End,
}

impl Key {
    /// How it is spelled.
    fn text(self) -> &'static str
        ensures { result.now ≡ key_text self }
    {
        match self {
            Key::RunFile => "ebpf-run",
            Key::One => "1",
            Key::Two => "2",
            Key::Three => "3",
            Key::Cpus => "cpus",
            Key::Seed => "seed",
            Key::Map => "map",
            Key::KeySize => "key",
            Key::ValueSize => "value",
            Key::Max => "max",
            Key::Spare => "spare",
            Key::Mask => "mask",
            Key::Grow => "grow",
            Key::Array => "array",
            Key::PerCpu => "percpu",
            Key::Frozen => "frozen",
            Key::Data => "data",
            Key::Variable => "var",
            Key::Put => "put",
            Key::Of => "of",
            Key::Equals => "=",
            Key::Program => "prog",
            Key::Hex => "hex",
            Key::Job => "job",
            Key::Budget => "budget",
            Key::Context => "ctx",
            Key::Xdp => "xdp",
            Key::Tc => "tc",
            Key::Time => "time",
            Key::Random => "random",
            Key::End => "end",
        }
    }

    /// Whether a field is this word.
    pub fn is(self, field: &[u8]) -> bool
        ensures { result ≡ is_key self field.now }
    {
        self.text().as_bytes() == field
    }
}
