//! What atomic operations make of a number in memory (RFC 9669, section 5.3).

ghost use Rattle.std.specs.Prelude.{◌≡◌};
ghost use Rattle.bpf_base.specs.Atomic.{number_after};

/// What is made of the number found, whether or not a register gets that number.
#[derive(Clone, Copy, PartialEq, Eq, Debug)]
pub enum Change {
    /// The sum with the operand, without the carry.
    Add,
    /// The bits that it or the operand has.
    Or,
    /// The bits that it and the operand have.
    And,
    /// The bits that one of the two has.
    Xor,
    /// The operand.
    Exchange,
    /// The operand where the number is the expected one; else it stays.
    CompareExchange,
}

impl Change {
    /// What is left where a number of 4 bytes stood.
    #[inline]
    pub fn word_after(self, before: u32, operand: u64, expected: u64) -> u32
        ensures { result ≡ number_after self 4 before operand expected }
    {
        let operand = (operand % 0x1_0000_0000) as u32;
        match self {
            Change::Add => before.wrapping_add(operand),
            Change::Or => before | operand,
            Change::And => before & operand,
            Change::Xor => before ^ operand,
            Change::Exchange => operand,
            Change::CompareExchange => {
                if u64::from(before) == expected % 0x1_0000_0000 {
                    operand
                } else {
                    before
                }
            }
        }
    }

    /// What is left where a number of 8 bytes stood.
    #[inline]
    pub fn double_after(self, before: u64, operand: u64, expected: u64) -> u64
        ensures { result ≡ number_after self 8 before operand expected }
    {
        match self {
            Change::Add => before.wrapping_add(operand),
            Change::Or => before | operand,
            Change::And => before & operand,
            Change::Xor => before ^ operand,
            Change::Exchange => operand,
            Change::CompareExchange => { if before == expected { operand } else { before } }
        }
    }
}
