//! The eleven registers (RFC 9669, section 3.1).

ghost use Rattle.std.specs.Prelude.{◌≡◌, ◌≤◌, IsSome, IfSome};
ghost use Rattle.bpf_insn.specs.Register.{register_number};

/// A register, R0 to R10. R10 is the frame pointer, which no program writes.
#[derive(Clone, Copy, PartialEq, Eq, Debug)]
pub enum Reg {
    R0,
    R1,
    R2,
    R3,
    R4,
    R5,
    R6,
    R7,
    R8,
    R9,
    R10,
}

impl Reg {
    /// The register with this number; `None` from 11 on.
    pub fn new(number: u8) -> Option<Reg>
        ensures numbered { IfSome result (λ r. register_number r ≡ number) }
        ensures found { number ≤ 10 → IsSome result }
    {
        match number {
            0 => Some(Reg::R0),
            1 => Some(Reg::R1),
            2 => Some(Reg::R2),
            3 => Some(Reg::R3),
            4 => Some(Reg::R4),
            5 => Some(Reg::R5),
            6 => Some(Reg::R6),
            7 => Some(Reg::R7),
            8 => Some(Reg::R8),
            9 => Some(Reg::R9),
            10 => Some(Reg::R10),
            _ => None,
        }
    }

    /// Its number, 0 to 10.
    pub fn number(self) -> u8
        ensures numbered { result ≡ register_number self }
        ensures small { result ≤ 10 }
    {
        self as u8
    }
}
