//! The page of each code.

ghost use Rattle.std.specs.Prelude.{◌≡◌};

use crate::page::Page;
use crate::pages::{debugger, files, program, running, states, text, workers};
use bpf_codes::Code;

/// The page of a code, where each file below `pages` has one for each of the codes after its name.
macro_rules! page {
    ($of:expr; $($file:ident: $($code:ident)+;)+) => {
        match $of {
            $($(Code::$code => &$file::$code,)+)+
        }
    };
}

/// The page of a code.
pub fn page_of(code: Code) -> Page
    ensures { result.code ≡ code }
{
    *page! {
        code;
        text: A1 A2 A3 A4 A5 A6 H1;
        program: E1 E2 E3 E4 E5 E6 E7 E8 E9 E10 E11 E12 E13 E14;
        running: F1 F2 F3 F4 F5 F6 F7;
        debugger: G1 G2 G3 G4 G5;
        workers: J1 J2 J3 J4;
        files: L1 L2 L3 L4 L5 L6 L7 L8 L9 L10 L11 S1 S2 S3 S4 S5 S6 S7 S8 S9 S10 S11 S12;
        states: X1;
    }
}
