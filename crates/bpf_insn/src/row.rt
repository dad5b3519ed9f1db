//! A row of the table of instructions: what the fields of a word are for.

ghost use Rattle.std.specs.Prelude.{◌≡◌, ◌↔◌, IsTrue};
ghost use Rattle.bpf_insn.specs.Encoding.{value_of, first_word, second_word};
ghost use Rattle.bpf_insn.specs.Refusal.{Selected, IsOfRow, IsZeroed, IsZeroedSecond, IsClean, IsWhole, IsRegister, HasRegisters};
ghost use Rattle.bpf_insn.specs.Private.Bytes.{IsNarrow};
ghost use Rattle.bpf_insn.specs.Private.Reading.{IsChecked};

use crate::fault::Fault;
use crate::word::{Window, Word};

/// What a row says of a field.
#[derive(Clone, Copy, PartialEq, Eq, Debug)]
pub enum Field {
    /// It is zero.
    Unused,
    /// This number distinguishes the row from others.
    Selects(u32),
    /// It holds this number of the instruction.
    Holds(u32),
}

impl Field {
    /// The number that the field has.
    fn value(self) -> u32
        ensures { result ≡ value_of self }
    {
        match self {
            Field::Unused => 0,
            Field::Selects(number) | Field::Holds(number) => number,
        }
    }

    /// Whether a word with this number may be of the row.
    pub fn selects(self, number: u32) -> bool
        ensures { IsTrue result ↔ Selected self number }
    {
        match self {
            Field::Selects(selected) => number == selected,
            _ => true,
        }
    }

    /// Whether this number is zero, if the row doesn't use the field.
    fn is_zeroed(self, number: u32) -> bool
        ensures { IsTrue result ↔ IsZeroed self number }
    {
        match self {
            Field::Unused => number == 0,
            _ => true,
        }
    }

    /// Whether this number is a register's, if the field holds a register.
    fn is_register(self, number: u32) -> bool
        ensures { IsTrue result ↔ IsRegister self number }
    {
        match self {
            Field::Holds(_) => number <= 10,
            _ => true,
        }
    }
}

/// How many words a row has (RFC 9669, sections 3.1 and 3.2): one, or a second one of which only
/// the immediate can be used.
#[derive(Clone, Copy, PartialEq, Eq, Debug)]
pub enum Encoding {
    Basic,
    Wide(Field),
}

impl Encoding {
    /// Whether a second word, where there is one, is zero in all that the row doesn't use.
    fn is_zeroed(self, next: Option<Word>) -> bool
        ensures { IsTrue result ↔ IsZeroedSecond self next }
    {
        match (self, next) {
            (Encoding::Wide(imm), Some(word)) => {
                word.opcode == 0
                    && word.dst == 0
                    && word.src == 0
                    && word.offset == 0
                    && imm.is_zeroed(word.imm)
            }
            _ => true,
        }
    }

    /// The second word that the row spells.
    pub fn second_word(self) -> Option<Word>
        ensures { result ≡ second_word self }
    {
        match self {
            Encoding::Basic => None,
            Encoding::Wide(imm) => Some(Word {
                opcode: 0,
                dst: 0,
                src: 0,
                offset: 0,
                imm: imm.value(),
            }),
        }
    }
}

/// The fields of a row.
#[derive(Clone, Copy, PartialEq, Eq, Debug)]
pub struct Row {
    pub opcode: u8,
    pub dst: Field,
    pub src: Field,
    pub offset: Field,
    pub imm: Field,
    pub encoding: Encoding,
}

impl Row {
    /// Whether the word has the row's opcode and its selecting fields.
    fn is_of(&self, word: Word) -> bool
        ensures { IsTrue result ↔ IsOfRow self.now word }
    {
        word.opcode == self.opcode
            && self.dst.selects(u32::from(word.dst))
            && self.src.selects(u32::from(word.src))
            && self.offset.selects(u32::from(word.offset))
            && self.imm.selects(word.imm)
    }

    /// Whether the fields that the row doesn't use are zero.
    fn is_clean(&self, window: &Window) -> bool
        ensures { IsTrue result ↔ IsClean self.now window.now }
    {
        let word = window.word;
        self.dst.is_zeroed(u32::from(word.dst))
            && self.src.is_zeroed(u32::from(word.src))
            && self.offset.is_zeroed(u32::from(word.offset))
            && self.imm.is_zeroed(word.imm)
            && self.encoding.is_zeroed(window.next)
    }

    /// Whether the second word is there, if the row has one.
    fn is_whole(&self, window: &Window) -> bool
        ensures { IsTrue result ↔ IsWhole self.now.encoding window.now.next }
    {
        match (self.encoding, window.next) {
            (Encoding::Wide(_), None) => false,
            _ => true,
        }
    }

    /// Whether the fields that hold registers have numbers of registers.
    fn has_registers(&self, word: Word) -> bool
        ensures { IsTrue result ↔ HasRegisters self.now word }
    {
        self.dst.is_register(u32::from(word.dst)) && self.src.is_register(u32::from(word.src))
    }

    /// The first thing that is wrong with words that are taken for the row's.
    pub fn check(&self, window: &Window) -> Result<(), Fault>
        ensures { IsChecked self.now window.now result }
    {
        if !self.is_of(window.word) {
            return Err(Fault::UnknownOpcode);
        }
        if !self.is_clean(window) {
            return Err(Fault::ReservedNotZero);
        }
        if !self.is_whole(window) {
            return Err(Fault::HalfWide);
        }
        if !self.has_registers(window.word) {
            return Err(Fault::BadRegister);
        }
        Ok(())
    }

    /// The first word that the row spells.
    pub fn first_word(&self) -> Word
        requires { IsNarrow (first_word self.now) }
        ensures { result ≡ first_word self.now }
    {
        Word {
            opcode: self.opcode,
            dst: self.dst.value() as u8,
            src: self.src.value() as u8,
            offset: self.offset.value() as u16,
            imm: self.imm.value(),
        }
    }
}
