//! One word of 8 bytes by its fields (RFC 9669, section 3).

ghost use Rattle.std.specs.Prelude.{◌≡◌};
ghost use Rattle.bpf_insn.specs.Encoding.{next_at};

use byteorder::{ByteOrder, LittleEndian};

/// The fields of a word, as unsigned numbers.
#[derive(Clone, Copy, PartialEq, Eq, Debug)]
pub struct Word {
    pub opcode: u8,
    /// Four bits.
    pub dst: u8,
    /// Four bits.
    pub src: u8,
    pub offset: u16,
    pub imm: u32,
}

impl Word {
    ghost use Rattle.std.specs.Prelude.{◌≡◌, ◌≤◌, ◌<◌, length};
    ghost use Rattle.bpf_insn.specs.Encoding.{word_at};
    ghost use Rattle.bpf_insn.specs.Private.Bytes.{word_bytes, IsNarrow};

    /// The word in the first 8 bytes.
    pub fn from_bytes(bytes: &[u8]) -> Word
        requires { 8 ≤ length bytes.now }
        ensures value { result ≡ word_at bytes.now }
        ensures narrow { IsNarrow result }
    {
        Word {
            opcode: bytes[0],
            dst: bytes[1] % 16,
            src: bytes[1] / 16,
            offset: LittleEndian::read_u16(&bytes[2..]),
            imm: LittleEndian::read_u32(&bytes[4..]),
        }
    }

    /// Its 8 bytes.
    pub fn to_bytes(self) -> [u8; 8]
        requires dst { self.dst < 16 }
        requires src { self.src < 16 }
        ensures { result ≡ word_bytes self }
    {
        let mut bytes = [0; 8];
        bytes[0] = self.opcode;
        bytes[1] = self.dst + 16 * self.src;
        LittleEndian::write_u16(&mut bytes[2..], self.offset);
        LittleEndian::write_u32(&mut bytes[4..], self.imm);
        bytes
    }
}

/// The second word of the bytes, where they have one.
fn next_word(bytes: &[u8]) -> Option<Word>
    ensures { result ≡ next_at bytes.now }
{
    if bytes.len() < 16 {
        None
    } else {
        Some(Word::from_bytes(&bytes[8..]))
    }
}

/// A word and the one after it, where there is one.
#[derive(Clone, Copy, PartialEq, Eq, Debug)]
pub struct Window {
    pub word: Word,
    pub next: Option<Word>,
}

impl Window {
    ghost use Rattle.std.specs.Prelude.{◌≡◌, ◌≤◌, length};
    ghost use Rattle.bpf_insn.specs.Encoding.{window_at};
    ghost use Rattle.bpf_insn.specs.Private.Bytes.{IsNarrow};

    /// The first word of the bytes, and the second.
    pub fn from_bytes(bytes: &[u8]) -> Window
        requires { 8 ≤ length bytes.now }
        ensures value { result ≡ window_at bytes.now }
        ensures narrow { IsNarrow result.word }
    {
        Window {
            word: Word::from_bytes(bytes),
            next: next_word(bytes),
        }
    }
}
