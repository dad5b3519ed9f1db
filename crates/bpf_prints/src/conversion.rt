//! The conversions of a format, `%d` and the like, as Linux's kernel reads them.

use std::alloc::AllocError;

/// The kernel prints no longer lines.
const WIDEST: usize = 1_024;

/// What a byte means that a conversion may have.
#[derive(Clone, Copy, PartialEq, Eq, Debug)]
pub(crate) enum Kind {
    /// `%d` and `%i`.
    Signed,
    /// `%u`.
    Unsigned,
    /// `%x`.
    Hex,
    /// `%X`.
    Upper,
    /// `%c`.
    Byte,
    /// `%s`.
    Text,
}

/// What comes after `%`, as far as it is read.
#[derive(Clone, Copy, PartialEq, Eq, Debug)]
pub(crate) struct Conversion {
    left: bool,
    zeros: bool,
    plus: bool,
    blank: bool,
    width: Option<usize>,
    /// How many `l` came, which end flags and width.
    longs: u8,
}

/// What a byte after `%` leads to.
#[derive(Clone, Copy, PartialEq, Eq, Debug)]
pub(crate) enum Next {
    More(Conversion),
    Percent,
    Done(Kind),
    /// Linux takes no such conversion, or it prints what nobody has here.
    Unknown,
}

impl Conversion {
    /// After `%` alone.
    pub(crate) fn begun() -> Conversion {
        Conversion {
            left: false,
            zeros: false,
            plus: false,
            blank: false,
            width: None,
            longs: 0,
        }
    }

    /// The conversion with one more byte of its flags or of its width.
    fn with_flag(self, byte: u8) -> Option<Conversion> {
        let mut more = self;
        match (byte, self.width) {
            (b'0', None) => more.zeros = true,
            (b'-', None) => more.left = true,
            (b'+', None) => more.plus = true,
            (b' ', None) => more.blank = true,
            (b'0'..=b'9', width) => {
                let digit = byte.saturating_sub(b'0') as usize;
                let width = width.unwrap_or(0).saturating_mul(10).saturating_add(digit);
                more.width = Some(width.min(WIDEST));
            }
            _ => return None,
        }
        Some(more)
    }

    /// What one more byte leads to.
    pub(crate) fn then(self, byte: u8) -> Next {
        if byte == b'%' && self == Conversion::begun() {
            return Next::Percent;
        }
        if self.longs == 0
            && let Some(more) = self.with_flag(byte)
        {
            return Next::More(more);
        }
        match (byte, self.longs) {
            (b'l', 0 | 1) => Next::More(Conversion {
                longs: self.longs.saturating_add(1),
                ..self
            }),
            (b'd' | b'i', _) => Next::Done(Kind::Signed),
            (b'u', _) => Next::Done(Kind::Unsigned),
            (b'x', _) => Next::Done(Kind::Hex),
            (b'X', _) => Next::Done(Kind::Upper),
            (b'c', 0) => Next::Done(Kind::Byte),
            (b's', 0) => Next::Done(Kind::Text),
            _ => Next::Unknown,
        }
    }

    /// Appends as many bytes as a text of this length lacks to the width.
    fn push_fill(self, text: &mut String, length: usize, fill: char) -> Result<(), AllocError> {
        for _ in length..self.width.unwrap_or(0) {
            text.push(fill)?;
        }
        Ok(())
    }

    /// Appends a text in its width.
    pub(crate) fn push_text(self, text: &mut String, shown: &str) -> Result<(), AllocError> {
        if !self.left {
            self.push_fill(text, shown.len(), ' ')?;
        }
        text.push_str(shown)?;
        if self.left {
            self.push_fill(text, shown.len(), ' ')?;
        }
        Ok(())
    }

    /// Appends a number's sign and digits in its width.
    pub(crate) fn push_digits(
        self,
        text: &mut String,
        sign: &str,
        digits: &str,
    ) -> Result<(), AllocError> {
        let length = sign.len().saturating_add(digits.len());
        if !self.left && !self.zeros {
            self.push_fill(text, length, ' ')?;
        }
        text.push_str(sign)?;
        if self.zeros && !self.left {
            self.push_fill(text, length, '0')?;
        }
        text.push_str(digits)?;
        if self.left {
            self.push_fill(text, length, ' ')?;
        }
        Ok(())
    }

    /// The number without its sign, and the sign's text, of a register that is printed with one.
    pub(crate) fn signed(self, value: u64) -> (&'static str, u64) {
        let (negative, size) = if self.longs == 0 {
            let low = value & 0xffff_ffff;
            if low < 0x8000_0000 {
                (false, low)
            } else {
                (true, 0x1_0000_0000_u64.saturating_sub(low))
            }
        } else if value < 0x8000_0000_0000_0000 {
            (false, value)
        } else {
            (true, value.wrapping_neg())
        };
        let sign = if negative {
            "-"
        } else if self.plus {
            "+"
        } else if self.blank {
            " "
        } else {
            ""
        };
        (sign, size)
    }

    /// What is printed of a register without a sign.
    pub(crate) fn unsigned(self, value: u64) -> u64 {
        if self.longs == 0 {
            value & 0xffff_ffff
        } else {
            value
        }
    }
}
