//! Words as text, a line each.

ghost use Rattle.std.specs.Prelude.{◌≡◌, ◌<◌, ◌++◌, ◌∷◌, ◌/◌, [], All, IfOk, OnOk, length, string_bytes};
ghost use Rattle.hex.specs.Hex.{encode_lower};
ghost use Rattle.bpf_replies.specs.Listing.{word_lines};

use bpf_lines::to_hex;
use std::alloc::{AllocError, Global};

/// Appends a word's digits and a line end to the text.
fn push_word(alloc: Global, text: &mut String, word: &[u8]) -> Result<(), AllocError>
    ensures { OnOk result (string_bytes text.new
        ≡ string_bytes text.old ++ (encode_lower word.now ++ 10 ∷ [])) }
{
    let digits = to_hex(alloc, word)?;
    text.push_str(digits.as_str())?;
    text.push('\n')
}

/// The words that the bytes make, a line of 16 hex digits each.
pub fn word_lines(alloc: Global, bytes: &[u8]) -> Result<String, AllocError>
    ensures lines { IfOk result (λ text.
        string_bytes text ≡ word_lines (length bytes.now / 8) bytes.now) }
    // Only what the type of the slice says: a caller's proof doesn't get it of a vector.
    ensures bytes { All (λ b. b < 256) bytes.now }
{
    let mut text = String::new(alloc);
    for word in 0..bytes.len() / 8 {
        push_word(alloc, &mut text, &bytes[8 * word..8 * word + 8])?;
    }
    Ok(text)
}
