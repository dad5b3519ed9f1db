//! Words as bytes: those that are zero are only counted.

ghost use Rattle.std.specs.Prelude.{◌≡◌, ◌<◌, ◌≤◌, ◌++◌, ℕ, List, OnOk, OnErr, IfSome, IfNone, All, length, take};
ghost use Rattle.std.specs.Io.{StartsWith};
ghost use Rattle.bpf_mem.specs.Saved.{IsWord, word_bytes, words_saved};

use bpf_base::bytes::load_double;
use std::alloc::AllocError;

/// Appends a word's bytes to others.
fn push_word(word: u64, out: &mut Vec<u8>) -> Result<(), AllocError>
    ensures ok { OnOk result (out.new.items ≡ out.old.items ++ word_bytes word) }
    ensures err { OnErr result (out.new.items ≡ out.old.items) }
{
    out.extend_from_slice(&word.to_le_bytes())
}

/// The word whose bytes come first.
fn first_word(bytes: &[u8]) -> u64
    requires { 8 ≤ length bytes.now }
    ensures { word_bytes result ≡ take 8 bytes.now }
{
    load_double(bytes, 0)
}

/// Each number of 64 bits is a word: says so, and does nothing.
pub fn are_words(words: &[u64])
    ensures { All IsWord words.now }
{
    let _ = words;
}

/// Appends to the bytes what the words are saved as.
pub fn save_words(words: &[u64], out: &mut Vec<u8>) -> Result<(), AllocError>
    requires { length words.now < 256 }
    ensures ok { OnOk result (out.new.items ≡ out.old.items ++ words_saved 0 words.now) }
    ensures err { OnErr result (StartsWith out.new.items out.old.items) }
{
    let mut zeros = 0;
    for word in words {
        if *word == 0 {
            zeros += 1;
        } else {
            out.push(zeros)?;
            push_word(*word, out)?;
            zeros = 0;
        }
    }
    out.push(zeros)?;
    Ok(())
}

/// Sets the words to those whose saved form the bytes begin with; what comes after it. `None`
/// where this many words have no such form, and then the words may be any.
pub fn read_words<'a>(words: &mut [u64], bytes: &'a [u8]) -> Option<&'a [u8]>
    ensures some { IfSome result (λ rest. bytes.now ≡ words_saved 0 words.new ++ rest.now) }
    ensures fit { IfSome result (λ _. All IsWord words.new) }
    ensures none { IfNone result ((others rest : List ℕ) → length others ≡ length words.old
        → All IsWord others → bytes.now ≡ words_saved 0 others ++ rest → ⊥) }
{
    if bytes.is_empty() {
        return None;
    }
    let mut zeros = bytes[0];
    let mut rest = &bytes[1..];
    for i in 0..words.len() {
        if zeros > 0 {
            words[i] = 0;
            zeros -= 1;
        } else {
            if rest.len() < 9 {
                return None;
            }
            let word = first_word(rest);
            if word == 0 {
                return None;
            }
            words[i] = word;
            zeros = rest[8];
            rest = &rest[9..];
        }
    }
    if zeros == 0 { Some(rest) } else { None }
}
