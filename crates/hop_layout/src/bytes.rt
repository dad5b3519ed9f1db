//! The numbers in words.
ghost use Rattle.std.specs.Prelude.{◌≡◌, ◌<◌, ◌*◌, length};
ghost use Rattle.hop_layout.specs.Words.{word_of};

use bpf_base::bytes::load_double;

/// Eight bytes, the lowest first, or those that are left, with zeros after them.
pub fn word_of(bytes: &[u8], word: usize) -> u64
    requires { 8 * word < length bytes.now }
    ensures { result ≡ word_of bytes.now word }
{
    let mut number = 0;
    'bytes: for passed in 1..9 {
        let at = 8 * word + (8 - passed);
        if at < bytes.len() {
            number = number * 256 + u64::from(bytes[at]);
        }
    }
    number
}

/// Eight bytes, the lowest first, or those that are left, with zeros after them, as `word_of`; where
/// there are eight it is one load.
#[inline(always)]
pub fn word_at(bytes: &[u8], word: usize) -> u64
    requires { 8 * word < length bytes.now }
    ensures { result ≡ word_of bytes.now word }
{
    let at = 8 * word;
    if bytes.len() - at >= 8 {
        load_double(bytes, at)
    } else {
        word_of(bytes, word)
    }
}
