//! Where a key belongs.
ghost use Rattle.std.specs.Prelude.{◌≡◌, ◌≤◌};
ghost use Rattle.hop_layout.specs.Home.{home_of, with_word};

use crate::bytes::word_at;
use bpf_base::spread;

// The hash of some words, with a word more.
#[inline(always)]
fn with_word(hash: u64, word: u64) -> u64
    ensures { result ≡ with_word hash word }
{
    let product = spread(hash ^ word);
    spread(product ^ (product >> 32))
}

/// The home of a key: a hash of its words, which begins with the seed, both halves folded into one,
/// under the mask. Its low bits number the key's segment, and bits 16 to 21 its bucket.
#[inline(always)]
#[tactic(auto, unfolding(crate::specs::Home::home_of))]
pub fn home(key: &[u8], seed: u64, mask: u32) -> u32
    ensures home { result ≡ home_of key.now seed mask }
    ensures in_range { result ≤ mask }
{
    let mut hash = seed;
    'words: for word in 0..key.len().div_ceil(8) {
        hash = with_word(hash, word_at(key, word));
    }
    ((hash ^ (hash >> 32)) & u64::from(mask)) as u32
}
