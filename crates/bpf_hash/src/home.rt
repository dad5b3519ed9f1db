//! Where a key belongs.
ghost use Rattle.std.specs.Prelude.{◌≡◌, ◌<◌, ◌≤◌};
ghost use Rattle.bpf_hash.specs.Private.Home.{home_of, spread_key};

use bpf_base::bytes::{load_double, load_word};
use bpf_base::spread;

/// A key as 64 bits. A key of four or eight bytes takes one product.
#[inline]
fn spread_key(key: &[u8]) -> u64
    ensures { result ≡ spread_key key.now }
{
    match key.len() {
        4 => spread(u64::from(load_word(key, 0))),
        8 => spread(load_double(key, 0)),
        _ => key
            .iter()
            .fold(0, |hash: u64, byte| spread(hash ^ u64::from(*byte))),
    }
}

/// The home of a key among this many.
#[tactic(auto, unfolding(crate::specs::Private::Home::hash_of))]
pub fn home(key: &[u8], homes: usize) -> usize
    requires { homes ≤ 65536 }
    ensures home { result ≡ home_of homes key.now }
    ensures in_range { 0 < homes → result < homes }
{
    ((spread_key(key) >> 32) * homes as u64 >> 32) as usize
}
