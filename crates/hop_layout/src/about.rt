//! What a store is given when it is made.
use bpf_shared::StoreShape;

/// What a store is given once: the shape, the hash's seed, and the version and the count as made.
#[derive(Drop)]
pub struct About {
    pub shape: StoreShape,
    pub seed: u64,
    pub version: u64,
    pub count: u64,
}
