//! Jobs that are equal before the first turn, each the only one of its CPU.

ghost use Rattle.std.specs.Prelude.{◌≡◌, ◌<◌, Some, length, slice_get};

/// A job: where it runs, and which others are its equals.
#[derive(Clone, Copy)]
pub struct Peer {
    pub cpu: u8,
    pub program: usize,
    pub budget: u64,
    /// Those of one group are equal: the place of the first of them.
    pub group: usize,
    /// Whether its program can't tell it from others.
    pub blind: bool,
}

/// The peer of a place.
pub(crate) fn peer_at(peers: &[Peer], place: usize) -> Peer
    requires { place < length peers.now }
    ensures { slice_get peers.now place ≡ Some result }
{
    peers[place]
}
