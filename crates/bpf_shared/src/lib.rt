//! What CPUs do to the maps that they share: the events, the histories of them that are legal, and
//! the one contract that every shared store meets.
#![tactic(auto)]

pub mod bytes;
mod events;
mod key_list;
pub mod laws;
mod shapes;
mod sharing;

pub use events::{AtomicOp, Entry, Event, MapAnswer, Size, Span, ValuePlace};
pub use key_list::KeyList;
pub use shapes::{
    ArrayShape, FIRST_ARRAY, FIRST_VALUE, MAP_AREA, MapShape, ShapeError, StoreShape,
};
pub use sharing::{Shared, Worn};
