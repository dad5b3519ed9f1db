//! What `ebpf` prints as lines, as JSON: an object a line.
#![tactic(auto)]

mod digits;
mod event;
mod job;
mod known;
mod line;
mod objects;
mod race;
mod reading;
mod test;
mod texts;
mod value;

pub use digits::Digits;
pub use event::{Call, Change, Event};
pub use job::{End, Job};
pub use known::Known;
pub use line::Line;
pub use objects::objects_of;
pub use race::{Place, Race, Raced};
pub use test::{Remark, Test};
pub use value::Value;
