//! Why a line of a run file says nothing.

use thiserror::Error;

/// Why a line is refused.
#[derive(Clone, Copy, PartialEq, Eq, Debug, Error)]
pub enum LineError {
    #[error("the line has no form of a run file")]
    BadForm,
    #[error("a number of the line is out of its range")]
    BadNumber,
    #[error("out of memory")]
    OutOfMemory,
}
