//! What worker threads print is one of what turns lead to.
#![tactic(auto)]

pub mod laws;
