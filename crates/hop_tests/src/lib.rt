//! Tests of the concurrent store over its public calls: by threads, and beside the plain store.
#![tactic(auto)]

#[cfg(test)]
mod arrays;
#[cfg(test)]
mod asking;
#[cfg(test)]
mod crowds;
#[cfg(test)]
mod finds;
#[cfg(test)]
mod growing;
#[cfg(test)]
mod hashes;
#[cfg(test)]
mod jobs;
#[cfg(test)]
mod listings;
#[cfg(test)]
mod locks;
#[cfg(test)]
mod orders;
#[cfg(test)]
mod programs;
#[cfg(test)]
mod splits;
#[cfg(test)]
mod stores;
#[cfg(test)]
mod texts;
#[cfg(test)]
mod threads;
#[cfg(test)]
mod two_cpus;
#[cfg(test)]
mod worked;
