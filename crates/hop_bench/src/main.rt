//! Times the calls of a store's ports, by threads, without an interpreter.
//!
//! usage: hop_bench MIX KEYS MAX SPARE RUN THREADS MILLISECONDS MOST
//!
//! A line for each thread has its calls, those refused for want of an element, and nanoseconds.
//! Of MIX growth there are two for each: before the map grows, and meanwhile; the first thread makes
//! it grow, and reports that twice. Without words it does nothing.
#![tactic(auto)]

mod calls;
mod crew;
mod growing;
mod plan;
mod working;

use anyhow::{Result, bail};
use crew::timings;
use plan::{Mix, Plan};
use std::env;
use std::env::Env;

/// The plan that the words name, the first of them the program's name.
fn plan_of(words: &[String]) -> Result<Plan> {
    let [_, mix, keys, max, spare, run, threads, milliseconds, most] = words else {
        bail!("usage: hop_bench MIX KEYS MAX SPARE RUN THREADS MILLISECONDS MOST");
    };
    let Some(mix) = Mix::named(mix) else {
        bail!("no mix of calls has this name");
    };
    Ok(Plan {
        mix,
        keys: keys.parse()?,
        max: max.parse()?,
        spare: spare.parse()?,
        run: run.parse()?,
        threads: threads.parse()?,
        milliseconds: milliseconds.parse()?,
        most: most.parse()?,
    })
}

fn words(rt: &(impl Env + AllocGlobal)) -> Result<Vec<String>> {
    let words = env::args(rt)?.collect(rt.alloc())?;
    Ok(words)
}

fn main(rt: HostRuntime) -> Result<()> {
    let words = words(&rt)?;
    if words.len() < 2 {
        return Ok(());
    }
    let plan = plan_of(&words)?;
    for timing in &timings(&rt, rt.alloc(), plan)? {
        println!(rt;
            "{} {} {}",
            timing.calls, timing.refused, timing.nanoseconds
        )?;
    }
    Ok(())
}
