//! The lines of `--stats`: what maps and their segments came to.

ghost use Rattle.std.specs.Prelude.{◌++◌, IfOk, OnOk, ◌≡◌, length, map, string_bytes};
ghost use Rattle.bpf_workers.specs.Stats.{AreStatsAsked, AreStatsLines, counts_told, number_word, stats_line, words_told};

use hop_map::{Closed, MapStats};
use std::alloc::{AllocError, Global};

/// Appends a number to the text, with its name.
fn push_number(alloc: Global, text: &mut String, name: &str, number: u64) -> Result<(), AllocError>
    ensures { OnOk result (string_bytes text.new
        ≡ string_bytes text.old ++ number_word name.now number) }
{
    let word = format!(in alloc; " {name}={number}")?;
    text.push_str(word.as_str())
}

/// Appends what the words of a map say to the text.
fn push_words(alloc: Global, text: &mut String, stats: &MapStats) -> Result<(), AllocError>
    ensures { OnOk result (string_bytes text.new ≡ string_bytes text.old ++ words_told stats.now) }
{
    push_number(alloc, text, "segments", u64::from(stats.segments))?;
    push_number(alloc, text, "keys", stats.keys)?;
    push_number(alloc, text, "overflow", stats.overflow)?;
    push_number(alloc, text, "free", u64::from(stats.free))?;
    Ok(())
}

/// Appends what its ports counted to the text.
fn push_counts(alloc: Global, text: &mut String, stats: &MapStats) -> Result<(), AllocError>
    ensures { OnOk result (string_bytes text.new ≡ string_bytes text.old ++ counts_told stats.now) }
{
    push_number(alloc, text, "splits", stats.splits)?;
    push_number(alloc, text, "disturbed", stats.disturbed)?;
    push_number(alloc, text, "locks", stats.locks)?;
    Ok(())
}

/// Appends the line of a map to the text.
fn push_stats(
    alloc: Global,
    text: &mut String,
    name: &str,
    stats: &MapStats,
) -> Result<(), AllocError>
    ensures { OnOk result (string_bytes text.new
        ≡ string_bytes text.old ++ stats_line name.now stats.now) }
{
    let head = format!(in alloc; "map {name}")?;
    text.push_str(head.as_str())?;
    push_words(alloc, text, stats)?;
    push_counts(alloc, text, stats)?;
    text.push_str("\n")?;
    Ok(())
}

/// The lines of all maps in the order of their numbers. They have the first of these names.
fn list_stats(alloc: Global, closed: &Closed, names: &[String]) -> Result<String, AllocError>
    ensures { IfOk result (λ text. AreStatsLines closed.now (map string_bytes names.now)
        (length names.now) (string_bytes text)) }
{
    let mut text = String::new(alloc);
    for map in 0..names.len() {
        let Some(stats) = closed.stats(map as u64) else {
            continue;
        };
        push_stats(alloc, &mut text, names[map].as_str(), &stats)?;
    }
    Ok(text)
}

/// The lines of the maps' numbers, where they are asked for.
pub(crate) fn asked_stats(
    alloc: Global,
    closed: &Closed,
    names: &[String],
    stats: bool,
) -> Result<String, AllocError>
    ensures { IfOk result (λ text. AreStatsAsked stats closed.now (map string_bytes names.now)
        (string_bytes text)) }
{
    if stats {
        list_stats(alloc, closed, names)
    } else {
        Ok(String::new(alloc))
    }
}
