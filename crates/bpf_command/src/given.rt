//! The texts that options and arguments are given, of which one may have several.

ghost use Rattle.std.specs.Prelude.{◌≡◌, codes, IfOk, IsOkUnless, map, option_map, string_bytes};
ghost use Rattle.std.specs.List.{list_any};
ghost use Rattle.std.specs.Str.{bytes_eq};
ghost use Rattle.clap.specs.Words.{all_of, found_of, rows_of};
ghost use Rattle.bpf_command.specs.CommandLine.{given_texts, names_input, names_several};

use crate::command_line::CommandError;
use clap::ArgMatches;
use std::alloc::Global;

/// The texts that an option or an argument is given, if it is given.
#[tactic(auto, using(crate::proofs::GivenTexts::texts_in_rows))]
fn given<'m, 'a>(options: &'m ArgMatches<'a>, id: &str) -> Option<&'m [&'a str]>
    ensures { option_map (λ s. map (λ t. t.now) s.now) result
        ≡ all_of id.now (rows_of (found_of options.now)) }
{
    options.get_raw(id)
}

/// Whether several files are named.
#[tactic(auto, using(crate::proofs::GivenTexts::some_texts, crate::proofs::GivenTexts::no_texts))]
pub(crate) fn names_several(options: &ArgMatches) -> bool
    ensures { result ≡ names_several (rows_of (found_of options.now)) }
{
    match given(options, "file") {
        Some(names) => names.len() > 1,
        None => false,
    }
}

/// Whether standard input is named.
fn has_dash(names: &[&str]) -> bool
    ensures { result ≡ list_any (λ name. bytes_eq name.now (codes "-")) names.now }
{
    names.iter().any(|name| *name == "-")
}

/// Whether standard input is named among the files.
#[tactic(auto, using(crate::proofs::GivenTexts::dash_given, crate::proofs::GivenTexts::no_dash))]
pub(crate) fn names_input(options: &ArgMatches) -> bool
    ensures { result ≡ names_input (rows_of (found_of options.now)) }
{
    match given(options, "file") {
        Some(names) => has_dash(names),
        None => false,
    }
}

/// These texts in memory of their own.
fn copies(alloc: Global, texts: &[&str]) -> Result<Vec<String>, CommandError>
    ensures same { IfOk result (λ copies. map string_bytes copies.items
        ≡ map (λ t. t.now) texts.now) }
    ensures memory { IsOkUnless result CommandError.OutOfMemory }
{
    let mut copies = Vec::new(alloc);
    for text in texts {
        let Ok(copy) = text.to_string(alloc) else {
            return Err(CommandError::OutOfMemory);
        };
        if copies.push(copy).is_err() {
            return Err(CommandError::OutOfMemory);
        }
    }
    Ok(copies)
}

/// The texts that an option or an argument is given.
pub(crate) fn given_texts(
    alloc: Global,
    options: &ArgMatches,
    id: &str,
) -> Result<Vec<String>, CommandError>
    ensures named { IfOk result (λ texts. map string_bytes texts.items
        ≡ given_texts id.now (rows_of (found_of options.now))) }
    ensures memory { IsOkUnless result CommandError.OutOfMemory }
{
    match given(options, id) {
        Some(texts) => copies(alloc, texts),
        None => Ok(Vec::new(alloc)),
    }
}
