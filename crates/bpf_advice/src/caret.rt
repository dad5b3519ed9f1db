//! The place in a line at which a refusal points.

use bpf_codes::Code;
use bpf_text::{LineError, Misfit, Symbols, misfit_in, token_places};
use std::alloc::Global;

/// Whether a line is refused for a name by which it loads.
pub fn names_nothing(alloc: Global, symbols: Option<&Symbols<'_>>, line: &[u8]) -> bool {
    match misfit_in(alloc, symbols, line) {
        Ok(
            Some(
                Misfit {
                    why: LineError::UnknownName,
                    ..
                },
            ),
        ) => true,
        _ => false,
    }
}

/// The place that a refusal of a line of assembly points at, in bytes of the line. Nothing is
/// pointed at where there is no memory to find it.
pub fn caret(
    alloc: Global,
    symbols: Option<&Symbols<'_>>,
    code: Code,
    line: &[u8],
) -> Option<usize> {
    let places = token_places(alloc, line).ok()?;
    // A target is its line's last token, and after the last place nothing begins.
    let last = places.len().checked_sub(2);
    let token = match code {
        Code::A1 | Code::A2 => misfit_in(alloc, symbols, line).ok()??.token,
        Code::A3 => match misfit_in(alloc, symbols, line).ok()? {
            Some(misfit) => misfit.token,
            None => last?,
        },
        Code::A5 => last?,
        Code::A4 => 0,
        _ => return None,
    };
    places.get(token).copied()
}
