//! Where the tokens of a line begin.

ghost use Rattle.std.specs.Prelude.{IfOk, IsOkUnless};
ghost use Rattle.bpf_text.specs.Misfit.{ArePlaces};

use crate::error::TextError;
use crate::token::{blank_len, ends_at, front_at, skip_blanks};
use std::alloc::Global;

/// How many bytes of a line are before each of its tokens, and before what follows the last one:
/// a comment, or the line's end. Fails by `OutOfMemory` alone.
pub fn token_places(alloc: Global, line: &[u8]) -> Result<Vec<usize>, TextError>
    ensures places { IfOk result (λ places. ArePlaces line.now places.items) }
    ensures memory { IsOkUnless result TextError.OutOfMemory }
{
    let mut places = Vec::new(alloc);
    let mut at = blank_len(line);
    'line: while !ends_at(line, at) {
        places.push(at)?;
        let (_, len) = front_at(line, at);
        at = skip_blanks(line, at + len);
    }
    places.push(at)?;
    Ok(places)
}
