//! The commands, a line each.

ghost use Rattle.std.specs.Prelude.{◌≡◌, IfOk, string_bytes};
ghost use Rattle.bpf_buffer_debug.specs.Help.{help_text};

use std::alloc::{AllocError, Global};

/// What `help` answers.
const HELP: &str = "\
step C         one turn of CPU C, then where it stands
step C N       N turns of CPU C
steps C*N ..   N turns of CPU C, or flushes of its buffer as C!*N, then those of the next word
flush C        the oldest store that waits in CPU C's buffer reaches memory
buffer C       the stores that wait there, the oldest first
go             rounds of turns with a flush after each, up to a breakpoint or until no work is left
go C until P   turns of CPU C, up to pc P
back N         undoes the last N turns and flushes
break C P      go stops CPU C before pc P
delete C P     no more
watch NAME KEY go stops after a turn or a flush that changed the value of a map's key in memory
watch NAME I   the same of an array's index
watch NAME     the same of a variable
watch          no more
where C        where CPU C stands
regs C         its registers
show C         those that its last turn changed, and what each is as an address
list C         the instructions near its pc
last C         the last job that ended on it, and its registers before its last step
held C         the values that its run holds: key, address and bytes, as it sees them
mem C A N      N bytes from address A on, as its program sees them
map NAME       the keys of a map with their values in memory; the values of an array
keys NAME      the keys alone, or the indices
maps           the maps, arrays and variables with their sizes
vars           the variables with their numbers in memory
var NAME       one of them
jobs           how each job ended
schedule       the turns and flushes made so far, as the steps that makes them
mark N         mark N
help           these lines
";

/// The commands, a line each.
pub(crate) fn help_text(alloc: Global) -> Result<String, AllocError>
    ensures { IfOk result (λ text. string_bytes text ≡ help_text) }
{
    HELP.to_string(alloc)
}
