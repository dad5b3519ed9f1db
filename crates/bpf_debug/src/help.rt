//! The commands, a line each.

ghost use Rattle.std.specs.Prelude.{◌≡◌, IfOk, string_bytes};
ghost use Rattle.bpf_debug.specs.Help.{help_text};

use std::alloc::{AllocError, Global};

/// What `help` answers.
const HELP: &str = "\
step C         one turn of CPU C, then where it stands
step C N       N turns of CPU C
steps C*N ..   N turns of CPU C, then those of the next word
go             rounds of turns, up to a breakpoint or until no work is left
go C until P   turns of CPU C, up to pc P
back N         undoes the last N turns
break C P      go stops CPU C before pc P
delete C P     no more
watch NAME KEY go stops after a turn that changed the value of a map's key
watch NAME I   the same of an array's index
watch NAME     the same of a variable
watch          no more
where C        where CPU C stands
regs C         its registers
show C         those that its last turn changed, and what each is as an address
list C         the instructions near its pc
last C         the last job that ended on it, and its registers before its last step
held C         the values that its run holds: key, address and bytes
mem C A N      N bytes from address A on, as its program may read them
map NAME       the keys of a map with their values; the values of an array
keys NAME      the keys alone, or the indices
maps           the maps, arrays and variables with their sizes
vars           the variables with their numbers
var NAME       one of them
jobs           how each job ended
schedule       the turns made so far, as the steps that makes them
mark N         mark N
help           these lines
";

/// The commands, a line each.
pub fn help_text(alloc: Global) -> Result<String, AllocError>
    ensures { IfOk result (λ text. string_bytes text ≡ help_text) }
{
    HELP.to_string(alloc)
}
