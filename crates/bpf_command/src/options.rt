//! The command line as `clap` knows it.

ghost use Rattle.std.specs.Prelude.{◌≡◌, false, IfOk};
ghost use Rattle.clap.specs.Words.{app_of, rule_of, shape_of};
ghost use Rattle.clap.specs.declared.builder.command.Command.TheViews.{out-Command as fields_of};
ghost use Rattle.bpf_command.specs.CommandLine.{all_states, asm, asm_shows, bare, budget, check, code_rule, context, debug, debug_options, disasm, ebpf, echo, events, expand, expand_files, expand_options, explain, explained, explore, explore_options, file, files, first, for_files, hex, hex_options, into, judged, json, keys, lenient, limit, listing, maps, one_program, packets, parts, patient, pc, progress, races, run, run_lists, run_options, run_shows, runs, schedule, searching, seen, show, state_files, states, stats, strict, sync, workers, working, x86};

use crate::command::{MAX_LIMIT, MAX_PARTS, MAX_WORKERS};
use bpf_base::MAX_BUDGET;
use clap::{Arg, ArgAction, Command, value_parser};
use std::alloc::{AllocError, Global};

const HEX_NOTES: &str = "\
Prints r0=N, fault Fk at PC or out of budget at PC, where a PC counts words of 8 bytes from 0.
R1 holds the address of the context. Blanks and line ends between digits are passed over.

For example
  $ echo 'b700000005000000 9500000000000000' | ebpf hex
  r0=5

Exit status:
  0  r0 is printed
  1  the digits or the program are refused, or the output failed
  2  the command line is at fault
  3  the program ended in a fault or out of budget";

const ASM_NOTES: &str = "\
For example
  $ printf 'r0 = 5\\nexit\\n' | ebpf asm
  b700000005000000
  9500000000000000
  $ printf 'r0 = 5\\nexit\\n' | ebpf asm --listing
  r0 = 5 ; 0: b700000005000000
  exit ; 1: 9500000000000000
  $ printf 'r0 = 5\\nexit\\n' | ebpf asm --run
  r0=5

What --listing and 'ebpf disasm --pc' print is assembly text again. A pc counts words from 0. With
--run the answer is that of 'ebpf hex' to the words; --budget and --ctx go beside it alone, and
--listing doesn't.

Exit status:
  0  the words or the text are printed, or with --run r0 is
  1  the text is refused, or the output failed
  2  the command line is at fault
  3  with --run: the program ended in a fault or out of budget";

const DISASM_NOTES: &str = "\
For example
  $ echo 'b700000005000000 9500000000000000' | ebpf disasm
  r0 = 5
  exit
  $ echo 'b700000005000000 9500000000000000' | ebpf disasm --pc
  r0 = 5 ; 0: b700000005000000
  exit ; 1: 9500000000000000

A pc counts words of 8 bytes from 0.

Exit status:
  0  the text is printed
  1  the digits or the words are refused, or the output failed
  2  the command line is at fault";

const RUN_NOTES: &str = "\
Each CPU that has work makes one turn, in rising order, until none has work. With --by the turns of
a schedule come first, N turns of CPU C a word C*N; those of a CPU without work change nothing. With
--workers the CPUs run at once, each its jobs in order, and what they do to shared values mixes as
it comes. Then a line a job is printed: job J cpu C r0=N, fault Fk at PC or out of budget at PC.
With --keys each CPU lists the keys of all maps with the end of its last job, each list as they were
at one moment, and after the lines of jobs comes one a list: keys cpu C NAME and the keys in hex.
With --events all that CPUs do at the maps comes first, a line an event: cpu C job J pc P, what is
done, and after = the answer. With --packets a line comes last for each job that has a packet and
exits, packet J DIGITS: the bytes that it leaves there, in hex. With --check the answer is that of
'ebpf check', for this order of turns alone. None of these three goes beside another or beside
--workers.

With --x86 a CPU's plain stores to values of maps wait in its store buffer, and its own loads alone find
them. A schedule has words C!*N too: N flushes of CPU C, each of its oldest store. In a round each CPU
makes its turn and then a flush. A flush where nothing waits changes nothing. With --events a store's
line is where the CPU makes it, and begins to wait; a line cpu C flush store .. is where it reaches
memory. --x86 goes beside none of --workers, --packets, --check and --keys.

With --workers and --stats a line a map is printed on standard error: its segments, its keys, those on
overflow lists and its free elements, as it is left; and how many segments were split, readings were
disturbed and lookups took a lock. Standard output stays the same.

For example
  $ printf 'ebpf-run 1\\nprog a\\nr0 = 5\\nexit\\nend\\njob 0 a\\n' | ebpf run
  job 0 cpu 0 r0=5
  $ ebpf run --by '1*10' examples/first-insert.run
  job 0 cpu 0 r0=18446744073709551599
  job 1 cpu 1 r0=0
  $ ebpf run --x86 --by '0*3 1*3' examples/store-buffering.run
  job 0 cpu 0 r0=0
  job 1 cpu 1 r0=0

Exit status:
  0  the jobs are printed, and all ended with an r0; with --check: all tests are ok
  1  the run file is refused, or the output failed
  2  the command line is at fault
  3  a job ended in a fault or out of budget; with --check: a test isn't ok";

const EXPLORE_NOTES: &str = "\
Prints each outcome once, in the order of its bytes: what 'run --maps' prints, after a line 'by'
with a schedule that leads there, N turns of CPU C a word C*N. Then a line says whether these are
all, whatever the order of turns, how many they are, and how many states were kept: 'not all' where
more than --limit were kept. With --show K the K-th of them is printed alone, by its schedule, as
'run --events --maps --by' does, and 'not all' after it where more than --limit states were kept;
where there are fewer outcomes, that is printed with status 1.

With --patient outcomes are those in which no budget is used up: for CPUs that wait for each other.
After them comes a line 'hung by' for each state from which no turns lead to an outcome, the first
on its way, with a schedule that leads there; and 'budgets can run out' where some schedule uses a
budget up, or 'budgets may run out' where that isn't known.

Before the last line comes 'threads may run out of elements' where 'run --workers' may answer
-ENOMEM though turns find an element, and 'threads may see keys or values in part' where a helper
may read a key or a value from a map's value, which threads do byte by byte.

With --races the data races of all these orders are printed in place of outcomes: two CPUs whose
next steps touch one byte of a value, at least one to write it, and not both by an atomic operation.
A line has the CPUs, each with its program's number and its pc, the map and the key ('deleted' where
none leads to the value), and a schedule that leads there; the last one says whether these are all.
--sync NAME leaves out races for values of a map, --sync NAME+AT:SIZE those for SIZE bytes of them, from
the byte AT on, alone. --sync goes beside --races alone, and --show doesn't.

All orders are those of sequential consistency: a load sees the newest store. Processors show more.
With --x86 CPUs have store buffers, as those of x86 have: a plain store to a value waits there, and its
own CPU's loads alone find it. Then every order of turns and of flushes is made, each flush of a CPU's
oldest store, and schedules have words C!*N too, N flushes of CPU C, as 'run --x86 --by' takes them.
With --show K all that happens is printed as by 'run --x86 --events'. --x86 goes beside none of --races,
--sync and --workers.

A state isn't kept that differs from a kept one only in registers which are written before they are
read; nor, in a file without hash maps, one that differs in which of equal CPUs is how far, unless with
--x86. With --all-states both are: what is found is the same, of more states.

Where many states are left, their turns are made on as many threads as there are processors, 16 at most,
or on those of --workers. What is printed is the same, byte for byte, for any number of them, unless
memory is refused.

Each time that 131072 more states are done a line on standard error shows how far the search is, where
that is a terminal or with --progress: 'N states, N to go, N MB', how many are kept, from how many of
them turns are still to be made, and about how much memory they take. Standard output stays the same.

For example
  $ ebpf explore examples/first-insert.run
  by 0*11 1*11
  job 0 cpu 0 r0=0
  job 1 cpu 1 r0=18446744073709551599
  map winner 00000000=0000000000000000
  by 0*9 1*10 0*2 1*1
  job 0 cpu 0 r0=18446744073709551599
  job 1 cpu 1 r0=0
  map winner 00000000=0100000000000000
  all: 2 outcomes, 20 states
  $ ebpf explore --races examples/lost-additions.run
  race cpu 0 prog 0 pc 5 cpu 1 prog 0 pc 3 var counter by 0*4 1*2
  race cpu 0 prog 0 pc 5 cpu 1 prog 0 pc 5 var counter by 0*4 1*4
  race cpu 0 prog 0 pc 3 cpu 1 prog 0 pc 5 var counter by 0*7 1*4
  all: 3 races

Exit status:
  0  all outcomes are printed, and in each all jobs ended with an r0; with --races: there is no race
  1  the run file is refused, there is no outcome of that number, or the output failed
  2  the command line is at fault
  3  all outcomes are printed, and in one a job ended in a fault or out of budget; with --races:
     all races are printed, and there is one
  4  the search met its limit: not all outcomes are printed, or not all races";

const CHECK_NOTES: &str = "\
A comment of the run file says what is expected: '; always LINE', '; sometimes LINE' or '; never
LINE', where LINE is one that 'run --maps' prints. Each is a test, by every order of turns: 'ok', or
'not ok' and on a line '# by' a schedule that shows it, which 'run --by' takes, or why it can't be
decided. The form is TAP; the exit status is 3 where an outcome isn't as expected, and 4 where all that
was decided is, but more than --limit states were kept.

In place of LINE there may be 'fault', that a job ended in one; 'r0 of job J < N'; or 'map NAME[K]+AT of
u64 = N', the number at a place of the value that key K has, K a number too; by =, !=, <, <=, > or >=,
and of u8, u16, u32 or u64. Any of these, and lines, are joined by 'and', or by 'or'.

With --patient outcomes are those in which no budget is used up, and the first test is 'every schedule
can end': 'not ok' with a line '# hung by' for each state from which no turns lead to an outcome.
'; always ends' asks the same, and '; sometimes hung' that there is such a state.

'; never race' expects that there is no data race, and '; sometimes race' that there is one, by the
search of 'explore --races': 'not ok' with a line '# race' for each, or '# there is no race'.

With --x86 outcomes are those that 'ebpf explore --x86' finds, and with --patient beside it those of
'ebpf explore --x86 --patient'. What begins with 'always-x86', 'sometimes-x86' or 'never-x86' is a test
with --x86 alone: without it a comment '# only --x86 tests N more' counts such expectations. 'race' has
no such form.

A comment '; check patient', '; check limit N' or '; check patient limit N' asks for --patient or the
limit where the command line doesn't; a limit that it gives goes before that of the file.

A comment of two words or more that begins with 'always', 'sometimes' or 'never', or a word one edit
away, and can't be expected of this file, is refused: L11. So are 'always ends' and
'sometimes hung' without --patient, and 'check limit' without its number. --lenient passes such
comments over.

With --states a comment '# N states' comes before a file's tests, the count that 'ebpf explore' prints.

The tests of several files are one list: their numbers go on, and each names its file. A file that is
refused has a line 'refused CODE - FILE' and no test. The exit status is that of the worst file, where
1 is worse than 4, 4 than 3, and 3 than 0. '-' and --explain go with one FILE alone. How far a search
is, is printed as by 'ebpf explore', and --all-states and --workers are as there.

For example
  $ printf '; never job 0 cpu 0 r0=1\\nebpf-run 1\\nprog a\\nr0 = 5\\nexit\\nend\\njob 0 a\\n' | ebpf check
  1..1
  ok 1 - never job 0 cpu 0 r0=1

Exit status:
  0  all tests are ok
  1  the run file or a comment is refused, or the output failed
  2  the command line is at fault
  3  a test isn't ok
  4  the search met its limit: not all tests could be decided, and those that could are ok";

const EXPAND_NOTES: &str = "\
Each line of standard input is a state, in lower case hex as --first prints the first one; an empty
line is passed over. The states that the CPUs' turns lead to from it are printed by rising CPU, a line
each: 'state HEX by C*N', where CPU C made N turns, as 'run --by' takes them. Where no CPU has work a
line 'report HEX' is printed: the bytes of the lines that 'run --maps' prints. A line that is no state
of FILE is answered 'refused X1 LINE', LINE counted from 1, and the next one is read. Each line is
answered before more is read. Where standard input is the run file itself, --first alone is of use.

With --patient states that differ only in the steps that are left of budgets count as one. With
--races, lines 'race cpu C prog N pc P cpu D prog M pc Q map NAME KEY' come before a state's others,
by rising pair of CPUs: the next steps of the two, at these pcs of the programs of these numbers, touch
one byte of that value, one of them writes it, and not both are atomic. KEY is 'deleted' where the
value has left its map.

With --x86 CPUs have store buffers, and a state is one of --first --x86 or of what is printed with --x86.
The flush of a CPU's oldest store that waits comes after its turn: 'state HEX by C!*1'. Where no CPU has
work nothing waits. There is no --races with it.

With --into states are in files: of each, four bytes, the lowest first, say how many bytes it has, and
these follow. What the CPUs' turns lead to from the states of STATES, or from the first state where no
file is named, is written to files 0 to N-1 of FOLDER, each state once, by a hash of its bytes, so that
it has the same number in each call of the same N. States that were read are left out, and so are those
of the files of --seen. For each state of file K, in order, file K.from has three numbers of eight bytes,
the lowest first: how many states were read before the one that leads to it, the CPU, and how many turns
the CPU makes after its first. FOLDER has to be there, and no file is written over. Then each report is
printed once, 'report HEX of S', where S states were read before the first that has it, and at the end
'N states, M new'. A file that can't be read or made is refused by 'refused L7 - NAME', one that has more
than 16,777,216 bytes by L10, one whose end is cut off by 'refused X1 - NAME', and what is no state by
'refused X1 NUMBER - NAME', NUMBER counted from 1. What was written before a refusal stays.

For example
  $ ebpf expand --first examples/first-insert.run > first
  $ ebpf expand examples/first-insert.run < first | cut -d ' ' -f 1
  state
  state
  $ echo 00 | ebpf expand examples/lost-update.run
  refused X1 1

Exit status:
  0  every line is answered
  1  the run file or a line is refused, or the output failed
  2  the command line is at fault";

const EXPLAIN_NOTES: &str = "\
Nothing is read. The code is what follows 'refused' or 'fault', as in
  $ ebpf explain E1
  E1: a program of no instructions.

      $ printf '' | ebpf hex
      refused E1

  A program has 1 to 65,536 words. In a run file: lines of assembly before `end`.

Exit status:
  0  the page is printed
  1  the output failed, or there was no memory for the page
  2  the command line is at fault, or there is no such name";

const DEBUG_NOTES: &str = "\
Commands come after the run file and a line '---'. A FILE without that line has them from standard
input, each answered before more is read; at a terminal 'quit' or Ctrl-D leaves. tools/debug FILE (ebpf-debug)
is the same with line editing, short commands, and faults explained where they come.

The commands, one a line, with a CPU C, a pc P, an address A and a number N of bytes (1 to 256):
  break C P   'go' stops before C executes the instruction at P
  delete C P  takes that breakpoint back
  step C      one turn of C
  step C N    N turns of C, 1 to 1000000
  steps C*N ..  the turns of a schedule: N turns of C, then those of the next word
  go          rounds of turns, up to a breakpoint or until no CPU has work
  go C until P  turns of C alone, up to the pc P or until it has no work; step C until P is the same
  watch NAME KEY  'go' also stops after a turn that changed that value, and says whose it was
  watch NAME I  the same of an array's values of that index; watch NAME the same of a variable
  watch       no more
  regs C      the registers
  where C     the job in hand, the pc and the depth of calls
  mem C A N   bytes in hex, as C's program may read them, or 'unreadable'
  held C      the values that C's run holds: map, address and bytes
  show C      the registers that C's last turn changed, and what each is as an address
  list C      the instructions near the pc of C
  last C      the last job that ended on C, and its registers before its last step
  map NAME    the keys of a map with their values, KEY=VALUE in hex; the values of an array
  keys NAME   the keys alone, or the indices
  schedule    the turns made so far, as the 'steps' that makes them
  maps        the maps, arrays and variables with their sizes, as the run file has them
  vars        the variables with their numbers; var NAME one of them
  jobs        the jobs, with how each ended, or 'open'
  mark N      prints 'mark N', the end of the answers before it
  back N      undoes the last N turns, 1 to 1000000; breakpoints stay
  help        the commands, a line each

With --x86 CPUs have store buffers, as those of x86 have: 'steps' has words C!*N too, N flushes of CPU C,
'flush C' lets the oldest store that waits reach memory, 'buffer C' prints what waits, 'go' flushes after
each turn, and 'mem' and 'held' show what the CPU sees. The command 'help' lists which there are then.

A job that ends prints its line. A command that is refused prints 'refused' and a code, changes
nothing, and the next one is read. The input is a run file, a line '---' and the commands, as in
  $ printf 'ebpf-run 1\\nprog a\\nr0 = 5\\nexit\\nend\\njob 0 a\\n---\\nstep 0\\ngo\\n' | ebpf debug
  cpu 0 job 0 pc 1 depth 1
  job 0 cpu 0 r0=5
  done
With --echo each line that isn't empty comes before its answer, after '> ': > step 0

Exit status:
  0  the answers are printed, and no job has ended in a fault or out of budget
  1  the run file is refused, with --strict also where a command is, or the output failed
  2  the command line is at fault
  3  a job has ended in a fault or out of budget";

const EBPF_NOTES: &str = "\
Input is a FILE or standard input, read whole first, and all answers go to standard output, as in
  $ echo 'b700000005000000 9500000000000000' | ebpf hex
  r0=5
'ebpf help COMMAND' is 'ebpf COMMAND --help', and 'ebpf version' is 'ebpf --version'.

Exit status:
  0  the answer is printed
  1  the input is refused, and the refusal printed, or the output failed
  2  the command line is at fault
  3  the program, or a job, ended in a fault or out of budget; of check: a test isn't ok
  4  the search met its limit: not all outcomes or races are printed, or not all tests could be decided";

/// Where a command's input is read from.
fn file_argument<'a>(alloc: Global) -> Arg<'a>
    ensures rule { rule_of result ≡ file }
    ensures own { result.global ≡ false }
{
    Arg::new(alloc, "file").value_name("FILE").help(
        "The file to read; without one, or where it is -, standard input",
    )
}

/// Where a command's input is read from that may be asked of several.
fn files_argument<'a>(alloc: Global) -> Arg<'a>
    ensures rule { rule_of result ≡ files }
    ensures own { result.global ≡ false }
{
    Arg::new(alloc, "file")
        .value_name("FILE")
        .action(ArgAction::Append)
        .help("The files to read; without one, or where it is -, standard input")
}

fn budget_option<'a>(alloc: Global) -> Arg<'a>
    ensures rule { rule_of result ≡ budget }
    ensures own { result.global ≡ false }
{
    Arg::new(alloc, "budget")
        .long("budget")
        .value_name("N")
        .value_parser(value_parser!(u64).range(0..=MAX_BUDGET as i64))
        .default_value("1000000")
        .help("The greatest number of steps, 0 to 1000000000")
}

fn context_option<'a>(alloc: Global) -> Arg<'a>
    ensures rule { rule_of result ≡ context }
    ensures own { result.global ≡ false }
{
    Arg::new(alloc, "ctx").long("ctx").value_name("HEX").help(
        "The bytes of the context, at most 4096, two digits a byte",
    )
}

fn explain_option<'a>(alloc: Global) -> Arg<'a>
    ensures rule { rule_of result ≡ explained }
    ensures own { result.global ≡ false }
{
    Arg::new(alloc, "explain")
        .long("explain")
        .action(ArgAction::SetTrue)
        .help("Explains a refusal or a fault on standard error")
}

/// The command `hex` before its file.
fn hex_options<'a>(alloc: Global) -> Result<Command<'a>, AllocError>
    ensures shape { IfOk result (λ c. shape_of c ≡ hex_options.top) }
    ensures own { IfOk result (λ c. (fields_of c).has_globals ≡ false) }
{
    Command::new(alloc, "hex")
        .about("Runs a program given as hex digits, over no maps")
        .after_help(HEX_NOTES)
        .arg(explain_option(alloc))?
        .arg(budget_option(alloc))?
        .arg(context_option(alloc))
}

fn hex_command<'a>(alloc: Global) -> Result<Command<'a>, AllocError>
    ensures shape { IfOk result (λ c. shape_of c ≡ hex.top) }
    ensures own { IfOk result (λ c. (fields_of c).has_globals ≡ false) }
{
    hex_options(alloc)?.arg(file_argument(alloc))
}

fn listing_option<'a>(alloc: Global) -> Arg<'a>
    ensures rule { rule_of result ≡ listing }
    ensures own { result.global ≡ false }
{
    Arg::new(alloc, "listing")
        .long("listing")
        .action(ArgAction::SetTrue)
        .help("Prints the text with the pc and the words of each line after it, as a comment")
}

fn pc_option<'a>(alloc: Global) -> Arg<'a>
    ensures rule { rule_of result ≡ pc }
    ensures own { result.global ≡ false }
{
    Arg::new(alloc, "pc")
        .long("pc")
        .action(ArgAction::SetTrue)
        .help("Prints the pc and the words of each line after it, as a comment")
}

fn runs_option<'a>(alloc: Global) -> Arg<'a>
    ensures rule { rule_of result ≡ runs }
    ensures own { result.global ≡ false }
{
    Arg::new(alloc, "run")
        .long("run")
        .action(ArgAction::SetTrue)
        .help("Runs the words in place of printing them, as 'ebpf hex' does")
}

/// The command `asm` with what it is to print.
fn asm_shows<'a>(alloc: Global) -> Result<Command<'a>, AllocError>
    ensures shape { IfOk result (λ c. shape_of c ≡ asm_shows.top) }
    ensures own { IfOk result (λ c. (fields_of c).has_globals ≡ false) }
{
    Command::new(alloc, "asm")
        .about("Turns assembly text into words, one line of 16 hex digits a word")
        .after_help(ASM_NOTES)
        .arg(explain_option(alloc))?
        .arg(listing_option(alloc))?
        .arg(runs_option(alloc))
}

fn asm_command<'a>(alloc: Global) -> Result<Command<'a>, AllocError>
    ensures shape { IfOk result (λ c. shape_of c ≡ asm.top) }
    ensures own { IfOk result (λ c. (fields_of c).has_globals ≡ false) }
{
    asm_shows(alloc)?
        .arg(budget_option(alloc))?
        .arg(context_option(alloc))?
        .arg(file_argument(alloc))
}

fn disasm_command<'a>(alloc: Global) -> Result<Command<'a>, AllocError>
    ensures shape { IfOk result (λ c. shape_of c ≡ disasm.top) }
    ensures own { IfOk result (λ c. (fields_of c).has_globals ≡ false) }
{
    Command::new(alloc, "disasm")
        .about("Turns words given as hex digits into assembly text")
        .after_help(DISASM_NOTES)
        .arg(explain_option(alloc))?
        .arg(pc_option(alloc))?
        .arg(file_argument(alloc))
}

fn keys_option<'a>(alloc: Global) -> Arg<'a>
    ensures rule { rule_of result ≡ keys }
    ensures own { result.global ≡ false }
{
    Arg::new(alloc, "keys")
        .long("keys")
        .action(ArgAction::SetTrue)
        .help("Lists each map's keys as each CPU's last job ends: keys cpu C NAME KEY ..")
}

fn maps_option<'a>(alloc: Global) -> Arg<'a>
    ensures rule { rule_of result ≡ maps }
    ensures own { result.global ≡ false }
{
    Arg::new(alloc, "maps")
        .long("maps")
        .action(ArgAction::SetTrue)
        .help("Prints the maps afterwards, a line a key: map NAME KEY=VALUE")
}

fn schedule_option<'a>(alloc: Global) -> Arg<'a>
    ensures rule { rule_of result ≡ schedule }
    ensures own { result.global ≡ false }
{
    Arg::new(alloc, "by").long("by").value_name("S").help(
        "Makes the turns of a schedule before the rounds, as '0*9 1*10 0*2'",
    )
}

/// The option `--workers`, with what it is for.
fn threads_option<'a>(alloc: Global, help: &'static str) -> Arg<'a>
    ensures rule { rule_of result ≡ workers }
    ensures own { result.global ≡ false }
{
    Arg::new(alloc, "workers")
        .long("workers")
        .value_name("N")
        .value_parser(value_parser!(u64).range(1..=MAX_WORKERS as i64))
        .help(help)
}

/// The option `--workers` of `run`.
fn workers_option<'a>(alloc: Global) -> Arg<'a>
    ensures rule { rule_of result ≡ workers }
    ensures own { result.global ≡ false }
{
    threads_option(
        alloc,
        "Runs the CPUs at once, by 1 to 16 threads, over a store that they share",
    )
}

fn stats_option<'a>(alloc: Global) -> Arg<'a>
    ensures rule { rule_of result ≡ stats }
    ensures own { result.global ≡ false }
{
    Arg::new(alloc, "stats")
        .long("stats")
        .action(ArgAction::SetTrue)
        .help("Prints on standard error the maps' numbers as workers left them, a line a map")
}

fn events_option<'a>(alloc: Global) -> Arg<'a>
    ensures rule { rule_of result ≡ events }
    ensures own { result.global ≡ false }
{
    Arg::new(alloc, "events")
        .long("events")
        .action(ArgAction::SetTrue)
        .help("Prints all that CPUs do at the maps first, a line an event")
}

fn packets_option<'a>(alloc: Global) -> Arg<'a>
    ensures rule { rule_of result ≡ packets }
    ensures own { result.global ≡ false }
{
    Arg::new(alloc, "packets")
        .long("packets")
        .action(ArgAction::SetTrue)
        .help("Prints afterwards what jobs that exit leave in their packets: packet J DIGITS")
}

fn judged_option<'a>(alloc: Global) -> Arg<'a>
    ensures rule { rule_of result ≡ judged }
    ensures own { result.global ≡ false }
{
    Arg::new(alloc, "check")
        .long("check")
        .action(ArgAction::SetTrue)
        .help("Prints whether the outcome is as the file's comments expect, as 'ebpf check' does")
}

fn x86_option<'a>(alloc: Global) -> Arg<'a>
    ensures rule { rule_of result ≡ x86 }
    ensures own { result.global ≡ false }
{
    Arg::new(alloc, "x86")
        .long("x86")
        .action(ArgAction::SetTrue)
        .help("Gives CPUs store buffers, as on x86; in --by 0! is a flush of that of CPU 0")
}

/// The command `run` with the lists that it is to print.
fn run_lists<'a>(alloc: Global) -> Result<Command<'a>, AllocError>
    ensures shape { IfOk result (λ c. shape_of c ≡ run_lists.top) }
    ensures own { IfOk result (λ c. (fields_of c).has_globals ≡ false) }
{
    Command::new(alloc, "run")
        .about("Runs the jobs of a run file, over its maps")
        .after_help(RUN_NOTES)
        .arg(explain_option(alloc))?
        .arg(keys_option(alloc))?
        .arg(maps_option(alloc))
}

/// The command `run` with what it is to print.
fn run_shows<'a>(alloc: Global) -> Result<Command<'a>, AllocError>
    ensures shape { IfOk result (λ c. shape_of c ≡ run_shows.top) }
    ensures own { IfOk result (λ c. (fields_of c).has_globals ≡ false) }
{
    run_lists(alloc)?
        .arg(events_option(alloc))?
        .arg(packets_option(alloc))?
        .arg(judged_option(alloc))
}

/// The command `run` before its file.
fn run_options<'a>(alloc: Global) -> Result<Command<'a>, AllocError>
    ensures shape { IfOk result (λ c. shape_of c ≡ run_options.top) }
    ensures own { IfOk result (λ c. (fields_of c).has_globals ≡ false) }
{
    run_shows(alloc)?
        .arg(schedule_option(alloc))?
        .arg(workers_option(alloc))?
        .arg(stats_option(alloc))
}

fn run_command<'a>(alloc: Global) -> Result<Command<'a>, AllocError>
    ensures shape { IfOk result (λ c. shape_of c ≡ run.top) }
    ensures own { IfOk result (λ c. (fields_of c).has_globals ≡ false) }
{
    run_options(alloc)?
        .arg(x86_option(alloc))?
        .arg(json_option(alloc))?
        .arg(file_argument(alloc))
}

fn json_option<'a>(alloc: Global) -> Arg<'a>
    ensures rule { rule_of result ≡ json }
    ensures own { result.global ≡ false }
{
    Arg::new(alloc, "json")
        .long("json")
        .action(ArgAction::SetTrue)
        .help("Prints a JSON object in place of each line")
}

fn limit_option<'a>(alloc: Global) -> Arg<'a>
    ensures rule { rule_of result ≡ limit }
    ensures own { result.global ≡ false }
{
    Arg::new(alloc, "limit")
        .long("limit")
        .value_name("N")
        .value_parser(value_parser!(u64).range(0..=MAX_LIMIT as i64))
        .default_value("1000000")
        .help("Ends the search once more states than this are kept, 0 to 1000000000")
}

fn patient_option<'a>(alloc: Global) -> Arg<'a>
    ensures rule { rule_of result ≡ patient }
    ensures own { result.global ≡ false }
{
    Arg::new(alloc, "patient")
        .long("patient")
        .action(ArgAction::SetTrue)
        .help("Looks for outcomes in which no budget is used up, as where CPUs wait for others")
}

fn show_option<'a>(alloc: Global) -> Arg<'a>
    ensures rule { rule_of result ≡ show }
    ensures own { result.global ≡ false }
{
    Arg::new(alloc, "show")
        .long("show")
        .value_name("K")
        .value_parser(value_parser!(u64).range(1..=MAX_LIMIT as i64))
        .help("Prints what happens on the way to the K-th outcome, and no other outcome")
}

fn progress_option<'a>(alloc: Global) -> Arg<'a>
    ensures rule { rule_of result ≡ progress }
    ensures own { result.global ≡ false }
{
    Arg::new(alloc, "progress")
        .long("progress")
        .action(ArgAction::SetTrue)
        .help("Prints on standard error how far the search is, also where that is no terminal")
}

/// The option `--x86` of a command that searches.
fn buffers_option<'a>(alloc: Global) -> Arg<'a>
    ensures rule { rule_of result ≡ x86 }
    ensures own { result.global ≡ false }
{
    Arg::new(alloc, "x86")
        .long("x86")
        .action(ArgAction::SetTrue)
        .help("Gives CPUs store buffers, as on x86: schedules have flushes of them too")
}

fn all_states_option<'a>(alloc: Global) -> Arg<'a>
    ensures rule { rule_of result ≡ all_states }
    ensures own { result.global ≡ false }
{
    Arg::new(alloc, "all-states")
        .long("all-states")
        .action(ArgAction::SetTrue)
        .help("Keeps states too that count as one with another, since the same is found from both")
}

/// The option `--workers` of a command that searches.
fn search_workers_option<'a>(alloc: Global) -> Arg<'a>
    ensures rule { rule_of result ≡ workers }
    ensures own { result.global ≡ false }
{
    threads_option(
        alloc,
        "Makes turns on N threads, 1 to 16; without it on as many as there are processors",
    )
}

/// A command that searches, with the options of a search.
fn searching<'a>(alloc: Global, name: &'static str) -> Result<Command<'a>, AllocError>
    ensures shape { IfOk result (λ c. shape_of c ≡ (searching name.now).top) }
    ensures own { IfOk result (λ c. (fields_of c).has_globals ≡ false) }
{
    Command::new(alloc, name)
        .arg(explain_option(alloc))?
        .arg(patient_option(alloc))?
        .arg(json_option(alloc))?
        .arg(progress_option(alloc))?
        .arg(buffers_option(alloc))?
        .arg(all_states_option(alloc))?
        .arg(search_workers_option(alloc))
}

fn races_option<'a>(alloc: Global) -> Arg<'a>
    ensures rule { rule_of result ≡ races }
    ensures own { result.global ≡ false }
{
    Arg::new(alloc, "races")
        .long("races")
        .action(ArgAction::SetTrue)
        .help("Prints the data races of all orders of turns in place of the outcomes")
}

fn sync_option<'a>(alloc: Global) -> Arg<'a>
    ensures rule { rule_of result ≡ sync }
    ensures own { result.global ≡ false }
{
    Arg::new(alloc, "sync")
        .long("sync")
        .value_name("NAME")
        .action(ArgAction::Append)
        .help(
            "With --races: leaves out races for a map's values (or NAME+AT:SIZE); may be given several times",
        )
}

/// The command `explore` before the outcome that is shown and its file.
fn explore_options<'a>(alloc: Global) -> Result<Command<'a>, AllocError>
    ensures shape { IfOk result (λ c. shape_of c ≡ explore_options.top) }
    ensures own { IfOk result (λ c. (fields_of c).has_globals ≡ false) }
{
    searching(alloc, "explore")?
        .about("Finds all that the jobs of a run file can reach, by every order of turns")
        .after_help(EXPLORE_NOTES)
        .arg(races_option(alloc))?
        .arg(sync_option(alloc))?
        .arg(limit_option(alloc))
}

fn explore_command<'a>(alloc: Global) -> Result<Command<'a>, AllocError>
    ensures shape { IfOk result (λ c. shape_of c ≡ explore.top) }
    ensures own { IfOk result (λ c. (fields_of c).has_globals ≡ false) }
{
    explore_options(alloc)?
        .arg(show_option(alloc))?
        .arg(file_argument(alloc))
}

fn lenient_option<'a>(alloc: Global) -> Arg<'a>
    ensures rule { rule_of result ≡ lenient }
    ensures own { result.global ≡ false }
{
    Arg::new(alloc, "lenient")
        .long("lenient")
        .action(ArgAction::SetTrue)
        .help("Passes over comments that are meant to expect something and can't")
}

fn states_option<'a>(alloc: Global) -> Arg<'a>
    ensures rule { rule_of result ≡ states }
    ensures own { result.global ≡ false }
{
    Arg::new(alloc, "states")
        .long("states")
        .action(ArgAction::SetTrue)
        .help("Prints before a file's tests how many states were kept, as a comment")
}

fn check_command<'a>(alloc: Global) -> Result<Command<'a>, AllocError>
    ensures shape { IfOk result (λ c. shape_of c ≡ check.top) }
    ensures own { IfOk result (λ c. (fields_of c).has_globals ≡ false) }
{
    searching(alloc, "check")?
        .about("Prints whether all that a run file's jobs can reach is as its comments expect")
        .after_help(CHECK_NOTES)
        .arg(lenient_option(alloc))?
        .arg(states_option(alloc))?
        .arg(limit_option(alloc))?
        .arg(files_argument(alloc))
}

fn echo_option<'a>(alloc: Global) -> Arg<'a>
    ensures rule { rule_of result ≡ echo }
    ensures own { result.global ≡ false }
{
    Arg::new(alloc, "echo")
        .long("echo")
        .action(ArgAction::SetTrue)
        .help("Prints each line of commands before its answer, after '> '")
}

fn strict_option<'a>(alloc: Global) -> Arg<'a>
    ensures rule { rule_of result ≡ strict }
    ensures own { result.global ≡ false }
{
    Arg::new(alloc, "strict")
        .long("strict")
        .action(ArgAction::SetTrue)
        .help("Exits with status 1 where a command is refused")
}

fn first_option<'a>(alloc: Global) -> Arg<'a>
    ensures rule { rule_of result ≡ first }
    ensures own { result.global ≡ false }
{
    Arg::new(alloc, "first")
        .long("first")
        .action(ArgAction::SetTrue)
        .help("Prints the first state, and reads none")
}

/// The option `--patient` of a command that makes no search of its own.
fn alike_option<'a>(alloc: Global) -> Arg<'a>
    ensures rule { rule_of result ≡ patient }
    ensures own { result.global ≡ false }
{
    Arg::new(alloc, "patient")
        .long("patient")
        .action(ArgAction::SetTrue)
        .help("Takes states for one that differ only in the steps that are left of budgets")
}

/// The option `--x86` of a command that makes no search of its own.
fn state_buffers_option<'a>(alloc: Global) -> Arg<'a>
    ensures rule { rule_of result ≡ x86 }
    ensures own { result.global ≡ false }
{
    Arg::new(alloc, "x86")
        .long("x86")
        .action(ArgAction::SetTrue)
        .help("Takes states of CPUs with store buffers, as on x86: flushes of them lead on too")
}

/// The option `--races` of a command that makes no search of its own.
fn state_races_option<'a>(alloc: Global) -> Arg<'a>
    ensures rule { rule_of result ≡ races }
    ensures own { result.global ≡ false }
{
    Arg::new(alloc, "races")
        .long("races")
        .action(ArgAction::SetTrue)
        .help("Prints the data races of each state before what it leads to")
}

/// The command `expand` before its last options and its files.
fn expand_options<'a>(alloc: Global) -> Result<Command<'a>, AllocError>
    ensures shape { IfOk result (λ c. shape_of c ≡ expand_options.top) }
    ensures own { IfOk result (λ c. (fields_of c).has_globals ≡ false) }
{
    Command::new(alloc, "expand")
        .about(
            "Prints what each CPU's turn leads to from states that are read, for searches by other programs",
        )
        .after_help(EXPAND_NOTES)
        .arg(explain_option(alloc))?
        .arg(first_option(alloc))?
        .arg(alike_option(alloc))?
        .arg(state_buffers_option(alloc))
}

/// The option `--into`.
fn into_option<'a>(alloc: Global) -> Arg<'a>
    ensures rule { rule_of result ≡ into }
    ensures own { result.global ≡ false }
{
    Arg::new(alloc, "into")
        .long("into")
        .value_name("FOLDER")
        .help("Writes new states into files of this folder, and reads those of STATES")
}

/// The option `--parts`.
fn parts_option<'a>(alloc: Global) -> Arg<'a>
    ensures rule { rule_of result ≡ parts }
    ensures own { result.global ≡ false }
{
    Arg::new(alloc, "parts")
        .long("parts")
        .value_name("N")
        .value_parser(value_parser!(u64).range(1..=MAX_PARTS as i64))
        .help("With --into: writes N files, 1 to 1024, by a hash of each state")
}

/// The option `--seen`.
fn seen_option<'a>(alloc: Global) -> Arg<'a>
    ensures rule { rule_of result ≡ seen }
    ensures own { result.global ≡ false }
{
    Arg::new(alloc, "seen")
        .long("seen")
        .value_name("FILE")
        .action(ArgAction::Append)
        .help("With --into: a file of states that are known too; may be given several times")
}

/// The files of states that `expand` reads.
fn states_argument<'a>(alloc: Global) -> Arg<'a>
    ensures rule { rule_of result ≡ state_files }
    ensures own { result.global ≡ false }
{
    Arg::new(alloc, "states")
        .value_name("STATES")
        .action(ArgAction::Append)
        .help("With --into: files of states to read; without one the first state is read")
}

/// The command `expand` before its file and those of states.
fn expand_files<'a>(alloc: Global) -> Result<Command<'a>, AllocError>
    ensures shape { IfOk result (λ c. shape_of c ≡ expand_files.top) }
    ensures own { IfOk result (λ c. (fields_of c).has_globals ≡ false) }
{
    expand_options(alloc)?
        .arg(state_races_option(alloc))?
        .arg(into_option(alloc))?
        .arg(parts_option(alloc))?
        .arg(seen_option(alloc))
}

fn expand_command<'a>(alloc: Global) -> Result<Command<'a>, AllocError>
    ensures shape { IfOk result (λ c. shape_of c ≡ expand.top) }
    ensures own { IfOk result (λ c. (fields_of c).has_globals ≡ false) }
{
    expand_files(alloc)?
        .arg(file_argument(alloc))?
        .arg(states_argument(alloc))
}

/// The option `--explain` of a command that may be given its input line by line.
fn explain_file_option<'a>(alloc: Global) -> Arg<'a>
    ensures rule { rule_of result ≡ explained }
    ensures own { result.global ≡ false }
{
    Arg::new(alloc, "explain")
        .long("explain")
        .action(ArgAction::SetTrue)
        .help(
            "Explains a refusal of the file on standard error, and answers to commands that are in it",
        )
}

/// The command `debug` before its file.
fn debug_options<'a>(alloc: Global) -> Result<Command<'a>, AllocError>
    ensures shape { IfOk result (λ c. shape_of c ≡ debug_options.top) }
    ensures own { IfOk result (λ c. (fields_of c).has_globals ≡ false) }
{
    Command::new(alloc, "debug")
        .about("Runs the jobs of a run file by commands, and shows what they ask for")
        .after_help(DEBUG_NOTES)
        .arg(explain_file_option(alloc))?
        .arg(echo_option(alloc))?
        .arg(strict_option(alloc))?
        .arg(buffers_option(alloc))
}

fn debug_command<'a>(alloc: Global) -> Result<Command<'a>, AllocError>
    ensures shape { IfOk result (λ c. shape_of c ≡ debug.top) }
    ensures own { IfOk result (λ c. (fields_of c).has_globals ≡ false) }
{
    debug_options(alloc)?.arg(file_argument(alloc))
}

fn code_argument<'a>(alloc: Global) -> Arg<'a>
    ensures rule { rule_of result ≡ code_rule }
    ensures own { result.global ≡ false }
{
    Arg::new(alloc, "code")
        .value_name("CODE")
        .required(true)
        .help("A code, an error as ENOMEM, a flag as BPF_ANY, or a helper as lookup")
}

fn explain_command<'a>(alloc: Global) -> Result<Command<'a>, AllocError>
    ensures shape { IfOk result (λ c. shape_of c ≡ explain.top) }
    ensures own { IfOk result (λ c. (fields_of c).has_globals ≡ false) }
{
    Command::new(alloc, "explain")
        .about("Prints what a code, an error, a flag or a helper is, and what to do")
        .after_help(EXPLAIN_NOTES)
        .arg(code_argument(alloc))
}

/// The program itself, before its commands are added.
fn bare_command<'a>(alloc: Global) -> Command<'a>
    ensures app { app_of result ≡ bare }
{
    Command::new(alloc, "ebpf")
        .version("0.1.0")
        .about("Runs BPF programs (RFC 9669), and turns them into text and back")
        .after_help(EBPF_NOTES)
        .subcommand_required(true)
        .disable_help_subcommand(true)
}

/// The commands for one program.
fn program_commands<'a>(alloc: Global) -> Result<Command<'a>, AllocError>
    ensures app { IfOk result (λ c. app_of c ≡ one_program) }
{
    let with_hex = bare_command(alloc).subcommand(hex_command(alloc)?)?;
    let with_asm = with_hex.subcommand(asm_command(alloc)?)?;
    with_asm.subcommand(disasm_command(alloc)?)
}

/// The commands for one program, and those for a run file.
fn file_commands<'a>(alloc: Global) -> Result<Command<'a>, AllocError>
    ensures app { IfOk result (λ c. app_of c ≡ for_files) }
{
    let with_run = program_commands(alloc)?.subcommand(run_command(alloc)?)?;
    let with_explore = with_run.subcommand(explore_command(alloc)?)?;
    with_explore.subcommand(check_command(alloc)?)
}

/// The commands that do work.
fn working_commands<'a>(alloc: Global) -> Result<Command<'a>, AllocError>
    ensures app { IfOk result (λ c. app_of c ≡ working) }
{
    let with_expand = file_commands(alloc)?.subcommand(expand_command(alloc)?)?;
    with_expand.subcommand(debug_command(alloc)?)
}

/// The command line of the whole program.
pub fn ebpf_command<'a>(alloc: Global) -> Result<Command<'a>, AllocError>
    ensures app { IfOk result (λ c. app_of c ≡ ebpf) }
{
    let whole = working_commands(alloc)?.subcommand(explain_command(alloc)?)?;
    Ok(whole)
}
