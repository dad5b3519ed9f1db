//! `ebpf expand --into`: what the states of files lead to, in other files.

ghost use Rattle.std.specs.Prelude.{◌≡◌, ◌++◌, ◌∷◌, [], ℕ, List, Some, codes, false, IfOk, IfSome, OnOk, length, map, option_map, string_bytes};
ghost use Rattle.bpf_names.specs.Names.{names_of};
ghost use Rattle.bpf_file.specs.File.{file_of, shape_of};
ghost use Rattle.bpf_cpu.specs.Setup.{IsRunnable};
ghost use Rattle.bpf_machine.specs.Machine.{Shows};
ghost use Rattle.bpf_jobs.specs.Printed.{first_world};
ghost use Rattle.bpf_expand.specs.Parts.{IsParted, records_of};
ghost use Rattle.bpf_expand.specs.State.{IsStateOf};
ghost use Rattle.bpf_replies.specs.Answer.{Prints};
ghost use Rattle.bpf_run.specs.Program.{input_of};
ghost use Rattle.bpf_run.specs.Spreading.{AreAllRead, AreMade, AreRead, IsSpread, IsSpreadOf, IsStop, ReadsAt, host_in, origins_name, part_name};

use bpf_codes::Code;
use bpf_command::SpreadOptions;
use bpf_expand::{Called, Expander, Given, Parted, open, parts_of, states_in};
use bpf_file::RunFile;
use bpf_names::Names;
use bpf_replies::input::{InputError, MAX_INPUT, read_whole};
use bpf_replies::printing::answer;
use bpf_replies::refusal::Refusal;
use bpf_replies::reply::{Reply, Status};
use bpf_replies::running::file_in;
use bpf_replies::stream::{Sink, Source};
use std::alloc::{AllocError, Global};
use std::fs::OpenOptions;
use std::io;
use std::io::Write;

/// Where files are made.
pub trait Shelf {
    ghost use Rattle.std.specs.Prelude.{ℕ, List, OnOk};

    /// The file of a name was made, and these bytes were written to it.
    ghost has_made: { Self → List ℕ → List ℕ → Type 0 };

    /// Makes a file that isn't there yet, and writes these bytes to it.
    fn make(&self, name: &str, bytes: &[u8]) -> io::Result<()>
        ensures { OnOk result (has_made self.now name.now bytes.now) };
}

impl Shelf for HostRuntime {
    ghost has_made = { λ rt name bytes. Unit {0} };

    fn make(&self, name: &str, bytes: &[u8]) -> io::Result<()> {
        let mut file = OpenOptions::new()
            .write(true)
            .create_new(true)
            .open(self, name)?;
        file.write_all(bytes)
    }
}

/// Why a call writes no parts, or not all.
#[derive(Drop)]
enum Stop {
    /// The run file is refused, or memory ran out.
    Refused(Refusal),
    /// The file of a name can't be read or made.
    File(String, Refusal),
    /// The end of the file of a name is cut off.
    Cut(String),
    /// What has this number in the file of a name, counted from 1, is no state.
    State(String, usize),
}

impl From<AllocError> for Stop {
    ghost use Rattle.bpf_run.specs.declared.spreading.Stop.TheVariants.{Refused};
    ghost use Rattle.bpf_replies.specs.declared.refusal.Refusal.TheVariants.{OutOfMemory};

    ghost from_gives = { λ _ e. e ≡ Refused OutOfMemory };

    fn from(_error: AllocError) -> Stop {
        Stop::Refused(Refusal::OutOfMemory)
    }
}

impl From<Refusal> for Stop {
    ghost use Rattle.bpf_run.specs.declared.spreading.Stop.TheVariants.{Refused};

    ghost from_gives = { λ r e. e ≡ Refused r };

    fn from(refusal: Refusal) -> Stop {
        Stop::Refused(refusal)
    }
}

/// That the file of a name is refused.
fn file_stop(alloc: Global, name: &str, refusal: Refusal) -> Stop {
    match name.to_string(alloc) {
        Ok(name) => Stop::File(name, refusal),
        Err(_) => Stop::Refused(Refusal::OutOfMemory),
    }
}

/// That what has this number in the file of a name is no state.
fn state_stop(alloc: Global, name: &str, number: usize) -> Stop {
    match name.to_string(alloc) {
        Ok(name) => Stop::State(name, number),
        Err(_) => Stop::Refused(Refusal::OutOfMemory),
    }
}

/// That the end of the file of a name is cut off.
fn cut_stop(alloc: Global, name: &str) -> Stop {
    match name.to_string(alloc) {
        Ok(name) => Stop::Cut(name),
        Err(_) => Stop::Refused(Refusal::OutOfMemory),
    }
}

/// All bytes of a file.
fn bytes_of<R: Source>(alloc: Global, name: &str, source: &mut R) -> Result<Vec<u8>, InputError>
    ensures whole { IfOk result (λ v.
        IfSome (R.file source.old name.now) (λ bytes. v.items ≡ bytes)) }
    ensures files { R.file source.new ≡ R.file source.old }
{
    source.open(name)?;
    read_whole(alloc, source)
}

/// The states of a file.
fn states_of<R: Source>(alloc: Global, name: &str, source: &mut R) -> Result<Vec<Vec<u8>>, Stop>
    ensures read { IfOk result (λ states. IfSome (R.file source.old name.now)
        (λ bytes. bytes ≡ records_of (map (λ v. v.items) states.items))) }
    ensures files { R.file source.new ≡ R.file source.old }
{
    let bytes = match bytes_of(alloc, name, source) {
        Ok(bytes) => bytes,
        Err(error) => return Err(file_stop(alloc, name, Refusal::Input(error))),
    };
    match states_in(alloc, &bytes)? {
        Some(states) => Ok(states),
        None => Err(cut_stop(alloc, name)),
    }
}

/// The states of files.
#[derive(Drop)]
struct Read {
    states: Vec<Vec<u8>>,
    /// How many states come before those of each file.
    before: Vec<usize>,
}

/// Puts the states of one more file after those that were read.
fn put_states(read: &mut Read, states: Vec<Vec<u8>>) -> Result<(), AllocError>
    ensures { OnOk result (read.new.states.items ≡ read.old.states.items ++ states.items) }
{
    let mut states = states;
    read.before.push(read.states.len())?;
    read.states.append(&mut states)
}

/// The states of files of these names, one file after the other.
fn read_files<R: Source>(alloc: Global, names: &[String], source: &mut R) -> Result<Read, Stop>
    ensures read { IfOk result (λ read. AreRead (R.file source.old)
        (map string_bytes names.now) (length names.now) (map (λ v. v.items) read.states.items)) }
    ensures files { R.file source.new ≡ R.file source.old }
{
    let mut read = Read {
        states: Vec::new(alloc),
        before: Vec::new(alloc),
    };
    for name in names {
        let states = states_of(alloc, name, source)?;
        put_states(&mut read, states)?;
    }
    Ok(read)
}

/// The state of the machine to work with.
fn first_read(alloc: Global, expander: &Expander) -> Result<Read, AllocError>
    ensures { IfOk result (λ read. (bytes : List ℕ)
        × IsStateOf expander.now.host expander.now.machine bytes
        × (map (λ v. v.items) read.states.items ≡ bytes ∷ [])) }
{
    let first = expander.state()?;
    let mut states = Vec::new(alloc);
    states.push(first)?;
    Ok(Read {
        states,
        before: Vec::new(alloc),
    })
}

/// The states that a call reads: those of files, or the first one where none is named.
fn read_states<R: Source>(
    alloc: Global,
    expander: &Expander,
    names: &[String],
    source: &mut R,
) -> Result<Read, Stop>
    ensures read { IfOk result (λ read. ReadsAt expander.now.host expander.now.machine
        (R.file source.old) (map string_bytes names.now)
        (map (λ v. v.items) read.states.items)) }
    ensures files { R.file source.new ≡ R.file source.old }
{
    if !names.is_empty() {
        return read_files(alloc, names, source);
    }
    let read = first_read(alloc, expander)?;
    Ok(read)
}

/// The file whose state has this number among those that were read, and its number in the file.
fn place_of(before: &[usize], number: usize) -> (usize, usize) {
    let mut place = (0, number.saturating_add(1));
    for file in 0..before.len() {
        if before[file] <= number {
            place = (file, (number - before[file]).saturating_add(1));
        }
    }
    place
}

/// That what has this number among what was read is no state.
fn no_state(alloc: Global, names: &[String], before: &[usize], number: usize) -> Stop {
    let (file, number) = place_of(before, number);
    match names.get(file) {
        Some(name) => state_stop(alloc, name.as_str(), number),
        None => Stop::Refused(Refusal::OutOfMemory),
    }
}

/// The name of a part's file.
fn part_name(alloc: Global, folder: &str, part: usize) -> Result<String, AllocError>
    ensures { IfOk result (λ name. string_bytes name ≡ part_name folder.now part) }
{
    format!(in alloc; "{folder}/{part}")
}

/// The name of the file of its states' origins.
fn origins_name(alloc: Global, folder: &str, part: usize) -> Result<String, AllocError>
    ensures { IfOk result (λ name. string_bytes name ≡ origins_name folder.now part) }
{
    format!(in alloc; "{folder}/{part}.from")
}

/// Writes a file of this name.
fn write_file<T: Shelf>(rt: &T, name: String, bytes: &[u8]) -> Result<(), Stop>
    ensures { OnOk result (T.has_made rt.now (string_bytes name) bytes.now) }
{
    if rt.make(name.as_str(), bytes).is_err() {
        return Err(Stop::File(name, Refusal::Input(InputError::Unread)));
    }
    Ok(())
}

/// Writes each part into a file of its own.
fn write_parts<T: Shelf>(rt: &T, alloc: Global, folder: &str, parts: &[Vec<u8>]) -> Result<(), Stop>
    ensures { OnOk result (AreMade (T.has_made rt.now) (part_name folder.now)
        (map (λ v. v.items) parts.now)) }
{
    for part in 0..parts.len() {
        let name = part_name(alloc, folder, part)?;
        write_file(rt, name, &parts[part])?;
    }
    Ok(())
}

/// Writes the origins of each part's states into a file of their own.
fn write_origins<T: Shelf>(
    rt: &T,
    alloc: Global,
    folder: &str,
    parts: &[Vec<u8>],
) -> Result<(), Stop>
    ensures { OnOk result (AreMade (T.has_made rt.now) (origins_name folder.now)
        (map (λ v. v.items) parts.now)) }
{
    for part in 0..parts.len() {
        let name = origins_name(alloc, folder, part)?;
        write_file(rt, name, &parts[part])?;
    }
    Ok(())
}

/// The parts of what the states of files lead to.
fn parts_in<R: Source>(
    alloc: Global,
    spread: &SpreadOptions,
    expander: &mut Expander,
    names: &Names,
    source: &mut R,
) -> Result<Parted, Stop>
    ensures parted { IfOk result (λ made. (read : List (List ℕ))
        × ReadsAt expander.old.host expander.old.machine (R.file source.old)
        (map string_bytes spread.now.states.items) read
        × (seen : List (List ℕ))
        × AreAllRead (R.file source.old) (map string_bytes spread.now.seen.items) seen
        × IsParted expander.new.host (names_of names.now) spread.now.parts read seen made) }
    ensures same { expander.new.host ≡ expander.old.host }
{
    let Read { states, before } = read_states(alloc, expander, &spread.states, source)?;
    let known = read_files(alloc, &spread.seen, source)?;
    let given = Given {
        read: states,
        seen: known.states,
    };
    let parts = usize::from(spread.parts);
    match parts_of(alloc, expander, names, &given, parts)? {
        Called::Parted(made) => Ok(made),
        Called::NoState(number) => Err(no_state(alloc, &spread.states, &before, number)),
    }
}

/// A machine of a run file's jobs to work with, and the names of its maps and arrays.
#[derive(Drop)]
struct Opened {
    expander: Expander,
    names: Names,
}

/// Those of a run file. Out of memory is the only refusal.
fn open_file(alloc: Global, patient: bool, file: RunFile) -> Result<Opened, AllocError>
    requires { IsRunnable file.setup }
    ensures host { IfOk result (λ o. o.expander.host ≡ host_in patient (file_of file)) }
    ensures machine { IfOk result (λ o. Shows o.expander.machine
        (first_world (shape_of (file_of file)) (file_of file).pairs (file_of file).programs
        (file_of file).jobs)) }
    ensures names { IfOk result (λ o. names_of o.names ≡ (file_of file).names) }
{
    let RunFile { setup, names, .. } = file;
    let expander = open(alloc, patient, setup)?;
    Ok(Opened { expander, names })
}

/// What a call prints whose run file is this text.
fn spread_text<T: Shelf, R: Source>(
    rt: &T,
    alloc: Global,
    spread: &SpreadOptions,
    text: &str,
    source: &mut R,
) -> Result<String, Stop>
    ensures { IfOk result (λ printed. IsSpreadOf (T.has_made rt.now) (R.file source.old)
        spread.now (Some text.now) (string_bytes printed)) }
{
    let file = file_in(alloc, text)?;
    let mut opened = open_file(alloc, spread.patient, file)?;
    let made = parts_in(alloc, spread, &mut opened.expander, &opened.names, source)?;
    write_parts(rt, alloc, spread.folder.as_str(), &made.parts)?;
    write_origins(rt, alloc, spread.folder.as_str(), &made.origins)?;
    Ok(made.text)
}

/// That a file is refused, or what is in it; or that memory ran out.
fn stop_text(alloc: Global, stop: &Stop) -> Result<String, AllocError>
    ensures { IfOk result (λ text. (why : List ℕ)
        × (string_bytes text ≡ codes "refused " ++ why)) }
{
    match stop {
        Stop::Refused(refusal) => format!(in alloc; "refused {refusal}\n"),
        Stop::File(name, refusal) => format!(in alloc; "refused {refusal} - {name}\n"),
        Stop::Cut(name) => {
            let code = Code::X1.text();
            format!(in alloc; "refused {code} - {name}\n")
        }
        Stop::State(name, number) => {
            let code = Code::X1.text();
            format!(in alloc; "refused {code} {number} - {name}\n")
        }
    }
}

/// What is replied where a call was stopped.
fn stop_reply(alloc: Global, stop: Stop) -> Reply
    ensures { IsStop result }
{
    if let Stop::Refused(refusal) = stop {
        return Reply::Refused(refusal);
    }
    match stop_text(alloc, &stop) {
        Ok(text) => Reply::Several {
            text,
            refused: true,
            unmet: false,
            told: true,
        },
        Err(_) => Reply::Refused(Refusal::OutOfMemory),
    }
}

/// A call, with the run file where one is named.
#[derive(Drop)]
pub struct Spreading {
    pub spread: SpreadOptions,
    pub file: Option<String>,
}

/// The bytes of the run file.
fn input_of<R: Source>(
    alloc: Global,
    errand: &Spreading,
    source: &mut R,
) -> Result<Vec<u8>, InputError>
    requires { R.has_failed source.old ≡ false }
    ensures whole { IfOk result (λ v. IfSome (input_of (R.remaining source.old) (R.file source.old)
        (option_map string_bytes errand.now.file)) (λ input. v.items ≡ input)) }
    ensures files { R.file source.new ≡ R.file source.old }
{
    match &errand.file {
        Some(name) => bytes_of(alloc, name.as_str(), source),
        None => read_whole(alloc, source),
    }
}

/// What is replied to a call whose run file has these bytes.
fn spread_input<T: Shelf, R: Source>(
    rt: &T,
    alloc: Global,
    spread: &SpreadOptions,
    input: &[u8],
    source: &mut R,
) -> Reply
    ensures { IsSpread (T.has_made rt.now) (R.file source.old) spread.now (Some input.now) result }
{
    let Ok(text) = str::from_utf8(input) else {
        return Reply::Refused(Refusal::NotText);
    };
    match spread_text(rt, alloc, spread, text, source) {
        Ok(text) => Reply::Text(text),
        Err(stop) => stop_reply(alloc, stop),
    }
}

/// What is replied to a call.
fn spread_reply<T: Shelf, R: Source>(
    rt: &T,
    alloc: Global,
    errand: &Spreading,
    source: &mut R,
) -> Reply
    requires { R.has_failed source.old ≡ false }
    ensures { IsSpread (T.has_made rt.now) (R.file source.old) errand.now.spread
        (input_of (R.remaining source.old) (R.file source.old)
        (option_map string_bytes errand.now.file)) result }
{
    match input_of(alloc, errand, source) {
        Ok(input) => spread_input(rt, alloc, &errand.spread, &input, source),
        Err(error) => Reply::Refused(Refusal::Input(error)),
    }
}

/// The whole call: reads the run file and the states, writes the parts, and prints what came of it.
pub fn perform_spread<T: Shelf, R: Source, W: Sink>(
    rt: &T,
    alloc: Global,
    errand: &Spreading,
    source: &mut R,
    sink: &mut W,
) -> Status
    requires readable { R.has_failed source.old ≡ false }
    requires writable { W.has_failed sink.old ≡ false }
    ensures { (r : Reply) × IsSpread (T.has_made rt.now) (R.file source.old)
        errand.now.spread (input_of (R.remaining source.old) (R.file source.old)
        (option_map string_bytes errand.now.file)) r
        × Prints r (W.contents sink.old) (W.contents sink.new) (W.has_failed sink.new) result }
{
    let reply = spread_reply(rt, alloc, errand, source);
    answer(alloc, &reply, sink)
}
