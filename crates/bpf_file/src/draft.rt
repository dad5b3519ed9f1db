//! What the lines of a run file have said so far.

ghost use Rattle.std.specs.Prelude.{◌≡◌, ◌<◌, ◌≤◌, ◌+◌, ◌/◌, ◌^◌, length, map, slice_get, IfNone, IfOk, OnOk, IsOkUnless};
ghost use Rattle.std.specs.Option.{option_copied, option_map};
ghost use Rattle.hex.specs.Hex.{decode_of};
ghost use Rattle.bpf_cpu.specs.Task.{waiting};
ghost use Rattle.bpf_file.specs.Form.{field_at};
ghost use Rattle.bpf_names.specs.Names.{variable_of};
ghost use Rattle.bpf_file.specs.File.{named_by};
ghost use Rattle.bpf_file.specs.Parts.{Between, nothing, is_full, is_taken, array_place, with_map, with_array, with_data, with_variable, with_program, with_job};
ghost use Rattle.bpf_file.specs.Reading.{FieldsSay, finished};
ghost use Rattle.bpf_file.specs.Rows.{first_said, later_said, may_stand, placed, map_refusal, array_refusal, data_refusal, name_refusal, place_refusal, served, context_of, around_packet, input_said, given_by};
ghost use Rattle.bpf_file.specs.Statement.{job_line, packet_said, said_by, statement_of};
ghost use Rattle.bpf_file.specs.Statement as says;
ghost use Rattle.bpf_file.specs.declared.statement.Statement.TheVariants as statement_kind;
ghost use Rattle.bpf_file.specs.Private.Answers.{OrMemory};
ghost use Rattle.bpf_cpu.specs.Setup.{IsRunnable};
ghost use Rattle.bpf_file.specs.Private.Fits.{IsFit};
ghost use Rattle.bpf_text.specs.Symbols.{table_of};
ghost use Rattle.bpf_file.specs.Programs.{OfAssembly};
ghost use Rattle.bpf_file.specs.Symbols.{names_for};
ghost use Rattle.bpf_file.specs.Private.Drafts.{part_of, said_in, after, Added, ReadsDigits, IsBrief, IsShortSaid, Ends, closed, file_answer};

use crate::error::{FileError, Reason};
use crate::file::RunFile;
use crate::line::LineError;
use crate::packet::{self, PacketLine};
use crate::statement::{self, DataLine, JobLine, Statement, VariableLine};
use crate::version::Version;
use crate::{contents, form, group, program, symbols, variable};
use bpf_base::DEFAULT_BUDGET;
use bpf_cpu::{Given, Input, Job, Setup};
use bpf_loader::{Named, Program};
use bpf_mem::{Context, Packet};
use bpf_names::{Names, Variable};
use bpf_pairs::Pair;
use bpf_shared::{ArrayShape, MapShape, ShapeError, Size, StoreShape};
use bpf_text::Symbols;
use hex::FromHexError;
use std::alloc::Global;

/// The most programs, maps, arrays, variables and jobs of a file.
const MOST_PROGRAMS: usize = 256;

const MOST_MAPS: usize = 16;

const MOST_ARRAYS: usize = 16;

const MOST_VARIABLES: usize = 256;

const MOST_JOBS: usize = 4_096;

/// A file as far as it goes.
#[derive(Drop)]
pub struct Draft<'a> {
    /// The group of the last line that said something, 0 before the first.
    pub group: u8,
    /// The version, by the first line.
    pub version: Version,
    pub cpus: u8,
    pub seed: u64,
    pub names: Names,
    pub maps: Vec<MapShape>,
    pub arrays: Vec<ArrayShape>,
    /// What each array has at first, as far as lines say it.
    pub contents: Vec<Vec<u8>>,
    /// The pairs that maps have at first.
    pub pairs: Vec<Pair>,
    /// The programs' names.
    pub titles: Vec<&'a [u8]>,
    pub programs: Vec<Program>,
    pub jobs: Vec<Job>,
}

/// What follows a line: any other, or the assembly of a program of this name.
#[derive(Clone, Copy)]
pub enum Next<'a> {
    Line,
    Assembly(&'a [u8]),
}

/// What the first line says that says anything.
fn first_said<'a>(said: Result<Statement<'a>, LineError>) -> Result<Statement<'a>, Reason>
    ensures { said_in result ≡ first_said (said_in said.entry) }
{
    match said {
        Ok(Statement::Version(version)) => Ok(Statement::Version(version)),
        _ => Err(Reason::BadFirstLine),
    }
}

/// What any other line says.
fn later_said<'a>(said: Result<Statement<'a>, LineError>) -> Result<Statement<'a>, Reason>
    ensures { said_in result ≡ later_said (said_in said.entry) }
{
    match said {
        Ok(said) => Ok(said),
        Err(LineError::BadNumber) => Err(Reason::BadNumber),
        Err(LineError::BadForm) | Err(LineError::OutOfMemory) => Err(Reason::BadLine),
    }
}

/// The CPU of this number, if there are more.
fn served(cpus: u8, cpu: Option<u64>) -> Option<u8>
    ensures { result ≡ served cpus cpu }
{
    let cpu = cpu?;
    if cpu < cpus as u64 {
        Some(cpu as u8)
    } else {
        None
    }
}

/// The bytes of a line's hex digits.
pub(crate) fn decoded(alloc: Global, line: usize, digits: &[u8]) -> Result<Vec<u8>, FileError>
    ensures { ReadsDigits (λ v. v.items) line (decode_of digits.now) result }
{
    match hex::decode(alloc, digits) {
        Ok(bytes) => Ok(bytes),
        Err(FromHexError::OutOfMemory) => Err(FileError::OutOfMemory),
        Err(_) => Err(FileError::Refused(line, Reason::NotHex)),
    }
}

/// A packet as a job's input, with its context.
fn around_packet(
    alloc: Global,
    line: usize,
    given: Given,
    cpu: u8,
    packet: PacketLine<'_>,
) -> Result<Input, FileError>
    requires brief { IsBrief (Some (packet_said packet)) }
    ensures { ReadsDigits (λ i. i) line (around_packet given packet.entry.hook cpu
        (decode_of packet.entry.digits.now)) result }
{
    let bytes = decoded(alloc, line, packet.digits)?;
    match packet::context(alloc, packet.hook, cpu, &bytes) {
        Ok(context) => Ok(Input {
            context: Context::new(context),
            packet: Packet::new(bytes),
            given,
        }),
        Err(_) => Err(FileError::OutOfMemory),
    }
}

/// The bytes of a context.
fn context_of(alloc: Global, line: usize, digits: Option<&[u8]>) -> Result<Vec<u8>, FileError>
    ensures { ReadsDigits (λ v. v.items) line (context_of (option_copied digits.entry)) result }
{
    match digits {
        Some(digits) => decoded(alloc, line, digits),
        None => Ok(Vec::new(alloc)),
    }
}

impl<'a> Draft<'a> {
    /// A file of which no line is read.
    pub fn new(alloc: Global) -> Draft<'a>
        ensures { part_of result ≡ nothing }
    {
        Draft {
            group: 0,
            version: Version::First,
            cpus: 1,
            seed: 0,
            names: Names {
                maps: Vec::new(alloc),
                variables: Vec::new(alloc),
            },
            maps: Vec::new(alloc),
            arrays: Vec::new(alloc),
            contents: Vec::new(alloc),
            pairs: Vec::new(alloc),
            titles: Vec::new(alloc),
            programs: Vec::new(alloc),
            jobs: Vec::new(alloc),
        }
    }

    /// Whether there are as many lines of this group as there may be.
    fn is_full(&self, group: u8) -> bool
        ensures { result ≡ is_full (part_of self.now) group }
    {
        (group == 7 && self.titles.len() >= MOST_PROGRAMS)
            || (group == 8 && self.jobs.len() >= MOST_JOBS)
    }

    /// Whether a line of this group may come next.
    fn may_stand(&self, group: u8) -> bool
        ensures { result ≡ may_stand (part_of self.now) group }
    {
        group::is_in_order(self.group, group) && !self.is_full(group)
    }

    /// What a line of these fields says, if it may be here.
    fn said<'b>(&self, fields: &[&'b [u8]]) -> Result<Statement<'b>, Reason>
        ensures { said_in result ≡ placed (part_of self.now)
            (field_at (map (λ f. f.now) fields.now) 0)
            (statement_of self.now.version (map (λ f. f.now) fields.now)) }
    {
        let said = statement::said(self.version, fields);
        if self.group == 0 {
            first_said(said)
        } else if self.may_stand(group::group_of(form::field_at(fields, 0))) {
            later_said(said)
        } else {
            Err(Reason::BadLine)
        }
    }

    /// `cpus N`
    fn set_cpus(&mut self, line: usize, cpus: u64) -> Result<Next<'a>, FileError>
        ensures { Added line (part_of self.old) (says.Cpus cpus) (part_of self.new) result }
    {
        if !(1..=16).contains(&cpus) {
            return Err(FileError::Refused(line, Reason::Shape(ShapeError::CpuCount)));
        }
        self.group = 2;
        self.cpus = cpus as u8;
        Ok(Next::Line)
    }

    /// `seed N`
    fn set_seed(&mut self, line: usize, seed: u64) -> Result<Next<'a>, FileError>
        ensures { Added line (part_of self.old) (says.Seed seed) (part_of self.new) result }
    {
        self.group = 3;
        self.seed = seed;
        Ok(Next::Line)
    }

    /// Whether a map, an array or a variable has this name.
    fn has_name(&self, name: &str) -> bool
        ensures { result ≡ is_taken (part_of self.now).file name.now }
    {
        group::place_in(name, &self.names.maps).is_some()
            || self.names.variable(name.as_bytes()).is_some()
    }

    /// Why there can't be one more map, of this name and shape.
    fn map_refusal(&self, name: &str, shape: MapShape) -> Option<Reason>
        ensures { result ≡ map_refusal (part_of self.now) name.now shape }
    {
        if self.has_name(name) {
            return Some(Reason::TwiceName);
        }
        if self.maps.len() >= MOST_MAPS {
            return Some(Reason::Shape(ShapeError::TooManyMaps));
        }
        match shape.refusal(self.maps.len()) {
            Some(error) => Some(Reason::Shape(error)),
            None => None,
        }
    }

    fn push_map(&mut self, alloc: Global, name: &str, shape: MapShape) -> Result<(), FileError>
        ensures ok { OnOk result (part_of self.new ≡ with_map (part_of self.old) name.now shape) }
        ensures memory { IsOkUnless result FileError.OutOfMemory }
    {
        let text = String::from_str(alloc, name).map_err(|_| FileError::OutOfMemory)?;
        self.names
            .maps
            .push(text)
            .map_err(|_| FileError::OutOfMemory)?;
        self.maps.push(shape).map_err(|_| FileError::OutOfMemory)?;
        self.group = 4;
        Ok(())
    }

    /// `map NAME ..`
    fn add_map(
        &mut self,
        alloc: Global,
        line: usize,
        name: &str,
        shape: MapShape,
    ) -> Result<Next<'a>, FileError>
        ensures { Added line (part_of self.old) (says.Map name.now shape)
            (part_of self.new) result }
    {
        if let Some(reason) = self.map_refusal(name, shape) {
            return Err(FileError::Refused(line, reason));
        }
        self.push_map(alloc, name, shape)?;
        Ok(Next::Line)
    }

    /// Why there can't be one more array, of this name and shape.
    fn array_refusal(&self, name: &str, shape: ArrayShape) -> Option<Reason>
        requires { self.now.cpus ≤ 16 }
        ensures { result ≡ array_refusal (part_of self.now) name.now shape }
    {
        if self.has_name(name) {
            return Some(Reason::TwiceName);
        }
        if self.arrays.len() >= MOST_ARRAYS {
            return Some(Reason::Shape(ShapeError::TooManyArrays));
        }
        match shape.refusal(self.arrays.len(), self.cpus, 0) {
            Some(error) => Some(Reason::Shape(error)),
            None => None,
        }
    }

    fn push_array(&mut self, alloc: Global, name: &str, shape: ArrayShape) -> Result<(), FileError>
        ensures ok { OnOk result
            (part_of self.new ≡ with_array (part_of self.old) name.now shape) }
        ensures memory { IsOkUnless result FileError.OutOfMemory }
    {
        let text = String::from_str(alloc, name).map_err(|_| FileError::OutOfMemory)?;
        self.names
            .maps
            .push(text)
            .map_err(|_| FileError::OutOfMemory)?;
        self.arrays.push(shape).map_err(|_| FileError::OutOfMemory)?;
        self.contents
            .push(Vec::new(alloc))
            .map_err(|_| FileError::OutOfMemory)?;
        self.group = 5;
        Ok(())
    }

    /// `array NAME ..`
    fn add_array(
        &mut self,
        alloc: Global,
        line: usize,
        name: &str,
        shape: ArrayShape,
    ) -> Result<Next<'a>, FileError>
        requires { self.old.cpus ≤ 16 }
        ensures { Added line (part_of self.old) (says.Array name.now shape)
            (part_of self.new) result }
    {
        if let Some(reason) = self.array_refusal(name, shape) {
            return Err(FileError::Refused(line, reason));
        }
        self.push_array(alloc, name, shape)?;
        Ok(Next::Line)
    }

    /// The number of the array of this name.
    fn array_place(&self, name: &str) -> Option<usize>
        ensures { result ≡ array_place (part_of self.now).file name.now }
    {
        let place = group::place_in(name, &self.names.maps)?;
        if place < self.maps.len() {
            None
        } else {
            Some(place - self.maps.len())
        }
    }

    /// Why the array of this number can't have this number of bytes at first.
    fn data_refusal(&self, number: usize, filled: usize) -> Option<Reason>
        requires { self.now.cpus ≤ 16 }
        ensures { result ≡ data_refusal (part_of self.now).file number filled }
    {
        let Some(shape) = self.arrays.get(number) else {
            return Some(Reason::Unknown);
        };
        match shape.refusal(number, self.cpus, filled) {
            Some(error) => Some(Reason::Shape(error)),
            None => None,
        }
    }

    pub(crate) fn put_data(
        &mut self,
        number: usize,
        at: usize,
        bytes: &[u8],
    ) -> Result<(), FileError>
        requires number { number < length self.old.contents.items }
        requires room { at + length bytes.now < 2 ^ 64 }
        ensures ok { OnOk result
            (part_of self.new ≡ with_data (part_of self.old) number at bytes.now) }
        ensures memory { IsOkUnless result FileError.OutOfMemory }
    {
        contents::put(&mut self.contents[number], at, bytes)?;
        self.group = 6;
        Ok(())
    }

    /// `data NAME AT DIGITS`. Bytes that end past the array are refused before they take memory.
    fn add_data(
        &mut self,
        alloc: Global,
        line: usize,
        said: DataLine<'_>,
    ) -> Result<Next<'a>, FileError>
        requires { IsFit (part_of self.old) }
        ensures { Added line (part_of self.old) (said_by (statement_kind.Data said.entry))
            (part_of self.new) result }
    {
        let Some(number) = self.array_place(said.array) else {
            return Err(FileError::Refused(line, Reason::Unknown));
        };
        let at = said.at as usize;
        if let Some(reason) = self.data_refusal(number, at + said.digits.len() / 2) {
            return Err(FileError::Refused(line, reason));
        }
        let bytes = decoded(alloc, line, said.digits)?;
        self.put_data(number, at, &bytes)?;
        Ok(Next::Line)
    }

    /// Why there can't be one more variable, of this name.
    fn name_refusal(&self, name: &str) -> Option<Reason>
        ensures { result ≡ name_refusal (part_of self.now).file name.now }
    {
        if self.names.variables.len() >= MOST_VARIABLES {
            Some(Reason::BadLine)
        } else if self.has_name(name) {
            Some(Reason::TwiceName)
        } else {
            None
        }
    }

    /// Why no variable can have these bytes of the first value of the array of this number.
    fn place_refusal(&self, array: usize, at: u32, size: Size) -> Option<Reason>
        ensures value { result ≡ place_refusal array at size
            (slice_get (part_of self.now).file.arrays array) }
        ensures there { IfNone result (array < length (part_of self.now).file.arrays) }
    {
        let Some(shape) = self.arrays.get(array) else {
            return Some(Reason::Unknown);
        };
        if shape.per_cpu || variable::ends_after(shape.value, at, size) {
            Some(Reason::Shape(ShapeError::ArrayContents { array }))
        } else {
            None
        }
    }

    fn push_variable(&mut self, variable: Variable) -> Result<(), FileError>
        ensures ok { OnOk result
            (part_of self.new ≡ with_variable (part_of self.old) (variable_of variable)) }
        ensures memory { IsOkUnless result FileError.OutOfMemory }
    {
        self.names
            .variables
            .push(variable)
            .map_err(|_| FileError::OutOfMemory)?;
        self.group = 6;
        Ok(())
    }

    /// `var NAME ARRAY AT SIZE`
    fn add_variable(
        &mut self,
        alloc: Global,
        line: usize,
        said: VariableLine<'_>,
    ) -> Result<Next<'a>, FileError>
        requires { IsFit (part_of self.old) }
        ensures { Added line (part_of self.old) (said_by (statement_kind.Variable said.entry))
            (part_of self.new) result }
    {
        if let Some(reason) = self.name_refusal(said.name) {
            return Err(FileError::Refused(line, reason));
        }
        let Some(array) = self.array_place(said.array) else {
            return Err(FileError::Refused(line, Reason::Unknown));
        };
        if let Some(reason) = self.place_refusal(array, said.at, said.size) {
            return Err(FileError::Refused(line, reason));
        }
        let name = String::from_str(alloc, said.name).map_err(|_| FileError::OutOfMemory)?;
        self.push_variable(Variable {
            name,
            array: array as u8,
            at: said.at,
            size: said.size,
        })?;
        Ok(Next::Line)
    }

    /// What programs may name.
    fn named(&self) -> Named
        ensures { result ≡ named_by (part_of self.now).file }
    {
        Named {
            maps: self.maps.len(),
            arrays: self.arrays.len(),
        }
    }

    fn push_program(&mut self, name: &'a [u8], program: Program) -> Result<(), FileError>
        ensures ok { OnOk result
            (part_of self.new ≡ with_program (part_of self.old) name.now program) }
        ensures memory { IsOkUnless result FileError.OutOfMemory }
    {
        self.titles.push(name).map_err(|_| FileError::OutOfMemory)?;
        self.programs
            .push(program)
            .map_err(|_| FileError::OutOfMemory)?;
        self.group = 7;
        Ok(())
    }

    /// `prog NAME`
    fn open(&self, line: usize, name: &'a [u8]) -> Result<Next<'a>, FileError>
        ensures { Added line (part_of self.now) (says.Program name.now) (part_of self.now) result }
    {
        match group::place_of(name, &self.titles) {
            Some(_) => Err(FileError::Refused(line, Reason::TwiceName)),
            None => Ok(Next::Assembly(name)),
        }
    }

    /// `prog NAME hex DIGITS`
    fn add_words(
        &mut self,
        alloc: Global,
        line: usize,
        name: &'a [u8],
        digits: &[u8],
    ) -> Result<Next<'a>, FileError>
        ensures { Added line (part_of self.old) (says.Words name.now digits.now)
            (part_of self.new) result }
    {
        if group::place_of(name, &self.titles).is_some() {
            return Err(FileError::Refused(line, Reason::TwiceName));
        }
        let program = program::of_digits(alloc, line, digits, self.named())?;
        self.push_program(name, program)?;
        Ok(Next::Line)
    }

    /// What the names that programs may use stand for, in files that may have arrays.
    fn symbols(&self, alloc: Global) -> Result<Option<Symbols<'_>>, FileError>
        requires { IsFit (part_of self.now) }
        ensures named { IfOk result (λ s. option_map table_of s ≡ names_for (part_of self.now)) }
        ensures memory { IsOkUnless result FileError.OutOfMemory }
    {
        if !self.version.has_arrays() {
            return Ok(None);
        }
        match symbols::symbols_of(alloc, &self.names, self.maps.len(), &self.arrays) {
            Ok(symbols) => Ok(Some(symbols)),
            Err(_) => Err(FileError::OutOfMemory),
        }
    }

    /// The program in the assembly after a line.
    fn assembled(&self, alloc: Global, line: usize, text: &[u8]) -> Result<Program, FileError>
        requires fit { IsFit (part_of self.now) }
        requires room { line + length text.now + 2 < 2 ^ 64 }
        ensures { OrMemory (OfAssembly line (named_by (part_of self.now).file)
            (names_for (part_of self.now)) text.now) result }
    {
        let symbols = self.symbols(alloc)?;
        program::of_assembly(alloc, line, text, self.named(), symbols.as_ref())
    }

    /// The assembly after `prog NAME`, which is at this line.
    pub fn add_assembly(
        &mut self,
        alloc: Global,
        line: usize,
        name: &'a [u8],
        text: &[u8],
    ) -> Result<(), FileError>
        requires fit { IsFit (part_of self.old) }
        requires room { line + length text.now + 2 < 2 ^ 64 }
        ensures { OrMemory (λ a. Ends line (part_of self.old) name.now text.now
            (closed (part_of self.new) a)) result }
    {
        let program = self.assembled(alloc, line, text)?;
        self.push_program(name, program)
    }

    fn push_job(&mut self, job: Job) -> Result<(), FileError>
        ensures ok { OnOk result (part_of self.new ≡ with_job (part_of self.old) (waiting job)) }
        ensures memory { IsOkUnless result FileError.OutOfMemory }
    {
        self.jobs.push(job).map_err(|_| FileError::OutOfMemory)?;
        self.group = 8;
        Ok(())
    }

    /// What the next job is given beside its context.
    fn given(&self, line: JobLine<'_>) -> Given
        ensures { result ≡ given_by (length (part_of self.now).file.jobs) (job_line line.entry) }
    {
        let job = self.jobs.len() as u64;
        Given {
            job,
            time: line.time.unwrap_or(0),
            seed: line.seed.unwrap_or(job),
        }
    }

    /// All that the next job is given, on this CPU.
    fn input(
        &self,
        alloc: Global,
        line: usize,
        cpu: u8,
        job: JobLine<'_>,
    ) -> Result<Input, FileError>
        requires { IsShortSaid (said_by (statement_kind.Job job)) }
        ensures { ReadsDigits (λ i. i) line (input_said (length (part_of self.now).file.jobs) cpu
            (job_line job.entry)) result }
    {
        let given = self.given(job);
        match job.packet {
            Some(packet) => around_packet(alloc, line, given, cpu, packet),
            None => {
                let context = Context::new(context_of(alloc, line, job.context)?);
                let packet = Packet::new(Vec::new(alloc));
                Ok(Input {
                    context,
                    packet,
                    given,
                })
            }
        }
    }

    /// `job CPU NAME ..`
    fn add_job(
        &mut self,
        alloc: Global,
        line: usize,
        job: JobLine<'_>,
    ) -> Result<Next<'a>, FileError>
        requires { IsShortSaid (said_by (statement_kind.Job job)) }
        ensures { Added line (part_of self.old) (said_by (statement_kind.Job job.entry))
            (part_of self.new) result }
    {
        let Some(cpu) = served(self.cpus, job.cpu) else {
            return Err(FileError::Refused(line, Reason::Unknown));
        };
        let Some(program) = group::place_of(job.program, &self.titles) else {
            return Err(FileError::Refused(line, Reason::Unknown));
        };
        let input = self.input(alloc, line, cpu, job)?;
        self.push_job(Job {
            cpu,
            program,
            budget: job.budget.unwrap_or(DEFAULT_BUDGET),
            input,
        })?;
        Ok(Next::Line)
    }

    /// What a line that may be here says.
    fn add(
        &mut self,
        alloc: Global,
        line: usize,
        said: Statement<'a>,
    ) -> Result<Next<'a>, FileError>
        requires fit { IsFit (part_of self.old) }
        requires short { IsShortSaid (said_by said) }
        ensures { Added line (part_of self.old) (said_by said.entry) (part_of self.new) result }
    {
        match said {
            Statement::Version(version) => {
                self.group = 1;
                self.version = version;
                Ok(Next::Line)
            }
            Statement::Cpus(cpus) => self.set_cpus(line, cpus),
            Statement::Seed(seed) => self.set_seed(line, seed),
            Statement::Map(name, shape) => self.add_map(alloc, line, name, shape),
            Statement::Array(name, shape) => self.add_array(alloc, line, name, shape),
            Statement::Data(data) => self.add_data(alloc, line, data),
            Statement::Variable(variable) => self.add_variable(alloc, line, variable),
            Statement::Put(put) => self.add_put(alloc, line, put),
            Statement::PutNumbers(put) => self.add_numbers(alloc, line, put),
            Statement::Program(name) => self.open(line, name),
            Statement::Words(name, digits) => self.add_words(alloc, line, name, digits),
            Statement::Job(job) => self.add_job(alloc, line, job),
        }
    }

    /// A line by its fields.
    pub fn read_fields(
        &mut self,
        alloc: Global,
        line: usize,
        fields: &[&'a [u8]],
    ) -> Result<Next<'a>, FileError>
        requires { IsFit (part_of self.old) }
        ensures { OrMemory (λ a. FieldsSay line (part_of self.old) (map (λ f. f.now) fields.now)
            (after line (part_of self.new) a)) result }
    {
        match fields {
            [] => Ok(Next::Line),
            [_, ..] => match self.said(fields) {
                Ok(said) => self.add(alloc, line, said),
                Err(reason) => Err(FileError::Refused(line, reason)),
            },
        }
    }

    #[tactic(auto, using(crate::proofs::Fits::never_refused))]
    /// The whole file, where no line follows.
    pub fn finish(self) -> Result<RunFile, FileError>
        requires { IsFit (part_of self) }
        ensures read { OrMemory (λ a. finished (Between (part_of self.entry)) ≡ file_answer a)
            result }
        ensures fits { IfOk result (λ f. IsRunnable f.setup) }
    {
        if self.group == 0 {
            return Err(FileError::Refused(1, Reason::BadFirstLine));
        }
        let Ok(shape) = StoreShape::new(self.cpus as u64, self.maps) else {
            unreachable!()
        };
        let Ok(shape) = shape.with_arrays(self.arrays, self.contents) else {
            unreachable!()
        };
        Ok(RunFile {
            setup: Setup {
                shape,
                pairs: self.pairs,
                programs: self.programs,
                jobs: self.jobs,
            },
            seed: self.seed,
            names: self.names,
        })
    }
}
