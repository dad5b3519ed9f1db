//! What a printed line says, read from it. It is taken where it prints as that line again.

ghost use Rattle.std.specs.Prelude.{◌≡◌, IfOk, IfSome};
ghost use Rattle.bpf_json.specs.Lines.{IsRight, IsRightCall, IsRightNumber, IsRightRaced, plain};

use crate::digits::Digits;
use crate::event::{Call, Change, Event};
use crate::job::{End, Job};
use crate::line::{Line, NO_TESTS};
use crate::race::{Place, Race, Raced};
use crate::test::{Remark, Test};
use crate::value::Value;
use std::alloc::{AllocError, Global};

/// A number, and what is after it.
fn number_in(text: &str) -> Option<(u64, &str)> {
    let end = text
        .as_bytes()
        .iter()
        .position(|byte| !byte.is_ascii_digit())
        .unwrap_or(text.len());
    let (digits, rest) = text.split_at_checked(end)?;
    Some((digits.parse().ok()?, rest))
}

/// A word, and what is after it.
fn word_in(text: &str) -> Option<(&str, &str)> {
    text.split_once(' ')
}

/// The line of a job that has ended so.
fn job(job: u64, cpu: u64, end: End) -> Line
    ensures { IsRight result }
{
    Line::Job(Job { job, cpu, end })
}

fn fault(alloc: Global, code: &str, pc: u64) -> Result<End, AllocError> {
    let code = code.to_string(alloc)?;
    Ok(End::Fault { code, pc })
}

/// How a job ended.
fn job_in(alloc: Global, text: &str) -> Option<Result<Line, AllocError>>
    ensures { IfSome result (λ made. IfOk made IsRight) }
{
    let (number, rest) = number_in(text.strip_prefix("job ")?)?;
    let (cpu, rest) = number_in(rest.strip_prefix(" cpu ")?)?;
    if let Some(rest) = rest.strip_prefix(" r0=") {
        let r0 = rest.parse().ok()?;
        return Some(Ok(job(number, cpu, End::Exit(r0))));
    }
    if let Some(rest) = rest.strip_prefix(" out of budget at ") {
        let pc = rest.parse().ok()?;
        return Some(Ok(job(number, cpu, End::OutOfBudget(pc))));
    }
    let (code, rest) = word_in(rest.strip_prefix(" fault ")?)?;
    let pc = rest.strip_prefix("at ")?.parse().ok()?;
    match fault(alloc, code, pc) {
        Ok(end) => Some(Ok(job(number, cpu, end))),
        Err(error) => Some(Err(error)),
    }
}

/// The numbers of a load, or of an atomic operation, from what is before its last one and that.
fn changed_in(before: &str, found: u64) -> Option<Change> {
    let before = without_blank(before);
    if before.is_empty() {
        return Some(Change::Loaded(found));
    }
    let (operand, rest) = number_in(before)?;
    match rest.strip_prefix(" expected ") {
        Some(expected) => Some(Change::Compared {
            operand,
            expected: expected.parse().ok()?,
            found,
        }),
        None => Some(Change::Changed { operand, found }),
    }
}

/// The numbers of an access.
fn change_in(text: &str) -> Option<Change> {
    match text.rsplit_once(" = ") {
        Some((before, found)) => changed_in(before, found.parse().ok()?),
        None => Some(Change::Stored(without_blank(text).parse().ok()?)),
    }
}

fn access(
    alloc: Global,
    name: &str,
    size: u64,
    at: &str,
    change: Change,
) -> Result<Call, AllocError>
    ensures { IfOk result IsRightCall }
{
    let name = name.to_string(alloc)?;
    let at = at.to_string(alloc)?;
    Ok(Call::Access {
        name,
        size,
        at,
        change,
    })
}

/// An access, or an atomic operation.
fn access_in(alloc: Global, text: &str) -> Option<Result<Call, AllocError>>
    ensures { IfSome result (λ made. IfOk made IsRightCall) }
{
    let (name, rest) = word_in(text)?;
    let (size, rest) = number_in(rest)?;
    let rest = rest.strip_prefix(" at ")?;
    let (at, _) = word_in(rest)?;
    let change = change_in(rest.strip_prefix(at)?)?;
    Some(access(alloc, name, size, at, change))
}

fn lookup(alloc: Global, map: &str, key: &str, answer: &str) -> Result<Call, AllocError>
    ensures { IfOk result IsRightCall }
{
    let map = map.to_string(alloc)?;
    let key = Digits::new(alloc, key)?;
    let answer = answer.to_string(alloc)?;
    Ok(Call::Lookup { map, key, answer })
}

fn lookup_in(alloc: Global, text: &str) -> Option<Result<Call, AllocError>>
    ensures { IfSome result (λ made. IfOk made IsRightCall) }
{
    let (map, rest) = word_in(text.strip_prefix("lookup ")?)?;
    let (key, answer) = rest.split_once(" = ")?;
    Some(lookup(alloc, map, key, answer))
}

fn delete(alloc: Global, map: &str, key: &str, answer: &str) -> Result<Call, AllocError>
    ensures { IfOk result IsRightCall }
{
    let map = map.to_string(alloc)?;
    let key = Digits::new(alloc, key)?;
    let answer = answer.to_string(alloc)?;
    Ok(Call::Delete { map, key, answer })
}

fn delete_in(alloc: Global, text: &str) -> Option<Result<Call, AllocError>>
    ensures { IfSome result (λ made. IfOk made IsRightCall) }
{
    let (map, rest) = word_in(text.strip_prefix("delete ")?)?;
    let (key, answer) = rest.split_once(" = ")?;
    Some(delete(alloc, map, key, answer))
}

/// An update of a key by a value, with how it was asked for and answered.
fn update(
    alloc: Global,
    map: &str,
    pair: (&str, &str),
    flags: u64,
    answer: &str,
) -> Result<Call, AllocError>
    ensures { IfOk result IsRightCall }
{
    let map = map.to_string(alloc)?;
    let key = Digits::new(alloc, pair.0)?;
    let value = Digits::new(alloc, pair.1)?;
    let answer = answer.to_string(alloc)?;
    Ok(Call::Update {
        map,
        key,
        value,
        flags,
        answer,
    })
}

fn update_in(alloc: Global, text: &str) -> Option<Result<Call, AllocError>>
    ensures { IfSome result (λ made. IfOk made IsRightCall) }
{
    let (map, rest) = word_in(text.strip_prefix("update ")?)?;
    let (key, rest) = word_in(rest)?;
    let (value, rest) = rest.split_once(" flags ")?;
    let (flags, answer) = number_in(rest)?;
    Some(update(alloc, map, (key, value), flags, answer.strip_prefix(" = ")?))
}

/// That a job begins or ends; any text is of this kind.
fn moment(alloc: Global, name: &str) -> Result<Call, AllocError>
    ensures { IfOk result IsRightCall }
{
    let name = name.to_string(alloc)?;
    Ok(Call::Job(name))
}

/// What happens.
fn call_of(alloc: Global, text: &str) -> Result<Call, AllocError>
    ensures { IfOk result IsRightCall }
{
    let made = lookup_in(alloc, text)
        .or_else(|| update_in(alloc, text))
        .or_else(|| delete_in(alloc, text))
        .or_else(|| access_in(alloc, text));
    match made {
        Some(made) => made,
        None => moment(alloc, text),
    }
}

/// What a CPU does in which job and at which pc.
fn event(alloc: Global, cpu: u64, job: u64, pc: u64, call: &str) -> Result<Line, AllocError>
    ensures { IfOk result IsRight }
{
    let call = call_of(alloc, call)?;
    Ok(Line::Event(Event { cpu, job, pc, call }))
}

fn event_in(alloc: Global, text: &str) -> Option<Result<Line, AllocError>>
    ensures { IfSome result (λ made. IfOk made IsRight) }
{
    let (cpu, rest) = number_in(text.strip_prefix("cpu ")?)?;
    let (job, rest) = number_in(rest.strip_prefix(" job ")?)?;
    let (pc, rest) = number_in(rest.strip_prefix(" pc ")?)?;
    Some(event(alloc, cpu, job, pc, rest.strip_prefix(" ")?))
}

fn flush(alloc: Global, cpu: u64, size: u64, at: &str, word: u64) -> Result<Line, AllocError>
    ensures { IfOk result IsRight }
{
    let at = at.to_string(alloc)?;
    Ok(Line::Flush {
        cpu,
        size,
        at,
        word,
    })
}

/// A waiting store that reaches memory.
fn flush_in(alloc: Global, text: &str) -> Option<Result<Line, AllocError>>
    ensures { IfSome result (λ made. IfOk made IsRight) }
{
    let (cpu, rest) = number_in(text.strip_prefix("cpu ")?)?;
    let (size, rest) = number_in(rest.strip_prefix(" flush store ")?)?;
    let (at, word) = word_in(rest.strip_prefix(" at ")?)?;
    let (word, _) = number_in(word)?;
    Some(flush(alloc, cpu, size, at, word))
}

fn packet(alloc: Global, job: u64, bytes: &str) -> Result<Line, AllocError>
    ensures { IfOk result IsRight }
{
    let bytes = bytes.to_string(alloc)?;
    Ok(Line::Packet { job, bytes })
}

/// What a job leaves in its packet.
fn packet_in(alloc: Global, text: &str) -> Option<Result<Line, AllocError>>
    ensures { IfSome result (λ made. IfOk made IsRight) }
{
    let (job, bytes) = number_in(text.strip_prefix("packet ")?)?;
    Some(packet(alloc, job, bytes.strip_prefix(" ")?))
}

fn pair(alloc: Global, map: &str, key: &str, value: &str) -> Result<Line, AllocError>
    ensures { IfOk result IsRight }
{
    let map = map.to_string(alloc)?;
    let key = Digits::new(alloc, key)?;
    let value = Digits::new(alloc, value)?;
    Ok(Line::Value(Value::Pair { map, key, value }))
}

/// A key of a map with its value.
fn pair_in(alloc: Global, text: &str) -> Option<Result<Line, AllocError>>
    ensures { IfSome result (λ made. IfOk made IsRight) }
{
    let (map, rest) = word_in(text.strip_prefix("map ")?)?;
    let (key, value) = rest.split_once('=')?;
    Some(pair(alloc, map, key, value))
}

fn element(
    alloc: Global,
    array: &str,
    index: u64,
    cpu: Option<u64>,
    value: &str,
) -> Result<Line, AllocError>
    ensures { IfOk result IsRight }
{
    let array = array.to_string(alloc)?;
    let value = Digits::new(alloc, value)?;
    Ok(Line::Value(Value::Element {
        array,
        index,
        cpu,
        value,
    }))
}

/// An index of an array with its value, and a CPU where each has one.
fn element_in(alloc: Global, text: &str) -> Option<Result<Line, AllocError>>
    ensures { IfSome result (λ made. IfOk made IsRight) }
{
    let (array, rest) = word_in(text.strip_prefix("array ")?)?;
    let (index, rest) = number_in(rest)?;
    if let Some(value) = rest.strip_prefix("=") {
        return Some(element(alloc, array, index, None, value));
    }
    let (cpu, rest) = number_in(rest.strip_prefix(" cpu ")?)?;
    let value = rest.strip_prefix("=")?;
    Some(element(alloc, array, index, Some(cpu), value))
}

fn variable(alloc: Global, name: &str, number: u64) -> Result<Line, AllocError>
    ensures { IfOk result IsRight }
{
    let name = name.to_string(alloc)?;
    Ok(Line::Value(Value::Variable { name, number }))
}

/// A variable with its number.
fn variable_in(alloc: Global, text: &str) -> Option<Result<Line, AllocError>>
    ensures { IfSome result (λ made. IfOk made IsRight) }
{
    let (name, number) = text.strip_prefix("var ")?.split_once('=')?;
    Some(variable(alloc, name, number.parse().ok()?))
}

/// The last line of a search.
fn counts_in(text: &str) -> Option<Result<Line, AllocError>>
    ensures { IfSome result (λ made. IfOk made IsRight) }
{
    let (head, rest) = text.split_once(": ")?;
    let (outcomes, rest) = number_in(rest)?;
    let (states, _) = number_in(rest.strip_prefix(" outcomes, ")?)?;
    Some(Ok(Line::Counts {
        all: head == "all",
        outcomes,
        states,
    }))
}

/// The last line of a search for races.
fn races_in(text: &str) -> Option<Result<Line, AllocError>>
    ensures { IfSome result (λ made. IfOk made IsRight) }
{
    let (head, rest) = text.split_once(": ")?;
    let (races, _) = number_in(rest)?;
    Some(Ok(Line::Races {
        all: head == "all",
        races,
    }))
}

/// A CPU, its program and where it is in that, and what is after it.
fn place_in(text: &str) -> Option<(Place, &str)> {
    let (cpu, rest) = number_in(text.strip_prefix("cpu ")?)?;
    let (program, rest) = number_in(rest.strip_prefix(" prog ")?)?;
    let (pc, rest) = number_in(rest.strip_prefix(" pc ")?)?;
    Some((Place { cpu, program, pc }, rest.strip_prefix(" ")?))
}

/// The key of a value, if one leads to it.
fn key_of(alloc: Global, key: &str) -> Result<Option<Digits>, AllocError>
    ensures { IfOk result (λ key. IfSome key IsRightNumber) }
{
    if key == "deleted" {
        return Ok(None);
    }
    let key = Digits::new(alloc, key)?;
    Ok(Some(key))
}

/// What is raced for, by the kind of it, its name, and a key or an index.
fn raced(alloc: Global, kind: &str, name: &str, key: &str) -> Result<Raced, AllocError>
    ensures { IfOk result IsRightRaced }
{
    let name = name.to_string(alloc)?;
    if kind == "map" {
        let key = key_of(alloc, key)?;
        return Ok(Raced::Pair { map: name, key });
    }
    if kind == "array" {
        let index = Digits::new(alloc, key)?;
        return Ok(Raced::Element { array: name, index });
    }
    Ok(Raced::Variable(name))
}

fn race(
    alloc: Global,
    places: (Place, Place),
    at: Result<Raced, AllocError>,
    by: &str,
) -> Result<Line, AllocError>
    requires { IfOk at IsRightRaced }
    ensures { IfOk result IsRight }
{
    let (one, other) = places;
    let at = at?;
    let by = by.to_string(alloc)?;
    Ok(Line::Race(Race { one, other, at, by }))
}

/// Two CPUs that race.
fn race_in(alloc: Global, text: &str) -> Option<Result<Line, AllocError>>
    ensures { IfSome result (λ made. IfOk made IsRight) }
{
    let (one, rest) = place_in(text.strip_prefix("race ")?)?;
    let (other, rest) = place_in(rest)?;
    let (kind, rest) = word_in(rest)?;
    let (name, rest) = word_in(rest)?;
    let (key, rest) = if kind == "var" {
        ("", rest)
    } else {
        word_in(rest)?
    };
    let by = without_blank(rest.strip_prefix("by")?);
    let at = raced(alloc, kind, name, key);
    Some(race(alloc, (one, other), at, by))
}

/// What is said of a test, from the line after it.
fn remark_of(alloc: Global, text: &str) -> Result<Remark, AllocError> {
    if let Some(by) = text.strip_prefix("hung by") {
        return Ok(Remark::HungBy(without_blank(by).to_string(alloc)?));
    }
    match text.strip_prefix("by") {
        Some(by) => Ok(Remark::By(without_blank(by).to_string(alloc)?)),
        None => Ok(Remark::Note(text.to_string(alloc)?)),
    }
}

/// The file's name, where there is one, and what is asked of it.
fn named(alloc: Global, name: &str) -> Result<(Option<String>, String), AllocError> {
    match name.rsplit_once(": ") {
        Some((file, name)) => {
            let file = file.to_string(alloc)?;
            Ok((Some(file), name.to_string(alloc)?))
        }
        None => Ok((None, name.to_string(alloc)?)),
    }
}

/// A test, and what is said of it, if anything is.
fn test(
    alloc: Global,
    line: Option<u64>,
    ok: bool,
    number: u64,
    text: &str,
) -> Result<Line, AllocError>
    ensures { IfOk result IsRight }
{
    let (name, remark) = match text.split_once("\n# ") {
        Some((name, remark)) => (name, Some(remark_of(alloc, remark)?)),
        None => (text, None),
    };
    let (file, name) = named(alloc, name)?;
    Ok(Line::Test(Test {
        line,
        ok,
        number,
        file,
        name,
        remark,
    }))
}

/// The number of the line before a test, and what is after it.
fn marked(text: &str) -> Option<(u64, &str)> {
    let (number, rest) = number_in(text.strip_prefix("line ")?)?;
    Some((number, rest.strip_prefix(" ")?))
}

/// That number, where there is one, and what is after it.
pub(crate) fn mark_in(text: &str) -> (Option<u64>, &str) {
    match marked(text) {
        Some((number, rest)) => (Some(number), rest),
        None => (None, text),
    }
}

/// A test, and whether it is ok.
fn test_in(alloc: Global, text: &str) -> Option<Result<Line, AllocError>>
    ensures { IfSome result (λ made. IfOk made IsRight) }
{
    let (line, text) = mark_in(text);
    let (ok, rest) = match text.strip_prefix("not ok ") {
        Some(rest) => (false, rest),
        None => (true, text.strip_prefix("ok ")?),
    };
    let (number, rest) = number_in(rest)?;
    Some(test(alloc, line, ok, number, rest.strip_prefix(" - ")?))
}

/// How many states a comment counts, and of which file where there are several.
pub(crate) fn states_at(text: &str) -> Option<(Option<&str>, u64)> {
    let text = text.strip_prefix("# ")?.strip_suffix(" states")?;
    let (file, digits) = match text.rsplit_once(": ") {
        Some((file, digits)) => (Some(file), digits),
        None => (None, text),
    };
    Some((file, digits.parse().ok()?))
}

/// The line that counts these states.
fn states(alloc: Global, file: Option<&str>, states: u64) -> Result<Line, AllocError>
    ensures { IfOk result IsRight }
{
    let file = match file {
        Some(file) => Some(file.to_string(alloc)?),
        None => None,
    };
    Ok(Line::States { file, states })
}

/// How many states were searched for the tests that follow.
fn states_in(alloc: Global, text: &str) -> Option<Result<Line, AllocError>>
    ensures { IfSome result (λ made. IfOk made IsRight) }
{
    let (file, count) = states_at(text)?;
    Some(states(alloc, file, count))
}

/// How many tests follow, and where none does that they are skipped.
fn plan_in(text: &str) -> Option<Result<Line, AllocError>>
    ensures { IfSome result (λ made. IfOk made IsRight) }
{
    if text == NO_TESTS {
        return Some(Ok(Line::Plan(0)));
    }
    let count = text.strip_prefix("1..")?.parse().ok()?;
    Some(Ok(Line::Plan(count)))
}

fn without_blank(text: &str) -> &str {
    text.strip_prefix(" ").unwrap_or(text)
}

/// A line of one text; any has one, itself.
fn text_in(alloc: Global, text: &str) -> Result<Line, AllocError>
    ensures { IfOk result IsRight }
{
    if let Some(why) = text.strip_prefix("refused ") {
        return Ok(Line::Refused(why.to_string(alloc)?));
    }
    if let Some(note) = text.strip_prefix("# ") {
        return Ok(Line::Note(note.to_string(alloc)?));
    }
    if let Some(by) = text.strip_prefix("hung by") {
        return Ok(Line::Hung(without_blank(by).to_string(alloc)?));
    }
    match text.strip_prefix("by") {
        Some(by) => Ok(Line::By(without_blank(by).to_string(alloc)?)),
        None => Ok(Line::Other(text.to_string(alloc)?)),
    }
}

/// What a line seems to say.
fn guess(alloc: Global, text: &str) -> Result<Line, AllocError>
    ensures { IfOk result IsRight }
{
    let made = job_in(alloc, text)
        .or_else(|| event_in(alloc, text))
        .or_else(|| flush_in(alloc, text))
        .or_else(|| packet_in(alloc, text))
        .or_else(|| pair_in(alloc, text))
        .or_else(|| variable_in(alloc, text))
        .or_else(|| element_in(alloc, text))
        .or_else(|| test_in(alloc, text))
        .or_else(|| states_in(alloc, text))
        .or_else(|| counts_in(text))
        .or_else(|| race_in(alloc, text))
        .or_else(|| races_in(text))
        .or_else(|| plan_in(text));
    match made {
        Some(made) => made,
        None => text_in(alloc, text),
    }
}

/// What a line says.
pub(crate) fn line_of(alloc: Global, text: &str) -> Result<Line, AllocError>
    ensures plain { IfOk result (λ line. plain line ≡ text.now) }
    ensures right { IfOk result IsRight }
{
    let line = guess(alloc, text)?;
    let again = line.plain(alloc)?;
    if again.as_str() == text {
        return Ok(line);
    }
    Ok(Line::Other(text.to_string(alloc)?))
}
