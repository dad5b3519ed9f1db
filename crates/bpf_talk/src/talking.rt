//! A conversation: commands are read from a terminal, and each is answered, and the answer flushed,
//! before more is read.

ghost use Rattle.std.specs.Prelude.{◌≡◌, ◌⊎◌, ◌<◌, ◌≤◌, ◌∷◌, ◌++◌, ◌||◌, ℕ, Bool, List, Ok, Err, [], false, true, is_err, length, map, take, IfErr, IfOk, OnErr, OnOk};
ghost use Rattle.std.specs.List.{concat};
ghost use Rattle.bpf_lines.specs.Lines.{lines_of};
ghost use Rattle.bpf_talk.specs.Terminal.{Call, Read, IsPut, IsSaid};
ghost use Rattle.bpf_talk.specs.Talking.{IsAt, IsSaidWhy, IsStopped, Talks, is_unwritten, line_text, stop_line, was_unread, was_unwritten};

use crate::respond::Respond;
use crate::terminal::Terminal;
use bpf_lines::lines::first_line;
use std::alloc::Global;
use std::io;

/// The greatest number of bytes of a line: as many as a script may have.
pub const MAX_LINE: usize = 16_777_216;

const CHUNK: usize = 65_536;

/// Why a conversation ends before its input does.
#[derive(Clone, Copy, PartialEq, Eq, Debug)]
pub enum Stop {
    /// A read failed.
    Unread,
    /// A line has more than `MAX_LINE` bytes; or `u64::MAX` reads were made.
    TooLong,
    /// A line isn't UTF-8.
    NotText,
    OutOfMemory,
    /// A write failed.
    Unwritten,
}

impl Stop {
    ghost use Rattle.std.specs.Prelude.{◌≡◌};
    ghost use Rattle.bpf_talk.specs.Talking.{stop_line};

    /// What is printed of it.
    fn line(self) -> &'static str
        ensures { result.now ≡ stop_line self }
    {
        match self {
            Stop::Unread => "refused L7\n",
            Stop::TooLong => "refused L10\n",
            Stop::NotText => "refused L8\n",
            Stop::OutOfMemory => "refused L9\n",
            Stop::Unwritten => "",
        }
    }
}

/// How a conversation came to an end.
#[derive(Clone, Copy, PartialEq, Eq, Debug)]
pub enum Talked {
    /// There was no more to read; whether a line is refused.
    Over(bool),
    /// It was said why no more is answered.
    Refused(Stop),
    /// A write failed.
    CutOff,
}

/// Writes all bytes.
fn put<D: Terminal>(terminal: &mut D, bytes: &[u8]) -> io::Result<()>
    requires { D.has_failed terminal.old ≡ false }
    ensures put { OnOk result ((calls : List Call)
        × D.passes terminal.old terminal.new calls × IsPut bytes.now calls) }
    ensures begun { OnErr result ((k : ℕ) × (calls : List Call)
        × D.passes terminal.old terminal.new calls × IsPut (take k bytes.now) calls) }
    ensures told { D.has_failed terminal.new ≡ is_err result }
    ensures readable { D.is_unread terminal.new ≡ D.is_unread terminal.old }
{
    let mut count = 0;
    while count < bytes.len() {
        count += terminal.write(&bytes[count..])?;
    }
    Ok(())
}

/// Writes some texts, one after the other.
fn put_all<D: Terminal>(terminal: &mut D, texts: &[&[u8]]) -> io::Result<()>
    requires { D.has_failed terminal.old ≡ false }
    ensures put { OnOk result ((calls : List Call) × D.passes terminal.old terminal.new calls
        × IsPut (concat (map (λ t. t.now) texts.now)) calls) }
    ensures begun { OnErr result ((k : ℕ) × (calls : List Call)
        × D.passes terminal.old terminal.new calls
        × IsPut (take k (concat (map (λ t. t.now) texts.now))) calls) }
    ensures told { D.has_failed terminal.new ≡ is_err result }
    ensures readable { D.is_unread terminal.new ≡ D.is_unread terminal.old }
{
    for text in texts {
        put(terminal, text)?;
    }
    Ok(())
}

/// Writes some texts, one after the other, and flushes them.
fn say<D: Terminal>(terminal: &mut D, texts: &[&[u8]]) -> io::Result<()>
    requires { D.has_failed terminal.old ≡ false }
    ensures said { OnOk result ((calls : List Call) × D.passes terminal.old terminal.new calls
        × IsSaid (concat (map (λ t. t.now) texts.now)) calls) }
    ensures begun { OnErr result ((k : ℕ) × (calls : List Call)
        × D.passes terminal.old terminal.new calls
        × IsPut (take k (concat (map (λ t. t.now) texts.now))) calls) }
    ensures told { D.has_failed terminal.new ≡ is_err result }
    ensures readable { D.is_unread terminal.new ≡ D.is_unread terminal.old }
{
    put_all(terminal, texts)?;
    terminal.flush()
}

/// Writes what a line is answered, after the line where lines are shown, and flushes it.
fn tell<D: Terminal>(terminal: &mut D, echo: bool, line: &[u8], text: &str) -> io::Result<()>
    requires { D.has_failed terminal.old ≡ false }
    ensures said { OnOk result ((calls : List Call) × D.passes terminal.old terminal.new calls
        × IsSaid (line_text echo line.now text.now) calls) }
    ensures begun { OnErr result ((k : ℕ) × (calls : List Call)
        × D.passes terminal.old terminal.new calls
        × IsPut (take k (line_text echo line.now text.now)) calls) }
    ensures told { D.has_failed terminal.new ≡ is_err result }
    ensures readable { D.is_unread terminal.new ≡ D.is_unread terminal.old }
{
    let text = text.as_bytes();
    if echo && !line.is_empty() {
        say(terminal, &["> ".as_bytes(), line, "\n".as_bytes(), text])
    } else {
        say(terminal, &[text])
    }
}

/// Whether one of two things is so, both of which are known.
fn either(one: bool, other: bool) -> bool
    ensures { result ≡ (one || other) }
{
    one || other
}

/// Answers a line; whether it is refused.
fn answer_line<S: Respond, D: Terminal>(
    alloc: Global,
    echo: bool,
    session: &mut S,
    line: &[u8],
    terminal: &mut D,
) -> Result<bool, Stop>
    requires { D.has_failed terminal.old ≡ false }
    ensures answered { IfOk result (λ one. (start : D) (first : S) (left : List (List ℕ))
        (size : ℕ) (ended refused : Bool)
        → IsAt S.answers (D.passes start terminal.old) echo first session.old (line.now ∷ left) size ended refused
        → IsAt S.answers (D.passes start terminal.new) echo first session.new left size ended (refused || one)) }
    ensures stopped { IfErr result (λ why. (start : D) (first : S) (left : List (List ℕ))
        (size : ℕ) (ended refused : Bool)
        → IsAt S.answers (D.passes start terminal.old) echo first session.old (line.now ∷ left) size ended refused
        → IsStopped S.answers (D.passes start terminal.new) echo first why) }
    ensures told { D.has_failed terminal.new ≡ was_unwritten result }
    ensures readable { D.is_unread terminal.new ≡ D.is_unread terminal.old }
    ensures read { was_unread result ≡ false }
{
    let Ok(_) = str::from_utf8(line) else {
        return Err(Stop::NotText);
    };
    let refused = session.answer(alloc, line);
    match tell(terminal, echo, line, session.told()) {
        Ok(()) => Ok(refused),
        Err(_) => Err(Stop::Unwritten),
    }
}

/// Answers the lines that end in a text; what follows them, and whether one is refused.
fn answer_lines<'a, S: Respond, D: Terminal>(
    alloc: Global,
    echo: bool,
    session: &mut S,
    text: &'a [u8],
    terminal: &mut D,
) -> Result<(&'a [u8], bool), Stop>
    requires { D.has_failed terminal.old ≡ false }
    ensures answered { IfOk result (λ r. (start : D) (first : S)
        (size : ℕ) (ended refused : Bool)
        → IsAt S.answers (D.passes start terminal.old) echo first session.old (lines_of text.now) size ended refused
        → IsAt S.answers (D.passes start terminal.new) echo first session.new (r.0.now ∷ []) size ended (refused || r.1)) }
    ensures stopped { IfErr result (λ why. (start : D) (first : S)
        (size : ℕ) (ended refused : Bool)
        → IsAt S.answers (D.passes start terminal.old) echo first session.old (lines_of text.now) size ended refused
        → IsStopped S.answers (D.passes start terminal.new) echo first why) }
    ensures told { D.has_failed terminal.new ≡ was_unwritten result }
    ensures readable { D.is_unread terminal.new ≡ D.is_unread terminal.old }
    ensures read { was_unread result ≡ false }
{
    let (mut line, mut behind) = first_line(text);
    let mut refused = false;
    'lines: while let Some(rest) = behind {
        let one = answer_line(alloc, echo, session, line, terminal)?;
        refused = either(refused, one);
        let next = first_line(rest);
        line = next.0;
        behind = next.1;
    }
    Ok((line, refused))
}

/// One read, whose bytes go after those that are held. This many are read; none where there are no
/// more.
fn hear<D: Terminal>(terminal: &mut D, held: &mut Vec<u8>, room: &mut [u8]) -> Result<usize, Stop>
    requires readable { D.is_unread terminal.old ≡ false }
    requires some { 0 < length room.old }
    ensures heard { IfOk result (λ n. (bytes : List ℕ)
        × D.passes terminal.old terminal.new (Read bytes ∷ [])
        × (held.new.items ≡ held.old.items ++ bytes) × (length bytes ≡ n)) }
    ensures bound { IfOk result (λ n. n ≤ length room.old) }
    ensures lost { OnErr result (((bytes : List ℕ)
        × D.passes terminal.old terminal.new (Read bytes ∷ []))
        ⊎ D.passes terminal.old terminal.new []) }
    ensures why { IfErr result (λ why. (why ≡ Stop.Unread) ⊎ (why ≡ Stop.OutOfMemory)) }
    ensures unread { D.is_unread terminal.new ≡ was_unread result }
    ensures writable { D.has_failed terminal.new ≡ D.has_failed terminal.old }
{
    let count = terminal.read(room).map_err(|_| Stop::Unread)?;
    held.extend_from_slice(&room[..count])
        .map_err(|_| Stop::OutOfMemory)?;
    Ok(count)
}

/// Answers the lines that end in what is held, and holds what follows them; whether one is
/// refused.
fn answer_held<S: Respond, D: Terminal>(
    alloc: Global,
    echo: bool,
    session: &mut S,
    held: &mut Vec<u8>,
    terminal: &mut D,
) -> Result<bool, Stop>
    requires { D.has_failed terminal.old ≡ false }
    ensures answered { IfOk result (λ one. (start : D) (first : S) (size : ℕ) (ended refused : Bool)
        → IsAt S.answers (D.passes start terminal.old) echo first session.old (lines_of held.old.items) size ended refused
        → IsAt S.answers (D.passes start terminal.new) echo first session.new (held.new.items ∷ []) size ended (refused || one)) }
    ensures stopped { IfErr result (λ why. (start : D) (first : S) (size : ℕ) (ended refused : Bool)
        → IsAt S.answers (D.passes start terminal.old) echo first session.old (lines_of held.old.items) size ended refused
        → IsStopped S.answers (D.passes start terminal.new) echo first why) }
    ensures told { D.has_failed terminal.new ≡ was_unwritten result }
    ensures readable { D.is_unread terminal.new ≡ D.is_unread terminal.old }
    ensures read { was_unread result ≡ false }
{
    let (rest, refused) = answer_lines(alloc, echo, session, held.as_slice(), terminal)?;
    let Ok(kept) = Vec::from_slice(alloc, rest) else {
        return Err(Stop::OutOfMemory);
    };
    *held = kept;
    Ok(refused)
}

/// Answers lines until there are no more; whether one is refused.
fn answer_all<S: Respond, D: Terminal>(
    alloc: Global,
    echo: bool,
    session: &mut S,
    terminal: &mut D,
) -> Result<bool, Stop>
    requires readable { D.is_unread terminal.old ≡ false }
    requires writable { D.has_failed terminal.old ≡ false }
    ensures answered { IfOk result (λ refused. (size : ℕ) × IsAt S.answers
        (D.passes terminal.old terminal.new) echo session.old session.new [] size true refused) }
    ensures stopped { IfErr result (IsStopped S.answers (D.passes terminal.old terminal.new) echo
        session.old) }
    ensures told { D.has_failed terminal.new ≡ was_unwritten result }
    ensures unread { D.is_unread terminal.new ≡ was_unread result }
{
    let mut held = Vec::new(alloc);
    let mut chunk = [0; CHUNK];
    let mut refused = false;
    for _ in 0..u64::MAX {
        let count = hear(terminal, &mut held, &mut chunk)?;
        if count == 0 {
            let last = answer_line(alloc, echo, session, &held, terminal)?;
            return Ok(either(refused, last));
        }
        let one = answer_held(alloc, echo, session, &mut held, terminal)?;
        refused = either(refused, one);
        if held.len() > MAX_LINE {
            return Err(Stop::TooLong);
        }
    }
    Err(Stop::TooLong)
}

/// Says why no more is answered.
fn say_why<D: Terminal>(terminal: &mut D, why: Stop) -> io::Result<()>
    requires { D.has_failed terminal.old ≡ false }
    ensures said { OnOk result ((calls : List Call) × D.passes terminal.old terminal.new calls
        × IsSaid (stop_line why) calls) }
    ensures begun { OnErr result ((k : ℕ) × (calls : List Call)
        × D.passes terminal.old terminal.new calls × IsPut (take k (stop_line why)) calls) }
    ensures told { D.has_failed terminal.new ≡ is_err result }
    ensures readable { D.is_unread terminal.new ≡ D.is_unread terminal.old }
{
    say(terminal, &[why.line().as_bytes()])
}

/// Says why no more is answered, where something can still be written.
fn end_early<D: Terminal>(terminal: &mut D, why: Stop) -> Talked
    requires { D.has_failed terminal.old ≡ is_unwritten why }
    ensures said { IsSaidWhy (D.passes terminal.old terminal.new) why (D.has_failed terminal.new)
        result }
    ensures readable { D.is_unread terminal.new ≡ D.is_unread terminal.old }
{
    if why == Stop::Unwritten {
        return Talked::CutOff;
    }
    match say_why(terminal, why) {
        Ok(()) => Talked::Refused(why),
        Err(_) => Talked::CutOff,
    }
}

/// A whole conversation with what answers lines. All that there is to say is written; what is given
/// says how it ended.
pub fn talk<S: Respond, D: Terminal>(
    alloc: Global,
    echo: bool,
    session: &mut S,
    terminal: &mut D,
) -> Talked
    requires readable { D.is_unread terminal.old ≡ false }
    requires writable { D.has_failed terminal.old ≡ false }
    ensures { (calls : List Call) × D.passes terminal.old terminal.new calls
        × Talks S.answers echo session.old session.new calls (D.is_unread terminal.new)
        (D.has_failed terminal.new) result }
{
    match answer_all(alloc, echo, session, terminal) {
        Ok(refused) => Talked::Over(refused),
        Err(why) => end_early(terminal, why),
    }
}
