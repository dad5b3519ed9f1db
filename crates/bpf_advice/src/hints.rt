//! What may be meant, where a line is spelled as C, LLVM, the kernel or another machine spell it.
//!
//! A habit is a row of one of the tables; only what takes a look at more than one place has a
//! function of its own.

use crate::inputs::is_objdump;
use bpf_codes::Code;

const AS_IN_C: &str =
    "operations are written as in C: `r0 = 5`, `r0 += r1`, `r0 = *(u32 *)(r1 + 0)`";

const CONDITION: &str =
    "a jump with a condition is one line: `if r1 != 0 goto NAME`, and with a sign `if r1 s> 0 goto NAME`";

const NO_BLOCKS: &str =
    "there are no blocks: `loop:` names a place, and `if r1 != 0 goto loop` leads back to it";

const SIZES: &str =
    "sizes are `u8`, `u16`, `u32` and `u64`, and of loads with a sign `s8`, `s16` and `s32`";

const COMMENT: &str = "a comment begins with `;`";

const MEMORY: &str = "memory has a size, and an address with an offset: `*(u32 *)(r1 + 0)`";

const REGISTERS: &str =
    "registers are `r0` to `r10`, and `w0` to `w10` their low 32 bits; the stack is below r10";

const RUN_FILE: &str = "this looks like a run file: `ebpf run FILE` takes it";

/// First words of instructions, and what may be meant.
static FIRST_WORDS: [(&str, &str); 17] = [
    (
        "mov mov32 movl movq movabs add add32 sub sub32 mul imul div mod or and xor lsh rsh arsh shl shr sar neg not",
        AS_IN_C,
    ),
    (
        "ld ldx ldxb ldxh ldxw ldxdw st stx stb sth stw stdw stxb stxh stxw stxdw ldr str lw sw li addi",
        AS_IN_C,
    ),
    ("ja jmp jump br", "`goto NAME` jumps to the label NAME"),
    (
        "jeq jne jgt jge jlt jle jset jsgt jsge jslt jsle je jz jnz jg jl jb jbe jae beq bne bgt bge blt ble cmp test",
        CONDITION,
    ),
    (
        "ret return",
        "`exit` ends a function or the program, and its answer is r0",
    ),
    (
        "inc dec",
        "`r1 += 1` adds 1 to a register, and `r1 -= 1` takes 1 off it",
    ),
    (
        "push pop",
        "there is no push: `*(u64 *)(r10 - 8) = r1` keeps a register in the frame",
    ),
    (
        "lea",
        "an address is computed as a number is: `r1 = r10`, then `r1 += -8`",
    ),
    ("nop", "`goto +0` does nothing"),
    ("while for do else switch break continue", NO_BLOCKS),
    (
        "int long unsigned char short u8 u16 u32 u64 s8 s16 s32 s64 var let",
        "nothing is declared: registers hold numbers, and the frame below r10 holds bytes",
    ),
    (
        "print printf printk puts",
        "nothing is printed by a program: its answer is r0, and `run --maps` prints what maps hold",
    ),
    ("exit", "`exit` is alone on its line, and its answer is r0"),
    (
        "lock",
        "`lock` takes 4 or 8 bytes of memory and a register: `lock *(u64 *)(r1 + 0) += r2`",
    ),
    ("ebpf-run ebpf", RUN_FILE),
    ("cpus seed map prog job", RUN_FILE),
    (
        "end",
        "`end` closes a program of a run file, and is alone on its line",
    ),
];

/// What is there where no form goes on, and what may be meant.
static FRONTS: [(&str, &str); 30] = [
    ("//", COMMENT),
    ("/*", COMMENT),
    ("#", COMMENT),
    ("++", "`r1 += 1` adds 1 to a register"),
    ("--", "`r1 -= 1` takes 1 off a register"),
    ("[", MEMORY),
    ("'", "a character is written as its number: `a` is 97"),
    (
        "\"",
        "there are no texts: bytes are stored as numbers, as in `*(u8 *)(r10 - 1) = 97`",
    ),
    ("{", NO_BLOCKS),
    ("}", NO_BLOCKS),
    ("!=", "`!=` compares, after `if`"),
    ("!", "there is no `!`: `if r1 == 0 goto NAME` tests for 0"),
    ("~", "`r1 ^= -1` turns all bits of a register round"),
    (
        "?",
        "there is no `?`: a condition jumps over one of two lines",
    ),
    ("uint", SIZES),
    ("int", SIZES),
    ("__u", SIZES),
    ("__s", SIZES),
    ("unsigned", SIZES),
    ("char", SIZES),
    ("short", SIZES),
    ("long", SIZES),
    ("void", SIZES),
    ("size_t", SIZES),
    ("byte ptr", MEMORY),
    ("word ptr", MEMORY),
    ("dword", MEMORY),
    ("qword", MEMORY),
    ("%r", REGISTERS),
    ("%e", REGISTERS),
];

/// What a line has, and what may be meant.
static PIECES: [(&str, &str); 8] = [
    ("pc+", "a jump's distance is one word: `goto +3`, `goto -3`"),
    ("pc-", "a jump's distance is one word: `goto +3`, `goto -3`"),
    (
        "&&",
        "a line has one condition: a second one jumps from the next line",
    ),
    (
        "||",
        "a line has one condition: a second one jumps from the next line",
    ),
    ("*)r", MEMORY),
    ("= *r", MEMORY),
    ("(%r", MEMORY),
    (":=", "`=` assigns: `r0 = 5`"),
];

/// Registers of other machines.
const OTHER_REGISTERS: &str =
    "rax rbx rcx rdx rsi rdi rsp rbp eax ebx ecx edx esi edi esp ebp ax bx cx dx sp fp lr pc x0 x1 x2 x3 a0 a1 a2 a3 t0 t1";

/// What is between the operands of an operation.
const OPERATORS: &str = "+-*/&|^%<>";

/// A refused line of assembly.
#[derive(Clone, Copy)]
struct Line<'a> {
    /// To its comment.
    code: &'a str,
    /// The line without its label.
    insn: &'a str,
    /// What is before the place at which it is refused.
    before: &'a str,
    /// What is left there.
    left: &'a str,
}

/// A word of letters, digits and underscores at the front.
pub fn front_word(text: &str) -> &str {
    let length = text
        .as_bytes()
        .iter()
        .take_while(|byte| byte.is_ascii_alphanumeric() || **byte == b'_')
        .count();
    text.get(..length).unwrap_or("")
}

/// Whether a text ends with one of some characters.
fn ends_with_one(text: &str, characters: &str) -> bool {
    text.ends_with(|letter: char| characters.contains(letter))
}

fn begins_with_digit(text: &str) -> bool {
    text.starts_with(|letter: char| letter.is_ascii_digit())
}

/// What follows the label of a line, if it has one.
pub fn unlabelled(code: &str) -> &str {
    match code.split_once(':') {
        Some((label, rest)) if !label.trim().is_empty() => {
            let label = label.trim();
            if front_word(label).len() == label.len() && !rest.starts_with('=') {
                rest
            } else {
                code
            }
        }
        _ => code,
    }
}

impl<'a> Line<'a> {
    fn new(line: &'a str, place: usize) -> Option<Line<'a>> {
        let code = line.split(';').next().unwrap_or("");
        Some(Line {
            code,
            insn: unlabelled(code).trim(),
            before: code.get(..place.min(code.len()))?.trim(),
            left: line.get(place..)?,
        })
    }

    fn first_word(&self) -> &'a str {
        self.insn.split_ascii_whitespace().next().unwrap_or("")
    }

    fn is_condition(&self) -> bool {
        front_word(self.insn) == "if"
    }

    fn is_call(&self) -> bool {
        front_word(self.insn) == "call"
    }
}

/// What the rows say of a word.
fn row_of_word(rows: &[(&str, &'static str)], word: &str) -> Option<&'static str> {
    let row = rows
        .iter()
        .find(|row| row.0.split(' ').any(|one| one == word))?;
    Some(row.1)
}

/// What the rows say of a text that begins so.
fn row_of_front(rows: &[(&str, &'static str)], text: &str) -> Option<&'static str> {
    let row = rows.iter().find(|row| text.starts_with(row.0))?;
    Some(row.1)
}

/// What the rows say of a text that has one of these pieces.
fn row_of_piece(rows: &[(&str, &'static str)], text: &str) -> Option<&'static str> {
    let row = rows.iter().find(|row| text.contains(row.0))?;
    Some(row.1)
}

/// A register's number, where a word is written as one, whether or not there is such a register.
fn register_number(word: &str) -> Option<u32> {
    let digits = word
        .strip_prefix('r')
        .or_else(|| word.strip_prefix('w'))
        .or_else(|| word.strip_prefix('R'))
        .or_else(|| word.strip_prefix('W'))?;
    digits.parse::<u32>().ok()
}

fn is_register(word: &str) -> bool {
    register_number(word).is_some_and(|number| number <= 10)
        && word.starts_with(|letter: char| letter == 'r' || letter == 'w')
}

/// A word in a register's place that is none of this machine.
fn register_hint(word: &str) -> Option<&'static str> {
    if OTHER_REGISTERS.split(' ').any(|other| other == word) {
        return Some(REGISTERS);
    }
    match register_number(word) {
        Some(number) if number > 10 => Some(REGISTERS),
        Some(_) if !is_register(word) => Some("registers are written in lower case: `r0`"),
        _ => None,
    }
}

/// Whether the line has an address without an offset, as in `*(u32 *)(r1)`.
fn lacks_offset(code: &str) -> bool {
    match code.split_once("*)(r") {
        Some((_, address)) => {
            let inside = address.split(')').next().unwrap_or("");
            !inside.contains('+') && !inside.contains('-')
        }
        None => false,
    }
}

/// Whether a line has an address before its bytes, as objdump prints them. A label begins with no
/// digit.
fn has_address(line: &str) -> bool {
    begins_with_digit(line.trim()) && is_objdump(line)
}

/// Whether the line is of an object's text, as clang or objdump print it.
fn is_of_object(line: &Line<'_>) -> bool {
    line.code.trim().starts_with('.') || line.code.contains("file format") || has_address(line.code)
}

/// Hints of memory.
fn memory_hint(line: &Line<'_>) -> Option<&'static str> {
    let word = front_word(line.left);
    if line.left.starts_with(')') && lacks_offset(line.code) {
        Some("an address has an offset: `*(u32 *)(r1 + 0)`")
    } else if line.left.starts_with('w') && line.code.contains("*)(r") {
        Some("memory is loaded and stored by `r` registers: `*(u32 *)(r1 + 0) = r2`")
    } else if is_register(word) && ends_with_one(line.before, "+-") && line.code.contains("*)(") {
        Some("an address is one register and a number: `r3 = r1`, `r3 += r2`, then `(r3 + 0)`")
    } else {
        None
    }
}

/// Hints of numbers.
fn number_hint(line: &Line<'_>) -> Option<&'static str> {
    let word = front_word(line.left);
    if begins_with_digit(word) && word.ends_with("ll") {
        Some("`ll` comes after a blank: `r0 = 5 ll`")
    } else if line.left.starts_with("ll") {
        Some("`ll` comes after a number: `r0 = 5 ll`")
    } else if begins_with_digit(word) && line.before.ends_with("goto") {
        Some("a distance has its sign: `goto +5`, `goto -5`")
    } else if begins_with_digit(word) && !word.starts_with("0x") && word.parse::<u64>().is_err() {
        Some("a number is decimal digits, or `0x` and hex digits")
    } else if line.left.starts_with('.') {
        Some("numbers are whole")
    } else {
        None
    }
}

/// Hints of conditions.
fn condition_hint(line: &Line<'_>) -> Option<&'static str> {
    if !line.is_condition() {
        return if line.left.starts_with("==") {
            Some("`=` assigns, and `==` compares, after `if`")
        } else {
            None
        };
    }
    if line.left.starts_with('(') {
        Some("a condition has no brackets: `if r0 > 1 goto NAME`")
    } else if line.left.starts_with('=') && !line.left.starts_with("==") {
        Some("`==` tests whether two are equal: `if r0 == 1 goto NAME`")
    } else if line.left.starts_with("goto") {
        Some("a condition compares: `if r0 != 0 goto NAME`")
    } else if !line.code.contains("goto") {
        Some("a condition ends in a jump: `if r0 > 1 goto NAME`")
    } else {
        None
    }
}

/// Hints of calls.
fn call_hint(line: &Line<'_>) -> Option<&'static str> {
    if !line.is_call() {
        None
    } else if line.left.starts_with('#') {
        Some("a helper is called by its number or its name alone: `call 1`, `call lookup`")
    } else if line.left.starts_with('(') {
        Some("a call has no brackets: `call NAME` takes what r1 to r5 hold")
    } else if is_register(front_word(line.left)) {
        Some("there is no call through a register: `call NAME`")
    } else {
        None
    }
}

/// Hints of what two registers do together.
fn operand_hint(line: &Line<'_>) -> Option<&'static str> {
    let word = front_word(line.left);
    let is_operator = line
        .left
        .starts_with(|letter: char| OPERATORS.contains(letter));
    if line.code.contains("= be") || line.code.contains("= le") || line.code.contains("= bswap") {
        Some("bytes are swapped in one register: `r1 = be16 r1`")
    } else if line.before.ends_with('-') && is_register(word) {
        Some("a register is negated in place: `r0 = r1`, then `r0 = -r0`")
    } else if is_register(word) && line.before.ends_with('=') {
        Some("both registers have one width: `w0 = w1`, or `r0 = r1`")
    } else if is_operator && line.before.contains('=') && !line.is_condition() {
        Some("a line has one operation: `r0 = r1`, then `r0 *= 2`")
    } else {
        None
    }
}

/// Whether a line begins with a name and an instruction, without a colon between them.
fn lacks_colon(line: &Line<'_>) -> bool {
    let mut words = line.insn.split_ascii_whitespace();
    let (Some(name), Some(next)) = (words.next(), words.next()) else {
        return false;
    };
    let begins = is_register(next) || matches!(next, "if" | "goto" | "call" | "exit" | "lock");
    line.before.is_empty() && front_word(name).len() == name.len() && begins
}

/// What may be meant by a line of assembly that has no form.
fn spelling_hint(line: &Line<'_>) -> Option<&'static str> {
    if let Some(hint) = call_hint(line) {
        return Some(hint);
    }
    if is_of_object(line) {
        return Some(
            "text of clang or objdump: `llvm-objcopy -O binary --only-section=.text` takes words out of the object, and `xxd -p` makes hex digits of them",
        );
    }
    if line.left.starts_with('<') && line.code.contains('>') && line.code.contains("goto") {
        return Some("a target is a distance or a label alone: leave `<..>` out");
    }
    memory_hint(line)
        .or_else(|| row_of_word(&FIRST_WORDS, line.first_word()))
        .or_else(|| row_of_front(&FRONTS, line.left))
        .or_else(|| row_of_piece(&PIECES, line.code))
        .or_else(|| condition_hint(line))
        .or_else(|| number_hint(line))
        .or_else(|| register_hint(front_word(line.left)))
        .or_else(|| operand_hint(line))
        .or_else(|| {
            if lacks_colon(line) {
                Some("a label has a colon after it: `loop:`")
            } else {
                None
            }
        })
}

/// Whether a text ends after `= &`, a name and a sign.
fn is_beside_name(before: &str) -> bool {
    match before.split_once('&') {
        Some((front, _)) => front.trim_end().ends_with('='),
        None => false,
    }
}

/// What may be meant by a number that is out of its range.
fn range_hint(line: &Line<'_>) -> &'static str {
    if is_beside_name(line.before) {
        "an address and a number make one of 64 bits, 0 to 18446744073709551615"
    } else if line.code.contains("goto") && !ends_with_one(line.before, "=<>&") {
        "a jump reaches 32,767 words forward and 32,768 back, and `gotol` as far as a program goes"
    } else if ends_with_one(line.before, "+-") && line.code.contains("*)(") {
        "an offset is a number from -32768 to 32767: add more to the register first"
    } else if line.is_call() {
        "the number of a helper has 32 bits"
    } else if line.code.contains(" ll") || line.code.contains("map") {
        "such a number has no sign: 64 bits before `ll`, and 32 after `map`"
    } else {
        "a number of more than 31 bits and a sign has `ll` after it: `r1 = 0xffffffff ll`, then `r0 += r1`"
    }
}

/// What may be meant by the line that is refused at this place.
pub fn hint_of(code: Code, line: &str, place: Option<usize>) -> Option<&'static str> {
    match code {
        Code::A1 => spelling_hint(&Line::new(line, place?)?),
        Code::A2 => Some(range_hint(&Line::new(line, place?)?)),
        Code::A3 if line.contains("call") => {
            call_hint(&Line::new(line, place?)?).or(Some(
                "a helper is called by its number or its name: 1 or `lookup`, 2 or `update`, 3 or `delete`, 8 or `cpu`",
            ))
        }
        Code::A3 if line.contains("pc") => {
            Some("a jump's distance is one word: `goto +3`, `goto -3`")
        }
        _ => None,
    }
}

/// What may be meant by a program that is refused.
pub fn hint_of_program(code: Code) -> Option<&'static str> {
    match code {
        Code::E1 => Some("a program has one instruction at least: `exit`"),
        Code::E8 => Some("copy it first: `r2 = r10`, then `r2 += -8`"),
        Code::E9 | Code::E10 => {
            Some("a label counts for you: `goto NAME`, and `NAME:` before an instruction")
        }
        Code::E11 => Some("end it by `exit`, or by a `goto`"),
        Code::E12 => {
            Some(
                "of maps helpers are 1 or `lookup`, 2 or `update`, 3 or `delete`; `ebpf explain E12` names the others; `call NAME` calls a function",
            )
        }
        Code::E13 => Some("the lines `map` of a run file give maps, which count from 0"),
        _ => None,
    }
}

/// What may be meant by a call at a fault of this code, of which this is known.
pub fn hint_of_fault(code: Code, known: &str) -> Option<&'static str> {
    match code {
        Code::F3 => Some("a function that calls itself needs a way out before the ninth call"),
        Code::F4 if known.contains("r1, which holds 0x0\n") => {
            Some(
                "`r1 = map 0` names the first map, anew before each call, since a call of a helper sets r1 to r5 to 0; words taken out of an object have lost which map they name: in C, map N is `(void *)(0x100000000ull + N)`",
            )
        }
        Code::F4 => Some("`r1 = map 0` names the first map of the run file"),
        _ => None,
    }
}
