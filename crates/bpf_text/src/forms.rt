//! The forms of the language, each as its pieces, and whether tokens begin one.

ghost use Rattle.std.specs.Prelude.{◌≡◌, ◌∷◌, ◌↔◌, [], map, IsTrue, MatchOption};
ghost use Rattle.bpf_text.specs.Misfit.{FormGoesOn};
ghost use Rattle.bpf_text.specs.Private.Look.{look};
ghost use Rattle.bpf_text.specs.Private.Forms.{fit_of, fits, whole_if, operand_fit, offset_fit, target_fit, is_register, is_of_width, is_word, is_mark, is_operation, is_signed_operation, is_comparison, is_signed_comparison, is_lock_sign, is_fetch_name, is_extended, is_swap, is_unsigned, is_signed_size, is_number, begins, begins_form, is_not, is_sign, left_of, pieces};
ghost use Rattle.bpf_spelling.specs.Form.{cell_size};

use crate::reading::arithmetic::extension;
use crate::registers::{same_register, same_width};
use crate::token::Token;
use crate::words;
use bpf_insn::{Reg, Size, Width};
use bpf_spelling::atomics::{fetched_op, locked_op};
use bpf_spelling::operators::{condition_named, operation_named};
use bpf_spelling::registers::REGISTERS;
use bpf_spelling::{Keyword, Operator, Sign};

/// A piece of a form. Some are of the width and the register that the form is taken with.
#[derive(Clone, Copy)]
pub enum Piece {
    Word(Keyword),
    Mark(Sign),
    /// The register, of the width.
    Same,
    /// The register, of 64 bits.
    SameWhole,
    /// Any register of the width.
    Source,
    /// Any register of 64 bits.
    Whole,
    /// `r0` or `w0`, by the width.
    Zero,
    /// The sign of an arithmetic operation.
    Operation,
    /// The sign of a signed arithmetic operation, after `s`.
    SignedOperation,
    /// The sign of a condition.
    Comparison,
    /// The sign of a signed condition, after `s`.
    SignedComparison,
    /// The sign of an operation after `lock`.
    LockSign,
    /// The name of an operation that fetches.
    FetchName,
    /// A register of the width, or a number.
    Operand,
    /// A register of 64 bits, or a number.
    Stored,
    /// The size that a number is extended from to the width.
    Extended,
    /// The name of a byte swap.
    Swap,
    /// The size of what is loaded or stored.
    Unsigned,
    /// The size of what is loaded and sign-extended.
    SignedSize,
    /// The size of the width.
    Cell,
    /// The name of an exchange of the width.
    Exchange,
    /// The name of a compare and exchange of the width.
    CompareExchange,
    /// A number without a sign.
    Number,
    /// A number after `+` or `-`.
    Offset,
    /// A number after `+` or `-`, or a name.
    Target,
}

/// How a token fits a piece.
#[derive(Clone, Copy)]
enum Fit {
    Not,
    /// It is the whole piece.
    Whole,
    /// It is the piece's sign: its number follows.
    Sign,
}

const ASSIGN: Piece = Piece::Mark(Sign::Assign);

const STAR: Piece = Piece::Mark(Sign::Star);

const OPEN: Piece = Piece::Mark(Sign::Open);

const CLOSE: Piece = Piece::Mark(Sign::Close);

const COMMA: Piece = Piece::Mark(Sign::Comma);

/// A form of the language.
#[derive(Clone, Copy)]
pub enum Form {
    /// `R += R`.
    Alu,
    /// `R s/= R`.
    SignedAlu,
    /// `R = -R`.
    Negate,
    /// `R = (s8)R`.
    SignExtend,
    /// `R = be16 R`.
    SwapBytes,
    /// `R = n ll`.
    LoadNumber,
    /// `R = map n`.
    LoadMap,
    /// `R = *(u8 *)(R + n)`.
    Load,
    /// `R = *(s8 *)(R + n)`.
    LoadSigned,
    /// `*(u8 *)(R + n) = R`.
    Store,
    /// `lock *(u64 *)(R + n) += R`.
    Locked,
    /// `R = atomic_fetch_add((u64 *)(R + n), R)`.
    Fetched,
    /// `R = xchg_64(R + n, R)`.
    Exchange,
    /// `r0 = cmpxchg_64(R + n, r0, R)`.
    CompareExchange,
    /// `goto +n`.
    Jump,
    /// `gotol +n`.
    JumpLong,
    /// `if R == R goto +n`.
    Branch,
    /// `if R s> R goto +n`.
    SignedBranch,
    /// `call n`.
    CallHelper,
    /// `call +n`.
    CallLocal,
    /// `exit`.
    Exit,
}

/// The forms.
pub const FORMS: [Form; 21] = [
    Form::Alu,
    Form::SignedAlu,
    Form::Negate,
    Form::SignExtend,
    Form::SwapBytes,
    Form::LoadNumber,
    Form::LoadMap,
    Form::Load,
    Form::LoadSigned,
    Form::Store,
    Form::Locked,
    Form::Fetched,
    Form::Exchange,
    Form::CompareExchange,
    Form::Jump,
    Form::JumpLong,
    Form::Branch,
    Form::SignedBranch,
    Form::CallHelper,
    Form::CallLocal,
    Form::Exit,
];

pub const ALU: [Piece; 3] = [Piece::Same, Piece::Operation, Piece::Operand];

pub const SIGNED_ALU: [Piece; 4] = [
    Piece::Same,
    Piece::Word(Keyword::Signed),
    Piece::SignedOperation,
    Piece::Operand,
];

pub const NEGATE: [Piece; 4] = [Piece::Same, ASSIGN, Piece::Mark(Sign::Minus), Piece::Same];

pub const SIGN_EXTEND: [Piece; 6] = [
    Piece::Same,
    ASSIGN,
    OPEN,
    Piece::Extended,
    CLOSE,
    Piece::Source,
];

pub const SWAP_BYTES: [Piece; 4] = [Piece::SameWhole, ASSIGN, Piece::Swap, Piece::SameWhole];

pub const LOAD_NUMBER: [Piece; 4] = [
    Piece::Whole,
    ASSIGN,
    Piece::Number,
    Piece::Word(Keyword::Wide),
];

pub const LOAD_MAP: [Piece; 4] = [
    Piece::Whole,
    ASSIGN,
    Piece::Word(Keyword::Map),
    Piece::Number,
];

pub const LOAD: [Piece; 11] = [
    Piece::Whole,
    ASSIGN,
    STAR,
    OPEN,
    Piece::Unsigned,
    STAR,
    CLOSE,
    OPEN,
    Piece::Whole,
    Piece::Offset,
    CLOSE,
];

pub const LOAD_SIGNED: [Piece; 11] = [
    Piece::Whole,
    ASSIGN,
    STAR,
    OPEN,
    Piece::SignedSize,
    STAR,
    CLOSE,
    OPEN,
    Piece::Whole,
    Piece::Offset,
    CLOSE,
];

pub const STORE: [Piece; 11] = [
    STAR,
    OPEN,
    Piece::Unsigned,
    STAR,
    CLOSE,
    OPEN,
    Piece::Whole,
    Piece::Offset,
    CLOSE,
    ASSIGN,
    Piece::Stored,
];

pub const LOCKED: [Piece; 12] = [
    Piece::Word(Keyword::Lock),
    STAR,
    OPEN,
    Piece::Cell,
    STAR,
    CLOSE,
    OPEN,
    Piece::Whole,
    Piece::Offset,
    CLOSE,
    Piece::LockSign,
    Piece::Whole,
];

pub const FETCHED: [Piece; 15] = [
    Piece::Same,
    ASSIGN,
    Piece::FetchName,
    OPEN,
    OPEN,
    Piece::Cell,
    STAR,
    CLOSE,
    OPEN,
    Piece::Whole,
    Piece::Offset,
    CLOSE,
    COMMA,
    Piece::Same,
    CLOSE,
];

pub const EXCHANGE: [Piece; 9] = [
    Piece::Same,
    ASSIGN,
    Piece::Exchange,
    OPEN,
    Piece::Whole,
    Piece::Offset,
    COMMA,
    Piece::Same,
    CLOSE,
];

pub const COMPARE_EXCHANGE: [Piece; 11] = [
    Piece::Zero,
    ASSIGN,
    Piece::CompareExchange,
    OPEN,
    Piece::Whole,
    Piece::Offset,
    COMMA,
    Piece::Zero,
    COMMA,
    Piece::Source,
    CLOSE,
];

pub const JUMP: [Piece; 2] = [Piece::Word(Keyword::Goto), Piece::Target];

pub const JUMP_LONG: [Piece; 2] = [Piece::Word(Keyword::GotoLong), Piece::Target];

pub const BRANCH: [Piece; 6] = [
    Piece::Word(Keyword::If),
    Piece::Source,
    Piece::Comparison,
    Piece::Operand,
    Piece::Word(Keyword::Goto),
    Piece::Target,
];

pub const SIGNED_BRANCH: [Piece; 7] = [
    Piece::Word(Keyword::If),
    Piece::Source,
    Piece::Word(Keyword::Signed),
    Piece::SignedComparison,
    Piece::Operand,
    Piece::Word(Keyword::Goto),
    Piece::Target,
];

pub const CALL_HELPER: [Piece; 2] = [Piece::Word(Keyword::Call), Piece::Number];

pub const CALL_LOCAL: [Piece; 2] = [Piece::Word(Keyword::Call), Piece::Target];

pub const EXIT: [Piece; 1] = [Piece::Word(Keyword::Exit)];

/// The pieces of a form.
fn pieces(form: Form) -> &'static [Piece]
    ensures { result.now ≡ pieces form }
{
    match form {
        Form::Alu => &ALU,
        Form::SignedAlu => &SIGNED_ALU,
        Form::Negate => &NEGATE,
        Form::SignExtend => &SIGN_EXTEND,
        Form::SwapBytes => &SWAP_BYTES,
        Form::LoadNumber => &LOAD_NUMBER,
        Form::LoadMap => &LOAD_MAP,
        Form::Load => &LOAD,
        Form::LoadSigned => &LOAD_SIGNED,
        Form::Store => &STORE,
        Form::Locked => &LOCKED,
        Form::Fetched => &FETCHED,
        Form::Exchange => &EXCHANGE,
        Form::CompareExchange => &COMPARE_EXCHANGE,
        Form::Jump => &JUMP,
        Form::JumpLong => &JUMP_LONG,
        Form::Branch => &BRANCH,
        Form::SignedBranch => &SIGNED_BRANCH,
        Form::CallHelper => &CALL_HELPER,
        Form::CallLocal => &CALL_LOCAL,
        Form::Exit => &EXIT,
    }
}

fn whole_if(is_whole: bool) -> Fit
    ensures { result ≡ whole_if is_whole }
{
    if is_whole { Fit::Whole } else { Fit::Not }
}

fn is_register(width: Width, register: Reg, token: &Token<'_>) -> bool
    ensures { result ≡ is_register width register (look token.now) }
{
    match token {
        Token::Register(w, r) => same_width(*w, width) && same_register(*r, register),
        _ => false,
    }
}

fn is_of_width(width: Width, token: &Token<'_>) -> bool
    ensures { result ≡ is_of_width width (look token.now) }
{
    match token {
        Token::Register(w, _) => same_width(*w, width),
        _ => false,
    }
}

fn is_word(keyword: Keyword, token: &Token<'_>) -> bool
    ensures { result ≡ is_word keyword (look token.now) }
{
    match token {
        Token::Word(k) => k.is_same(keyword),
        _ => false,
    }
}

fn is_mark(sign: Sign, token: &Token<'_>) -> bool
    ensures { result ≡ is_mark sign (look token.now) }
{
    match token {
        Token::Mark(s) => s.is_same(sign),
        _ => false,
    }
}

fn is_operation(token: &Token<'_>) -> bool
    ensures { result ≡ is_operation (look token.now) }
{
    match token {
        Token::Mark(s) => operation_named(Operator::Plain(*s)).is_some(),
        _ => false,
    }
}

fn is_signed_operation(token: &Token<'_>) -> bool
    ensures { result ≡ is_signed_operation (look token.now) }
{
    match token {
        Token::Mark(s) => operation_named(Operator::Signed(*s)).is_some(),
        _ => false,
    }
}

fn is_comparison(token: &Token<'_>) -> bool
    ensures { result ≡ is_comparison (look token.now) }
{
    match token {
        Token::Mark(s) => condition_named(Operator::Plain(*s)).is_some(),
        _ => false,
    }
}

fn is_signed_comparison(token: &Token<'_>) -> bool
    ensures { result ≡ is_signed_comparison (look token.now) }
{
    match token {
        Token::Mark(s) => condition_named(Operator::Signed(*s)).is_some(),
        _ => false,
    }
}

fn is_lock_sign(token: &Token<'_>) -> bool
    ensures { result ≡ is_lock_sign (look token.now) }
{
    match token {
        Token::Mark(s) => locked_op(*s).is_some(),
        _ => false,
    }
}

fn is_fetch_name(token: &Token<'_>) -> bool
    ensures { result ≡ is_fetch_name (look token.now) }
{
    match token {
        Token::Word(k) => fetched_op(*k).is_some(),
        _ => false,
    }
}

fn is_extended(width: Width, token: &Token<'_>) -> bool
    ensures { result ≡ is_extended width (look token.now) }
{
    match token {
        Token::Word(Keyword::Extended(size)) => extension(width, *size).is_some(),
        _ => false,
    }
}

fn is_swap(token: &Token<'_>) -> bool
    ensures { result ≡ is_swap (look token.now) }
{
    matches!(token, Token::Word(Keyword::Swap(..)))
}

fn is_unsigned(token: &Token<'_>) -> bool
    ensures { result ≡ is_unsigned (look token.now) }
{
    matches!(token, Token::Word(Keyword::Unsigned(_)))
}

fn is_signed_size(token: &Token<'_>) -> bool
    ensures { result ≡ is_signed_size (look token.now) }
{
    matches!(token, Token::Word(Keyword::Extended(_)))
}

fn is_number(token: &Token<'_>) -> bool
    ensures { result ≡ is_number (look token.now) }
{
    matches!(token, Token::Number(..))
}

fn operand_fit(width: Width, token: &Token<'_>) -> Fit
    ensures { result ≡ operand_fit width (look token.now) }
{
    match token {
        Token::Register(w, _) => whole_if(same_width(*w, width)),
        Token::Number(..) => Fit::Whole,
        Token::Mark(Sign::Minus) => Fit::Sign,
        _ => Fit::Not,
    }
}

fn offset_fit(token: &Token<'_>) -> Fit
    ensures { result ≡ offset_fit (look token.now) }
{
    match token {
        Token::Mark(Sign::Plus) | Token::Mark(Sign::Minus) => Fit::Sign,
        _ => Fit::Not,
    }
}

fn target_fit(token: &Token<'_>) -> Fit
    ensures { result ≡ target_fit (look token.now) }
{
    match token {
        Token::Mark(Sign::Plus) | Token::Mark(Sign::Minus) => Fit::Sign,
        _ => whole_if(words::name(token).is_some()),
    }
}

/// How a token fits a piece.
#[tactic(auto, unfolding(crate::specs::Private::Forms::fit_of))]
fn fit_of(width: Width, register: Reg, piece: Piece, token: &Token<'_>) -> Fit
    ensures { result ≡ fit_of width register piece (look token.now) }
{
    match piece {
        Piece::Word(keyword) => whole_if(is_word(keyword, token)),
        Piece::Mark(sign) => whole_if(is_mark(sign, token)),
        Piece::Same => whole_if(is_register(width, register, token)),
        Piece::SameWhole => whole_if(is_register(Width::Bits64, register, token)),
        Piece::Source => whole_if(is_of_width(width, token)),
        Piece::Whole => whole_if(is_of_width(Width::Bits64, token)),
        Piece::Zero => whole_if(is_register(width, Reg::R0, token)),
        Piece::Operation => whole_if(is_operation(token)),
        Piece::SignedOperation => whole_if(is_signed_operation(token)),
        Piece::Comparison => whole_if(is_comparison(token)),
        Piece::SignedComparison => whole_if(is_signed_comparison(token)),
        Piece::LockSign => whole_if(is_lock_sign(token)),
        Piece::FetchName => whole_if(is_fetch_name(token)),
        Piece::Operand => operand_fit(width, token),
        Piece::Stored => operand_fit(Width::Bits64, token),
        Piece::Extended => whole_if(is_extended(width, token)),
        Piece::Swap => whole_if(is_swap(token)),
        Piece::Unsigned => whole_if(is_unsigned(token)),
        Piece::SignedSize => whole_if(is_signed_size(token)),
        Piece::Cell => whole_if(is_word(cell_size(width), token)),
        Piece::Exchange => whole_if(is_word(Keyword::Exchange(width), token)),
        Piece::CompareExchange => whole_if(is_word(Keyword::CompareExchange(width), token)),
        Piece::Number => whole_if(is_number(token)),
        Piece::Offset => offset_fit(token),
        Piece::Target => target_fit(token),
    }
}

/// The size of what an atomic operation of a width is on.
fn cell_size(width: Width) -> Keyword
    ensures { result ≡ cell_size width }
{
    match width {
        Width::Bits32 => Keyword::Unsigned(Size::Word),
        Width::Bits64 => Keyword::Unsigned(Size::Double),
    }
}

fn is_not(fit: Fit) -> bool
    ensures { result ≡ is_not fit }
{
    matches!(fit, Fit::Not)
}

fn is_sign(fit: Fit) -> bool
    ensures { result ≡ is_sign fit }
{
    matches!(fit, Fit::Sign)
}

/// The piece that is left first, and those after it. After a sign its number is left.
fn first_left(signed: bool, left: &[Piece]) -> Option<(Piece, &[Piece])>
    ensures { MatchOption result (left_of signed left.now ≡ [])
        (λ f. left_of signed left.now ≡ f.0 ∷ f.1.now) }
{
    match (signed, left) {
        (true, _) => Some((Piece::Number, left)),
        (false, [piece, behind @ ..]) => Some((*piece, behind)),
        (false, []) => None,
    }
}

/// Whether all tokens fit the pieces, one after the other; pieces may be left.
fn fits(width: Width, register: Reg, pieces: &[Piece], tokens: &[Token<'_>]) -> bool
    ensures { result ≡ fits width register pieces.now (map look tokens.now) }
{
    let mut left = pieces;
    let mut signed = false;
    for token in tokens {
        let Some((piece, behind)) = first_left(signed, left) else {
            return false;
        };
        let fit = fit_of(width, register, piece, token);
        if is_not(fit) {
            return false;
        }
        signed = is_sign(fit);
        left = behind;
    }
    true
}

/// Whether tokens begin a form that is taken with this width and register.
fn begins_form(width: Width, register: Reg, tokens: &[Token<'_>]) -> bool
    ensures { result ≡ begins_form width register (map look tokens.now) }
{
    FORMS
        .iter()
        .any(|form| fits(width, register, pieces(*form), tokens))
}

/// Whether tokens begin a form.
fn begins(tokens: &[Token<'_>]) -> bool
    ensures { result ≡ begins (map look tokens.now) }
{
    REGISTERS
        .iter()
        .any(|(width, register)| begins_form(*width, *register, tokens))
}

/// Whether some form goes on after tokens.
pub fn goes_on(tokens: &[Token<'_>]) -> bool
    ensures { IsTrue result ↔ FormGoesOn (map look tokens.now) }
{
    begins(tokens)
}
