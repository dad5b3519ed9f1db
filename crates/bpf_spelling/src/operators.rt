//! How arithmetic operations and conditions are written: a row an operation.

ghost use Rattle.std.specs.Prelude.{◌≡◌};
ghost use Rattle.bpf_spelling.specs.Operators.{operator_of, comparison_of, same_operator, operation_named, condition_named};

use crate::keywords::Keyword;
use crate::signs::Sign;
use bpf_insn::{ALU_OPS, AluOp, CONDITIONS, Condition};
use std::fmt;

/// What is between two operands.
#[derive(Clone, Copy)]
pub enum Operator {
    /// A sign.
    Plain(Sign),
    /// A sign after `s`.
    Signed(Sign),
}

/// How an arithmetic operation is written.
pub fn operator_of(op: AluOp) -> Operator
    ensures { result ≡ operator_of op }
{
    match op {
        AluOp::Add => Operator::Plain(Sign::AddAssign),
        AluOp::Sub => Operator::Plain(Sign::SubAssign),
        AluOp::Mul => Operator::Plain(Sign::MulAssign),
        AluOp::Div => Operator::Plain(Sign::DivAssign),
        AluOp::Sdiv => Operator::Signed(Sign::DivAssign),
        AluOp::Or => Operator::Plain(Sign::OrAssign),
        AluOp::And => Operator::Plain(Sign::AndAssign),
        AluOp::Lsh => Operator::Plain(Sign::ShlAssign),
        AluOp::Rsh => Operator::Plain(Sign::ShrAssign),
        AluOp::Mod => Operator::Plain(Sign::RemAssign),
        AluOp::Smod => Operator::Signed(Sign::RemAssign),
        AluOp::Xor => Operator::Plain(Sign::XorAssign),
        AluOp::Mov => Operator::Plain(Sign::Assign),
        AluOp::Arsh => Operator::Signed(Sign::ShrAssign),
    }
}

/// How a condition is written.
pub fn comparison_of(condition: Condition) -> Operator
    ensures { result ≡ comparison_of condition }
{
    match condition {
        Condition::Eq => Operator::Plain(Sign::Equal),
        Condition::Gt => Operator::Plain(Sign::Above),
        Condition::Ge => Operator::Plain(Sign::AtLeast),
        Condition::Set => Operator::Plain(Sign::And),
        Condition::Ne => Operator::Plain(Sign::NotEqual),
        Condition::Sgt => Operator::Signed(Sign::Above),
        Condition::Sge => Operator::Signed(Sign::AtLeast),
        Condition::Lt => Operator::Plain(Sign::Below),
        Condition::Le => Operator::Plain(Sign::AtMost),
        Condition::Slt => Operator::Signed(Sign::Below),
        Condition::Sle => Operator::Signed(Sign::AtMost),
    }
}

impl Operator {
    fn is_same(self, other: Operator) -> bool
        ensures { result ≡ same_operator self other }
    {
        match (self, other) {
            (Operator::Plain(a), Operator::Plain(b)) => a.is_same(b),
            (Operator::Signed(a), Operator::Signed(b)) => a.is_same(b),
            _ => false,
        }
    }
}

impl fmt::Display for Operator {
    ghost use Rattle.std.specs.Prelude.{Some};
    ghost use Rattle.bpf_spelling.specs.Form.{text_of, operator_items};

    ghost output = { λ x. Some (text_of (operator_items x)) };

    fn fmt<W: fmt::Write>(&self, f: &mut fmt::Formatter<W>) -> fmt::Result {
        match *self {
            Operator::Plain(sign) => write!(f, "{sign}"),
            Operator::Signed(sign) => write!(f, "{}{sign}", Keyword::Signed),
        }
    }
}

/// The arithmetic operation that is written so.
#[tactic(auto, unfolding(crate::specs::Operators::operation_named))]
pub fn operation_named(operator: Operator) -> Option<AluOp>
    ensures { result ≡ operation_named operator }
{
    ALU_OPS
        .iter()
        .copied()
        .find(|op| operator_of(*op).is_same(operator))
}

/// The condition that is written so.
#[tactic(auto, unfolding(crate::specs::Operators::condition_named))]
pub fn condition_named(operator: Operator) -> Option<Condition>
    ensures { result ≡ condition_named operator }
{
    CONDITIONS
        .iter()
        .copied()
        .find(|c| comparison_of(*c).is_same(operator))
}
