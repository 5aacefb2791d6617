ghost use Rattle.std.specs.Prelude.{◌≡◌, ◌<◌};
ghost use Rattle.mu_grammar.specs.Agreement.{OperatorsAgree};
ghost use Rattle.mu_grammar.specs.Ops.{constant_of, is_negation, mark_named, operator_named, operator_of, row as row_of};

use crate::symbol::{Mark, Sort};
use mu_tables::Side;

/// An operator between two operands.
#[derive(Clone, Copy, Debug, PartialEq, Eq)]
pub struct Op {
    /// Its token.
    pub mark: Mark,
    /// The level of a tree that it heads.
    pub level: u8,
    /// The least level of its left operand.
    pub left: u8,
    /// The least level of its right operand.
    pub right: u8,
    /// How many levels of nesting it opens, until its right operand ends.
    pub opens: u32,
}

/// The level of `not`.
pub const PREFIX_LEVEL: u8 = 5;

/// The level of an atom.
pub const ATOM_LEVEL: u8 = 7;

impl Op {
    /// The operator between two operands that a token is, if it is one.
    #[tactic(auto, using(crate::proofs::Agreement::operators_agree))]
    pub fn of(sort: Option<Sort>) -> Option<Op>
        ensures value { result ≡ operator_of sort }
        ensures law { OperatorsAgree }
    {
        match sort {
            Some(Sort::Mark(Mark::Iff)) => Some(row(Mark::Iff, 1, Side::Neither)),
            Some(Sort::Mark(Mark::Imp)) => Some(row(Mark::Imp, 2, Side::Right)),
            Some(Sort::Mark(Mark::Or)) => Some(row(Mark::Or, 3, Side::Left)),
            Some(Sort::Mark(Mark::And)) => Some(row(Mark::And, 4, Side::Left)),
            Some(Sort::Mark(Mark::Eq)) => Some(row(Mark::Eq, 6, Side::Neither)),
            Some(Sort::Mark(Mark::Colon)) => Some(row(Mark::Colon, 6, Side::Neither)),
            _ => None,
        }
    }

    /// The operator between two operands that a constant stands for, if it is an operator's.
    pub fn named(constant: &[u8]) -> Option<Op>
        ensures { result ≡ operator_named constant.now }
    {
        match infix(constant) {
            Some(mark) => Op::of(Some(Sort::Mark(mark))),
            None => None,
        }
    }
}

/// The mark of the operator between two operands that a constant stands for.
fn infix(name: &[u8]) -> Option<Mark>
    ensures { result ≡ mark_named name.now }
{
    const INFIX: [Mark; 6] = [
        Mark::Iff,
        Mark::Imp,
        Mark::Or,
        Mark::And,
        Mark::Eq,
        Mark::Colon,
    ];
    INFIX.iter().copied().find(|mark| constant(*mark) == name)
}

/// Whether a constant stands for `not`.
pub fn is_negation(name: &[u8]) -> bool
    ensures { result ≡ is_negation name.now }
{
    name == constant(Mark::Not)
}

fn row(mark: Mark, level: u8, side: Side) -> Op
    requires { level < 8 }
    ensures { result ≡ row_of mark level side }
{
    let above = level + 1;
    match side {
        Side::Neither | Side::Prefix => Op {
            mark,
            level,
            left: above,
            right: above,
            opens: 0,
        },
        Side::Left => Op {
            mark,
            level,
            left: level,
            right: above,
            opens: 0,
        },
        Side::Right => Op {
            mark,
            level,
            left: above,
            right: level,
            opens: 1,
        },
    }
}

/// The constant that an operator stands for, by the operator's token.
pub fn constant(mark: Mark) -> &'static [u8]
    ensures { result.now ≡ constant_of mark }
{
    match mark {
        Mark::Iff => b"iff",
        Mark::Imp => b"imp",
        Mark::Or => b"or",
        Mark::And => b"and",
        Mark::Not => b"not",
        Mark::Eq => b"eq",
        _ => b"typing",
    }
}
