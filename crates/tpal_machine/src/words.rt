// Calculations on words.

ghost use Rattle.std.specs.Prelude.{◌≡◌, ◌<◌, IfOk, IfErr, IfSome, MatchOption, Ok, Err};
ghost use Rattle.tpal_machine.specs.Calculation.{are_same, calculated};
ghost use Rattle.tpal_machine.specs.Reading.{operand, register};
ghost use Rattle.tpal_machine.specs.Calculation.{unlike, IsNoNumber};
ghost use Rattle.tpal_machine.specs.Fit.{IsOperand};
ghost use Rattle.tpal_syntax.specs.declared.words.Word.TheVariants as words;

use crate::faults::Fault;
use reduce_ops::combine;
use tp_value::{Op, add, div, eq, le, lt, mul, ne, rem, sub};
use tpal_syntax::{Alu, Value, Word};

/// What an operand is.
pub(crate) fn value_of(registers: &[Word; 32], value: Value) -> Word
    requires { IsOperand value }
    ensures { result ≡ operand registers.now value }
{
    match value {
        Value::Reg(r) => registers[r as usize],
        Value::Int(n) => Word::Int(n),
        Value::Label(label) => Word::Label(label),
        Value::Nil => Word::Nil,
    }
}

/// The number in a register, where it holds one.
pub(crate) fn number_in(registers: &[Word; 32], r: u8) -> Option<i64>
    requires { r < 32 }
    ensures { IfSome result (λ n. register registers.now r ≡ words.Int n) }
{
    match registers[r as usize] {
        Word::Int(number) => Some(number),
        Word::Label(_) | Word::Rec(_) | Word::Nil => None,
    }
}

/// The number that a calculation on two numbers gives; none where it divides by 0.
pub(crate) fn result_of(alu: Alu, left: i64, right: i64) -> Option<i64>
    ensures { MatchOption result
        (calculated alu (words.Int left) (words.Int right) ≡ Err Fault.DivZero)
        (λ n. calculated alu (words.Int left) (words.Int right) ≡ Ok (words.Int n)) }
{
    match alu {
        Alu::Add => Some(add(left, right)),
        Alu::Sub => Some(sub(left, right)),
        Alu::Mul => Some(mul(left, right)),
        Alu::Div => div(left, right),
        Alu::Rem => rem(left, right),
        Alu::Eq => Some(eq(left, right)),
        Alu::Ne => Some(ne(left, right)),
        Alu::Lt => Some(lt(left, right)),
        Alu::Le => Some(le(left, right)),
        Alu::Min => Some(combine(Op::Min, left, right)),
        Alu::Max => Some(combine(Op::Max, left, right)),
        Alu::Affine => Some(combine(Op::Affine, left, right)),
    }
}

/// The result of a calculation on two numbers.
pub(crate) fn calculated_on(alu: Alu, left: i64, right: i64) -> Result<Word, Fault>
    ensures { result ≡ calculated alu (words.Int left) (words.Int right) }
{
    match result_of(alu, left, right) {
        Some(number) => Ok(Word::Int(number)),
        None => Err(Fault::DivZero),
    }
}

fn are_same(left: Word, right: Word) -> bool
    ensures { result ≡ are_same left right }
{
    match left {
        Word::Int(a) => match right {
            Word::Int(b) => a == b,
            Word::Label(_) | Word::Rec(_) | Word::Nil => false,
        },
        Word::Label(a) => match right {
            Word::Label(b) => a == b,
            Word::Int(_) | Word::Rec(_) | Word::Nil => false,
        },
        Word::Rec(a) => match right {
            Word::Rec(b) => a == b,
            Word::Int(_) | Word::Label(_) | Word::Nil => false,
        },
        Word::Nil => match right {
            Word::Nil => true,
            Word::Int(_) | Word::Label(_) | Word::Rec(_) => false,
        },
    }
}

/// The result of a calculation on words that are not both numbers, which are the same or not.
fn unlike(alu: Alu, same: bool) -> Result<Word, Fault>
    ensures { result ≡ unlike alu same }
{
    match alu {
        Alu::Eq => Ok(Word::Int(i64::from(same))),
        Alu::Ne => Ok(Word::Int(i64::from(!same))),
        Alu::Add
        | Alu::Sub
        | Alu::Mul
        | Alu::Div
        | Alu::Rem
        | Alu::Lt
        | Alu::Le
        | Alu::Min
        | Alu::Max
        | Alu::Affine => Err(Fault::NotInt),
    }
}

/// The result of a calculation on two words.
pub(crate) fn calculated(alu: Alu, left: Word, right: Word) -> Result<Word, Fault>
    ensures { result ≡ calculated alu left right }
{
    match left {
        Word::Int(a) => match right {
            Word::Int(b) => calculated_on(alu, a, b),
            Word::Label(_) | Word::Rec(_) | Word::Nil => unlike(alu, false),
        },
        Word::Label(_) | Word::Rec(_) | Word::Nil => unlike(alu, are_same(left, right)),
    }
}

/// The number that a word is.
pub(crate) fn number_of(word: Word) -> Result<i64, Fault>
    ensures ok { IfOk result (λ n. word ≡ words.Int n) }
    ensures err { IfErr result (λ fault. (fault ≡ Fault.NotInt) × IsNoNumber word) }
{
    match word {
        Word::Int(number) => Ok(number),
        Word::Label(_) | Word::Rec(_) | Word::Nil => Err(Fault::NotInt),
    }
}
