// Numbers, words, registers and the other parts of a line, each read from the front of a text.

ghost use Rattle.std.specs.Prelude.{◌≡◌, ◌≤◌, ◌<◌, ◌^◌, ℕ, List, Option, Some, None, IfSome};
ghost use Rattle.std.specs.Prelude.{MatchOption, not, length, take, drop};
ghost use Rattle.std.specs.Prelude.{codes, ◌∷◌, []};
ghost use Rattle.tpal_syntax.specs.Parts.{is_letter, is_word_byte};
ghost use Rattle.tpal_syntax.specs.Readers.{after, is_digit, no_digit, digits_at, number_at};
ghost use Rattle.tpal_syntax.specs.Readers.{word_at, word_bytes, register_at, table_at, label_at};
ghost use Rattle.tpal_syntax.specs.Readers.{cell_at, place_at, value_at, alu_at, trap_at};
ghost use Rattle.tpal_asm.specs.Reading.{Reads, rest_of, rests_of, cell_of, reg_rest, name_rest};
ghost use Rattle.tpal_asm.specs.Reading.{negative_rest, number_rest};
ghost use Rattle.tpal_asm.specs.Labels.{place_of, heads};

use crate::labels::Labels;
use tp_value::{Place, TrapKind};
use tpal_syntax::{Alu, Value};

/// What stands behind these bytes, where the text begins with them.
pub fn behind<'a>(text: &'a [u8], word: &[u8]) -> Option<&'a [u8]>
    ensures { Reads (λ rest. rest.now) result (after word.now text.now) }
{
    let mut letters = word;
    let mut rest = text;
    while let Some((letter, more)) = letters.split_first() {
        let (first, others) = rest.split_first()?;
        if *first != *letter {
            return None;
        }
        letters = more;
        rest = others;
    }
    Some(rest)
}

fn is_digit(b: u8) -> bool
    ensures { result ≡ is_digit b }
{
    48 <= b && b <= 57
}

fn no_digit(text: &[u8]) -> bool
    ensures { result ≡ no_digit text.now }
{
    match text.split_first() {
        None => true,
        Some((first, _)) => !is_digit(*first),
    }
}

/// The digits that go on.
#[tactic(auto, unfolding(tpal_syntax::specs::Readers::digits_at))]
fn digits(text: &[u8], limit: u64, from: u64) -> Option<(u64, &[u8])>
    requires low { 9 ≤ limit }
    requires high { limit ≤ 9223372036854775808 }
    requires begun { from ≤ limit }
    ensures reads { Reads rest_of result (digits_at limit from text.now) }
    ensures within { IfSome result (λ r. r.0 ≤ limit) }
{
    let mut number = from;
    let mut rest = text;
    while let Some((first, others)) = rest.split_first() {
        if !is_digit(*first) {
            return Some((number, rest));
        }
        let digit = u64::from(*first - 48);
        if number > (limit - digit) / 10 {
            return None;
        }
        number = 10 * number + digit;
        rest = others;
    }
    Some((number, rest))
}

/// A number without leading zeros, up to a limit.
#[tactic(auto, unfolding(tpal_syntax::specs::Readers::number_at))]
pub fn number(text: &[u8], limit: u64) -> Option<(u64, &[u8])>
    requires low { 9 ≤ limit }
    requires high { limit ≤ 9223372036854775808 }
    ensures reads { Reads rest_of result (number_at limit text.now) }
    ensures within { IfSome result (λ r. r.0 ≤ limit) }
{
    let (first, rest) = text.split_first()?;
    if *first == 48 {
        return if no_digit(rest) {
            Some((0, rest))
        } else {
            None
        };
    }
    if is_digit(*first) {
        digits(rest, limit, u64::from(*first - 48))
    } else {
        None
    }
}

fn is_letter(b: u8) -> bool
    ensures { result ≡ is_letter b }
{
    (65 <= b && b <= 90) || (97 <= b && b <= 122) || b == 95
}

fn is_word_byte(b: u8) -> bool
    ensures { result ≡ is_word_byte b }
{
    is_letter(b) || (48 <= b && b <= 57)
}

// How many bytes at the front are of a word.
fn word_length(text: &[u8]) -> usize
    ensures within { result ≤ length text.now }
    ensures bytes { word_bytes text.now ≡ (take result text.now, drop result text.now) }
{
    for (at, b) in text.iter().enumerate() {
        if !is_word_byte(*b) {
            return at;
        }
    }
    text.len()
}

/// The word at the front.
#[tactic(auto, unfolding(tpal_syntax::specs::Readers::word_at))]
pub fn word(text: &[u8]) -> Option<(&[u8], &[u8])>
    ensures { Reads rests_of result (word_at text.now) }
{
    let (first, others) = text.split_first()?;
    if !is_letter(*first) {
        return None;
    }
    Some(text.split_at(word_length(others) + 1))
}

/// The number of a register.
pub fn register_number(text: &[u8]) -> Option<(u8, &[u8])>
    ensures { Reads rest_of result (number_at 31 text.now) }
{
    let (number, rest) = number(text, 31)?;
    Some((number as u8, rest))
}

/// A register.
pub fn register(text: &[u8]) -> Option<(u8, &[u8])>
    ensures { Reads rest_of result (register_at text.now) }
{
    let rest = behind(text, b"r")?;
    register_number(rest)
}

/// A table.
pub fn table(text: &[u8]) -> Option<(u8, &[u8])>
    ensures { Reads rest_of result (table_at text.now) }
{
    let rest = behind(text, b"t")?;
    let (number, rest) = number(rest, 15)?;
    Some((number as u8, rest))
}

/// A number of cells.
pub fn size(text: &[u8]) -> Option<(u16, &[u8])>
    ensures { Reads rest_of result (number_at 512 text.now) }
{
    let (number, rest) = number(text, 512)?;
    Some((number as u16, rest))
}

fn offset(text: &[u8]) -> Option<(u16, &[u8])>
    ensures { Reads rest_of result (number_at 511 text.now) }
{
    let (number, rest) = number(text, 511)?;
    Some((number as u16, rest))
}

/// The label of a name.
pub fn named<'a>(labels: &Labels, text: &'a [u8]) -> Option<(u32, &'a [u8])>
    ensures { Reads rest_of result (name_rest (place_of (heads labels.now.places)) text.now) }
{
    let (name, rest) = word(text)?;
    Some((labels.place(name), rest))
}

/// A label.
pub fn label<'a>(labels: &Labels, text: &'a [u8]) -> Option<(u32, &'a [u8])>
    ensures { Reads rest_of result (label_at (place_of (heads labels.now.places)) text.now) }
{
    let rest = behind(text, b"@")?;
    named(labels, rest)
}

/// A cell, by the register of its base and an offset.
#[tactic(auto, unfolding(tpal_syntax::specs::Readers::cell_at))]
pub fn cell(text: &[u8]) -> Option<((u8, u16), &[u8])>
    ensures { Reads cell_of result (cell_at text.now) }
{
    let rest = behind(text, b"mem[")?;
    let (base, rest) = register(rest)?;
    let rest = behind(rest, b"+")?;
    let (off, rest) = offset(rest)?;
    let rest = behind(rest, b"]")?;
    Some(((base, off), rest))
}

fn place_number(text: &[u8]) -> Option<(u32, &[u8])>
    ensures { Reads rest_of result (number_at 4294967295 text.now) }
{
    let (number, rest) = number(text, 4_294_967_295)?;
    Some((number as u32, rest))
}

/// A place.
#[tactic(auto, unfolding(tpal_syntax::specs::Readers::place_at))]
pub fn place(text: &[u8]) -> Option<(Place, &[u8])>
    ensures { Reads rest_of result (place_at text.now) }
{
    let (line, rest) = place_number(text)?;
    let rest = behind(rest, b", ")?;
    let (col, rest) = place_number(rest)?;
    Some((Place { line, col }, rest))
}

#[tactic(auto, unfolding(crate::specs::Reading::reg_rest))]
fn register_value(text: &[u8]) -> Option<(Value, &[u8])>
    ensures { Reads rest_of result (reg_rest text.now) }
{
    let (register, rest) = register_number(text)?;
    Some((Value::Reg(register), rest))
}

#[tactic(auto, unfolding(crate::specs::Reading::negative_rest))]
fn negative(text: &[u8]) -> Option<(Value, &[u8])>
    ensures { Reads rest_of result (negative_rest text.now) }
{
    let (number, rest) = number(text, 9_223_372_036_854_775_808)?;
    if number == 0 {
        return None;
    }
    let below = -((number - 1) as i64);
    Some((Value::Int(below - 1), rest))
}

#[tactic(auto, unfolding(crate::specs::Reading::number_rest))]
fn positive(text: &[u8]) -> Option<(Value, &[u8])>
    ensures { Reads rest_of result (number_rest text.now) }
{
    let (number, rest) = number(text, 9_223_372_036_854_775_807)?;
    Some((Value::Int(number as i64), rest))
}

/// An operand.
#[tactic(auto, unfolding(tpal_syntax::specs::Readers::value_at, crate::specs::Reading::reg_rest, crate::specs::Reading::negative_rest, crate::specs::Reading::number_rest))]
pub fn value<'a>(labels: &Labels, text: &'a [u8]) -> Option<(Value, &'a [u8])>
    ensures { Reads rest_of result (value_at (place_of (heads labels.now.places)) text.now) }
{
    if let Some(rest) = behind(text, b"r") {
        return register_value(rest);
    }
    if let Some(rest) = behind(text, b"@") {
        let (label, rest) = named(labels, rest)?;
        return Some((Value::Label(label), rest));
    }
    if let Some(rest) = behind(text, b"nil") {
        return Some((Value::Nil, rest));
    }
    if let Some(rest) = behind(text, b"-") {
        return negative(rest);
    }
    positive(text)
}

/// The operator at the front, and what stands behind the space after it.
#[tactic(auto, unfolding(tpal_syntax::specs::Readers::alu_at))]
pub fn alu(text: &[u8]) -> Option<(Alu, &[u8])>
    ensures { Reads rest_of result (alu_at text.now) }
{
    if let Some(rest) = behind(text, b"add ") {
        return Some((Alu::Add, rest));
    }
    if let Some(rest) = behind(text, b"sub ") {
        return Some((Alu::Sub, rest));
    }
    if let Some(rest) = behind(text, b"mul ") {
        return Some((Alu::Mul, rest));
    }
    if let Some(rest) = behind(text, b"div ") {
        return Some((Alu::Div, rest));
    }
    if let Some(rest) = behind(text, b"rem ") {
        return Some((Alu::Rem, rest));
    }
    if let Some(rest) = behind(text, b"eq ") {
        return Some((Alu::Eq, rest));
    }
    if let Some(rest) = behind(text, b"ne ") {
        return Some((Alu::Ne, rest));
    }
    if let Some(rest) = behind(text, b"lt ") {
        return Some((Alu::Lt, rest));
    }
    if let Some(rest) = behind(text, b"le ") {
        return Some((Alu::Le, rest));
    }
    if let Some(rest) = behind(text, b"min ") {
        return Some((Alu::Min, rest));
    }
    if let Some(rest) = behind(text, b"max ") {
        return Some((Alu::Max, rest));
    }
    if let Some(rest) = behind(text, b"affine ") {
        return Some((Alu::Affine, rest));
    }
    None
}

/// The kind of a trap, and what stands behind the comma after it.
#[tactic(auto, unfolding(tpal_syntax::specs::Readers::trap_at))]
pub fn trap_kind(text: &[u8]) -> Option<(TrapKind, &[u8])>
    ensures { Reads rest_of result (trap_at text.now) }
{
    if let Some(rest) = behind(text, b"Divide, ") {
        return Some((TrapKind::Divide, rest));
    }
    if let Some(rest) = behind(text, b"Index, ") {
        return Some((TrapKind::Index, rest));
    }
    if let Some(rest) = behind(text, b"Deep, ") {
        return Some((TrapKind::Deep, rest));
    }
    if let Some(rest) = behind(text, b"Size, ") {
        return Some((TrapKind::Size, rest));
    }
    if let Some(rest) = behind(text, b"Wide, ") {
        return Some((TrapKind::Wide, rest));
    }
    None
}
