// What stands behind the keywords of a case.

use crate::case::{Assembled, Case, Counts, Fronts};
use crate::fault::Fault;
use crate::numbers::{Range, number, range_of};
use crate::tokens::Token;
use std::alloc::Global;
use tpal_asm::AsmFault;

/// The text that a token has.
pub fn text_of(alloc: Global, token: &Token) -> Result<String, Fault> {
    let (Token::Word(bytes) | Token::Quoted(bytes)) = token;
    match str::from_utf8(bytes) {
        Ok(text) => Ok(String::from_str(alloc, text)?),
        Err(_) => Err(Fault::Quotes),
    }
}

fn words_of(alloc: Global, tokens: &[Token]) -> Result<Vec<String>, Fault> {
    let mut words = Vec::new(alloc);
    for token in tokens {
        words.push(text_of(alloc, token)?)?;
    }
    Ok(words)
}

fn numbers_of(alloc: Global, tokens: &[Token]) -> Result<Vec<u32>, Fault> {
    let mut numbers = Vec::new(alloc);
    for token in tokens {
        numbers.push(number(token)?)?;
    }
    Ok(numbers)
}

fn is_word(token: &Token, word: &str) -> bool {
    match token {
        Token::Word(bytes) => bytes.as_slice() == word.as_bytes(),
        Token::Quoted(_) => false,
    }
}

// The only token.
fn only(tokens: &[Token]) -> Result<&Token, Fault> {
    match tokens {
        [token] => Ok(token),
        _ => Err(Fault::Words),
    }
}

// A number that counts from 1, counted from 0.
fn place(token: &Token) -> Result<u32, Fault> {
    number(token)?.checked_sub(1).ok_or(Fault::Number)
}

fn read_fail(case: &mut Case, tokens: &[Token]) -> Result<(), Fault> {
    match tokens {
        [what, call] if is_word(what, "fetch") => {
            case.failing.fetches.push(place(call)?)?;
            Ok(())
        }
        [what, call, keeping, kept] if is_word(what, "write") && is_word(keeping, "keeping") => {
            case.failing.writes.push((place(call)?, number(kept)?))?;
            Ok(())
        }
        _ => Err(Fault::Words),
    }
}

const ANY: Range = Range {
    from: 0,
    to: u32::MAX,
};

fn counts_of(tokens: &[Token]) -> Result<Counts, Fault> {
    let mut counts = Counts {
        tasks: ANY,
        skipped: ANY,
        ticks: ANY,
    };
    for pair in tokens.chunks(2) {
        let [name, numbers] = pair else {
            return Err(Fault::Words);
        };
        let range = range_of(numbers)?;
        if is_word(name, "tasks") {
            counts.tasks = range;
        } else if is_word(name, "skipped") {
            counts.skipped = range;
        } else if is_word(name, "ticks") {
            counts.ticks = range;
        } else {
            return Err(Fault::Words);
        }
    }
    Ok(counts)
}

fn fault_of(tokens: &[Token]) -> Result<AsmFault, Fault> {
    let [kind, line] = tokens else {
        return Err(Fault::Words);
    };
    let line = number(line)?;
    if is_word(kind, "form") {
        Ok(AsmFault::Form(line))
    } else if is_word(kind, "label") {
        Ok(AsmFault::Label(line))
    } else if is_word(kind, "limit") {
        Ok(AsmFault::Limit(line))
    } else {
        Err(Fault::Words)
    }
}

fn read_fronts(alloc: Global, tokens: &[Token]) -> Result<Fronts, Fault> {
    let [name, lengths] = tokens else {
        return Err(Fault::Words);
    };
    Ok(Fronts {
        name: text_of(alloc, name)?,
        lengths: range_of(lengths)?,
    })
}

/// Takes the line of a case that begins with a keyword and has these tokens behind it.
pub fn read_keyword(
    alloc: Global,
    case: &mut Case,
    keyword: &str,
    tokens: &[Token],
) -> Result<(), Fault> {
    match keyword {
        "words" => case.calls.push(words_of(alloc, tokens)?)?,
        "assemble" => case.assembles = Some(text_of(alloc, only(tokens)?)?),
        "fronts" => case.fronts = Some(read_fronts(alloc, tokens)?),
        "fail" => read_fail(case, tokens)?,
        "status" => case.owed.status = Some(number(only(tokens)?)?),
        "code" => case.owed.code = Some(text_of(alloc, only(tokens)?)?),
        "counts" => case.owed.counts = Some(counts_of(tokens)?),
        "fetches" => case.owed.fetches = Some(number(only(tokens)?)?),
        "writes" => case.owed.writes = Some(number(only(tokens)?)?),
        "pieces" => case.owed.pieces = numbers_of(alloc, tokens)?,
        "fault" => case.owed.assembled = Some(Assembled::Fault(fault_of(tokens)?)),
        "assembles" if tokens.is_empty() => case.owed.assembled = Some(Assembled::Same),
        "assembles" => return Err(Fault::Words),
        _ => return Err(Fault::Keyword),
    }
    Ok(())
}
