// Declarations and programs.

ghost use Rattle.std.specs.Prelude.{◌≡◌, ℕ, ◌+◌, ◌<◌, ◌≤◌, length, IfOk, OnOk, [], ◌∷◌, ◌++◌, map};
ghost use Rattle.std.specs.Prelude.{suc, Some, None};
ghost use Rattle.loop_syntax.specs.Tree.{spelled, tree_of, node_of, nodes_of, table_of, func_of};
ghost use Rattle.loop_syntax.specs.Tree.{program_of};
ghost use Rattle.loop_parse.specs.Grammar.{tables_in, funcs_in};
ghost use Rattle.loop_parse.specs.Heads.{decl_of};
ghost use Rattle.loop_parse.specs.Terms.{saw, seen};
ghost use Rattle.loop_parse.specs.Reading.{Gives, starts, begins_decl, input_rest, table_rest};
ghost use Rattle.loop_parse.specs.Reading.{fn_rest, decl, decls, program, within};

use crate::expression::outer;
use crate::lists::params;
use crate::reader::{Unparsed, expect, name, next};
use crate::statement::{block, open_brace, statements};
use crate::terminal::{Fixed, Lexeme, Terminal};
use loop_syntax::{Func, Program, Stmt, TableDecl};
use std::alloc::{AllocError, Global};

/// A declaration.
#[derive(Drop)]
pub(crate) enum Decl {
    Table(TableDecl),
    Func(Func),
}

/// A program, with the tokens after it.
#[tactic(auto, unfolding(crate::specs::Reading::program))]
pub(crate) fn program<'a>(
    alloc: Global,
    source: &[u8],
    tokens: &'a [Lexeme],
) -> Result<(Program, &'a [Lexeme]), Unparsed<'a>>
    ensures reads { (n : ℕ) → length (seen source.now tokens.now) ≤ n →
        Gives source.now (λ x. (program_of x.0, seen source.now x.1.now)) result
        (program within n (seen source.now tokens.now)) }
{
    let (found, rest) = decls(alloc, source, tokens)?;
    let (_main, rest) = expect(source, rest, Fixed::Main)?;
    let (main, rest) = block(alloc, source, 0, rest)?;
    Ok((assembled(alloc, found, main)?, rest))
}

/// The program of these declarations and this main.
fn assembled(alloc: Global, decls: Vec<Decl>, main: Vec<Stmt>) -> Result<Program, AllocError>
    ensures { IfOk result (λ p.
        program_of p
        ≡
        record {
          tables = tables_in (map decl_of decls.items);
          funcs = funcs_in (map decl_of decls.items);
          main = nodes_of main.items;
        }) }
{
    let mut tables = Vec::new(alloc);
    let mut funcs = Vec::new(alloc);
    for found in decls {
        match found {
            Decl::Table(table) => tables.push(table)?,
            Decl::Func(func) => funcs.push(func)?,
        }
    }
    Ok(Program {
        tables,
        funcs,
        main,
    })
}

/// Declarations, as long as one begins.
#[tactic(auto, using(crate::proofs::Many::many_steps), unfolding(crate::specs::Reading::decls))]
fn decls<'a>(
    alloc: Global,
    source: &[u8],
    tokens: &'a [Lexeme],
) -> Result<(Vec<Decl>, &'a [Lexeme]), Unparsed<'a>>
    ensures reads { (n : ℕ) → length (seen source.now tokens.now) ≤ n →
        Gives source.now (λ x. (map decl_of x.0.items, seen source.now x.1.now)) result
        (decls within n (seen source.now tokens.now)) }
    ensures no_longer { IfOk result (λ x.
        length (seen source.now x.1.now) ≤ length (seen source.now tokens.now)) }
{
    let mut list = Vec::new(alloc);
    let mut rest = tokens;
    while begins_decl(source, rest) {
        let (found, after) = declaration(alloc, source, rest)?;
        push_decl(&mut list, found)?;
        rest = after;
    }
    Ok((list, rest))
}

/// Whether a declaration begins with the first token.
fn begins_decl(source: &[u8], tokens: &[Lexeme]) -> bool
    ensures { result ≡ starts begins_decl (seen source.now tokens.now) }
{
    let Some((first, _after)) = next(source, tokens) else {
        return false;
    };
    is_decl_word(source, first)
}

fn is_decl_word(source: &[u8], token: Lexeme) -> bool
    ensures { result ≡ begins_decl (saw source.now token).kind }
{
    match token.terminal {
        Terminal::Fixed(Fixed::Input | Fixed::Table | Fixed::Fn) => true,
        _ => false,
    }
}

fn push_decl(list: &mut Vec<Decl>, found: Decl) -> Result<(), AllocError>
    ensures { OnOk result (list.new.items ≡ list.old.items ++ found ∷ []) }
{
    list.push(found)?;
    Ok(())
}

/// A declaration.
#[tactic(auto, unfolding(crate::specs::Reading::decl))]
fn declaration<'a>(
    alloc: Global,
    source: &[u8],
    tokens: &'a [Lexeme],
) -> Result<(Decl, &'a [Lexeme]), Unparsed<'a>>
    ensures reads { (n : ℕ) → length (seen source.now tokens.now) ≤ n →
        Gives source.now (λ x. (decl_of x.0, seen source.now x.1.now)) result
        (decl within n (seen source.now tokens.now)) }
    ensures shorter { IfOk result (λ x.
        length (seen source.now x.1.now) < length (seen source.now tokens.now)) }
{
    let Some((first, after)) = next(source, tokens) else {
        return Err(Unparsed::Form(tokens));
    };
    match first.terminal {
        Terminal::Fixed(Fixed::Input) => input_rest(alloc, source, after),
        Terminal::Fixed(Fixed::Table) => table_rest(alloc, source, after),
        Terminal::Fixed(Fixed::Fn) => fn_rest(alloc, source, after),
        _ => Err(Unparsed::Form(tokens)),
    }
}

/// What stands after `input`.
#[tactic(auto, unfolding(crate::specs::Reading::input_rest))]
fn input_rest<'a>(
    alloc: Global,
    source: &[u8],
    tokens: &'a [Lexeme],
) -> Result<(Decl, &'a [Lexeme]), Unparsed<'a>>
    ensures reads { Gives source.now (λ x. (decl_of x.0, seen source.now x.1.now)) result
        (input_rest (seen source.now tokens.now)) }
    ensures shorter { IfOk result (λ x.
        length (seen source.now x.1.now) < length (seen source.now tokens.now)) }
{
    let (table, rest) = name(alloc, source, tokens)?;
    let (_semi, rest) = expect(source, rest, Fixed::Semi)?;
    Ok((Decl::Table(TableDecl::Input(table)), rest))
}

/// What stands after `table`.
#[tactic(auto, unfolding(crate::specs::Reading::table_rest))]
fn table_rest<'a>(
    alloc: Global,
    source: &[u8],
    tokens: &'a [Lexeme],
) -> Result<(Decl, &'a [Lexeme]), Unparsed<'a>>
    ensures reads { (n : ℕ) → length (seen source.now tokens.now) ≤ n →
        Gives source.now (λ x. (decl_of x.0, seen source.now x.1.now)) result
        (table_rest within n (seen source.now tokens.now)) }
    ensures shorter { IfOk result (λ x.
        length (seen source.now x.1.now) < length (seen source.now tokens.now)) }
{
    let (table, rest) = name(alloc, source, tokens)?;
    let (_opensquare, rest) = expect(source, rest, Fixed::OpenSquare)?;
    let (rows, rest) = outer(alloc, source, rest)?;
    let (_closesquare, rest) = expect(source, rest, Fixed::CloseSquare)?;
    let (_opensquare, rest) = expect(source, rest, Fixed::OpenSquare)?;
    let (cols, rest) = outer(alloc, source, rest)?;
    let (_closesquare, rest) = expect(source, rest, Fixed::CloseSquare)?;
    let (_semi, rest) = expect(source, rest, Fixed::Semi)?;
    Ok((Decl::Table(TableDecl::Made(table, rows, cols)), rest))
}

/// What stands after `fn`.
#[tactic(auto, unfolding(crate::specs::Reading::fn_rest))]
fn fn_rest<'a>(
    alloc: Global,
    source: &[u8],
    tokens: &'a [Lexeme],
) -> Result<(Decl, &'a [Lexeme]), Unparsed<'a>>
    ensures reads { (n : ℕ) → length (seen source.now tokens.now) ≤ n →
        Gives source.now (λ x. (decl_of x.0, seen source.now x.1.now)) result
        (fn_rest within n (seen source.now tokens.now)) }
    ensures shorter { IfOk result (λ x.
        length (seen source.now x.1.now) < length (seen source.now tokens.now)) }
{
    let (name, rest) = crate::reader::name(alloc, source, tokens)?;
    let (_openround, rest) = expect(source, rest, Fixed::OpenRound)?;
    let (params, rest) = params(alloc, source, rest)?;
    let (_closeround, rest) = expect(source, rest, Fixed::CloseRound)?;
    let (_open, rest) = open_brace(source, 0, rest)?;
    let (body, rest) = statements(alloc, source, 1, rest)?;
    let (_return, rest) = expect(source, rest, Fixed::Return)?;
    let (result, rest) = outer(alloc, source, rest)?;
    let (_semi, rest) = expect(source, rest, Fixed::Semi)?;
    let (_closebrace, rest) = expect(source, rest, Fixed::CloseBrace)?;
    Ok((
        Decl::Func(Func {
            name,
            params,
            body,
            result,
        }),
        rest,
    ))
}
