//! Statements.

ghost use Rattle.std.specs.Prelude.{◌≡◌, ℕ};
ghost use Rattle.par_text.specs.Grammar.{begins_statement, body_rule, named_value, let_rule, ◌⊳◌, ◌⊲◌, expr_rule, alloc_rule, free_rule, print_rule, written_value, write_rule, else_rule, if_rule, while_rule, call_rule, par_rule, parts_rule, split_rule, stmt_rule, stmts_rule};
ghost use Rattle.par_text.specs.Rule.{token};
ghost use Rattle.par_text.specs.declared.kind.Kind.TheVariants.{Assign, Semicolon};
ghost use Rattle.par_text.specs.Parsing.{read};
ghost use Rattle.par_tree.specs.View.{name_tree, expr_tree, body_tree};
ghost use Rattle.par_lex.specs.Words.{words};
ghost use Rattle.par_parse.specs.Gives.{Gives, option_expr, line_and_tree};

use crate::calls::call;
use crate::expressions::{index, parse_expression};
use crate::parse_error::Parsed;
use crate::words::{followed, name, name_from, open, peek, take};
use par_lex::Lexeme;
use par_text::Kind;
use par_tree::{Body, Expr, Name, Stmt, StmtKind};
use std::alloc::Global;

/// `= e;`.
fn assigned<'a>(alloc: Global, text: &[u8], depth: u32, tokens: &'a [Lexeme]) -> Parsed<'a, Expr>
    ensures { Gives (λ x. (expr_tree x.0, words text.now x.1.now)) result
        (read depth (token Assign ⊳ expr_rule ⊲ token Semicolon) (words text.now tokens.now)) }
{
    let (_, rest) = take(tokens, Kind::Assign)?;
    let (value, rest) = parse_expression(alloc, text, depth, rest)?;
    let ((value, _), rest) = followed(value, rest, Kind::Semicolon)?;
    Ok((value, rest))
}

/// `x = e;`.
#[tactic(auto, unfolding(par_text::specs::Grammar::named_value))]
fn named_value<'a>(
    alloc: Global,
    text: &[u8],
    depth: u32,
    tokens: &'a [Lexeme],
) -> Parsed<'a, (Name, Expr)>
    ensures { Gives (λ x. ((name_tree x.0.0, expr_tree x.0.1), words text.now x.1.now)) result
        (read depth named_value (words text.now tokens.now)) }
{
    let (name, rest) = name(alloc, text, tokens)?;
    let (value, rest) = assigned(alloc, text, depth, rest)?;
    Ok(((name, value), rest))
}

/// `let x = e;`.
#[tactic(auto, unfolding(par_text::specs::Grammar::let_rule))]
fn let_statement<'a>(
    alloc: Global,
    text: &[u8],
    depth: u32,
    tokens: &'a [Lexeme],
) -> Parsed<'a, Stmt>
    ensures { Gives (λ x. (line_and_tree x.0, words text.now x.1.now)) result (read depth let_rule (words text.now tokens.now)) }
{
    let (first, rest) = take(tokens, Kind::Let)?;
    let ((name, value), rest) = named_value(alloc, text, depth, rest)?;
    let kind = StmtKind::Let { name, value };
    let line = first.line;
    Ok((Stmt { line, kind }, rest))
}

/// `alloc b = e;`.
#[tactic(auto, unfolding(par_text::specs::Grammar::alloc_rule))]
fn alloc_statement<'a>(
    alloc: Global,
    text: &[u8],
    depth: u32,
    tokens: &'a [Lexeme],
) -> Parsed<'a, Stmt>
    ensures { Gives (λ x. (line_and_tree x.0, words text.now x.1.now)) result (read depth alloc_rule (words text.now tokens.now)) }
{
    let (first, rest) = take(tokens, Kind::Alloc)?;
    let ((name, size), rest) = named_value(alloc, text, depth, rest)?;
    let kind = StmtKind::Alloc { name, size };
    let line = first.line;
    Ok((Stmt { line, kind }, rest))
}

/// `free b;`.
#[tactic(auto, unfolding(par_text::specs::Grammar::free_rule))]
fn free_statement<'a>(alloc: Global, text: &[u8], tokens: &'a [Lexeme]) -> Parsed<'a, Stmt>
    ensures { (n : ℕ) → Gives (λ x. (line_and_tree x.0, words text.now x.1.now)) result (read n free_rule (words text.now tokens.now)) }
{
    let (first, rest) = take(tokens, Kind::Free)?;
    let (name, rest) = name(alloc, text, rest)?;
    let (_, rest) = take(rest, Kind::Semicolon)?;
    let line = first.line;
    let kind = StmtKind::Free { name };
    Ok((Stmt { line, kind }, rest))
}

/// `print e;`.
#[tactic(auto, unfolding(par_text::specs::Grammar::print_rule))]
fn print_statement<'a>(
    alloc: Global,
    text: &[u8],
    depth: u32,
    tokens: &'a [Lexeme],
) -> Parsed<'a, Stmt>
    ensures { Gives (λ x. (line_and_tree x.0, words text.now x.1.now)) result (read depth print_rule (words text.now tokens.now)) }
{
    let (first, rest) = take(tokens, Kind::Print)?;
    let (value, rest) = parse_expression(alloc, text, depth, rest)?;
    let ((value, _), rest) = followed(value, rest, Kind::Semicolon)?;
    let line = first.line;
    let kind = StmtKind::Print { value };
    Ok((Stmt { line, kind }, rest))
}

/// `call .. ;`.
#[tactic(auto, unfolding(par_text::specs::Grammar::call_rule))]
fn call_statement<'a>(
    alloc: Global,
    text: &[u8],
    depth: u32,
    tokens: &'a [Lexeme],
) -> Parsed<'a, Stmt>
    ensures { Gives (λ x. (line_and_tree x.0, words text.now x.1.now)) result (read depth call_rule (words text.now tokens.now)) }
{
    let (first, rest) = take(tokens, Kind::Call)?;
    let (kind, rest) = call(alloc, text, depth, rest)?;
    let ((kind, _), rest) = followed(kind, rest, Kind::Semicolon)?;
    let line = first.line;
    Ok((Stmt { line, kind }, rest))
}

/// `x = e;` or `b[i] = e;`.
#[tactic(auto, unfolding(par_text::specs::Grammar::write_rule, par_text::specs::Grammar::written_value))]
fn write_statement<'a>(
    alloc: Global,
    text: &[u8],
    depth: u32,
    tokens: &'a [Lexeme],
) -> Parsed<'a, Stmt>
    ensures { Gives (λ x. (line_and_tree x.0, words text.now x.1.now)) result (read depth write_rule (words text.now tokens.now)) }
{
    let (first, rest) = take(tokens, Kind::Name)?;
    let name = name_from(alloc, text, first)?;
    let (at, rest) = index(alloc, text, depth, rest)?;
    let (value, rest) = assigned(alloc, text, depth, rest)?;
    let line = first.line;
    let kind = match at {
        None => StmtKind::Assign { name, value },
        Some(index) => StmtKind::Put {
            block: name,
            index,
            value,
        },
    };
    Ok((Stmt { line, kind }, rest))
}

/// Statements in braces.
#[tactic(auto, unfolding(par_text::specs::Grammar::body_rule))]
#[cycle(statement)]
fn body<'a>(alloc: Global, text: &[u8], depth: u32, tokens: &'a [Lexeme]) -> Parsed<'a, Body>
    ensures { Gives (λ x. (body_tree x.0.items, words text.now x.1.now)) result (read depth body_rule (words text.now tokens.now)) }
{
    let (depth, rest) = open(depth, tokens, Kind::LeftBrace)?;
    let (body, rest) = statements(alloc, text, depth, rest)?;
    let (_, rest) = take(rest, Kind::RightBrace)?;
    Ok((body, rest))
}

/// The body behind `else`, empty where there is no `else`.
#[tactic(auto, unfolding(par_text::specs::Grammar::else_rule))]
#[cycle(statement)]
fn else_part<'a>(alloc: Global, text: &[u8], depth: u32, tokens: &'a [Lexeme]) -> Parsed<'a, Body>
    ensures { Gives (λ x. (body_tree x.0.items, words text.now x.1.now)) result (read depth else_rule (words text.now tokens.now)) }
{
    if !peek(tokens).is(Kind::Else) {
        return Ok((Vec::new(alloc), tokens));
    }
    let (_, rest) = take(tokens, Kind::Else)?;
    body(alloc, text, depth, rest)
}

/// `if e { .. } else { .. }`.
#[tactic(auto, unfolding(par_text::specs::Grammar::if_rule))]
#[cycle(statement)]
fn if_statement<'a>(
    alloc: Global,
    text: &[u8],
    depth: u32,
    tokens: &'a [Lexeme],
) -> Parsed<'a, Stmt>
    ensures { Gives (λ x. (line_and_tree x.0, words text.now x.1.now)) result (read depth if_rule (words text.now tokens.now)) }
{
    let (first, rest) = take(tokens, Kind::If)?;
    let (cond, rest) = parse_expression(alloc, text, depth, rest)?;
    let (then, rest) = body(alloc, text, depth, rest)?;
    let (other, rest) = else_part(alloc, text, depth, rest)?;
    let line = first.line;
    let kind = StmtKind::If { cond, then, other };
    Ok((Stmt { line, kind }, rest))
}

/// `while e { .. }`.
#[tactic(auto, unfolding(par_text::specs::Grammar::while_rule))]
#[cycle(statement)]
fn while_statement<'a>(
    alloc: Global,
    text: &[u8],
    depth: u32,
    tokens: &'a [Lexeme],
) -> Parsed<'a, Stmt>
    ensures { Gives (λ x. (line_and_tree x.0, words text.now x.1.now)) result (read depth while_rule (words text.now tokens.now)) }
{
    let (first, rest) = take(tokens, Kind::While)?;
    let (cond, rest) = parse_expression(alloc, text, depth, rest)?;
    let (body, rest) = body(alloc, text, depth, rest)?;
    let line = first.line;
    let kind = StmtKind::While { cond, body };
    Ok((Stmt { line, kind }, rest))
}

/// `par { .. } and { .. }`.
#[tactic(auto, unfolding(par_text::specs::Grammar::par_rule))]
#[cycle(statement)]
fn par_statement<'a>(
    alloc: Global,
    text: &[u8],
    depth: u32,
    tokens: &'a [Lexeme],
) -> Parsed<'a, Stmt>
    ensures { Gives (λ x. (line_and_tree x.0, words text.now x.1.now)) result (read depth par_rule (words text.now tokens.now)) }
{
    let (first, rest) = take(tokens, Kind::Par)?;
    let (left, rest) = body(alloc, text, depth, rest)?;
    let (_, rest) = take(rest, Kind::And)?;
    let (right, rest) = body(alloc, text, depth, rest)?;
    let line = first.line;
    let kind = StmtKind::Par { left, right };
    Ok((Stmt { line, kind }, rest))
}

/// The names of the two parts of a block.
#[tactic(auto, unfolding(par_text::specs::Grammar::parts_rule))]
fn parts<'a>(alloc: Global, text: &[u8], tokens: &'a [Lexeme]) -> Parsed<'a, (Name, Name)>
    ensures { (n : ℕ) → Gives (λ x. ((name_tree x.0.0, name_tree x.0.1), words text.now x.1.now)) result
        (read n parts_rule (words text.now tokens.now)) }
{
    let (left, rest) = name(alloc, text, tokens)?;
    let (_, rest) = take(rest, Kind::Comma)?;
    let (right, rest) = name(alloc, text, rest)?;
    Ok(((left, right), rest))
}

/// `split b at e into l, r { .. }`.
#[tactic(auto, unfolding(par_text::specs::Grammar::split_rule))]
#[cycle(statement)]
fn split_statement<'a>(
    alloc: Global,
    text: &[u8],
    depth: u32,
    tokens: &'a [Lexeme],
) -> Parsed<'a, Stmt>
    ensures { Gives (λ x. (line_and_tree x.0, words text.now x.1.now)) result (read depth split_rule (words text.now tokens.now)) }
{
    let (first, rest) = take(tokens, Kind::Split)?;
    let (block, rest) = name(alloc, text, rest)?;
    let (_, rest) = take(rest, Kind::At)?;
    let (at, rest) = parse_expression(alloc, text, depth, rest)?;
    let (_, rest) = take(rest, Kind::Into)?;
    let ((left, right), rest) = parts(alloc, text, rest)?;
    let (body, rest) = body(alloc, text, depth, rest)?;
    let line = first.line;
    let kind = StmtKind::Split {
        block,
        at,
        left,
        right,
        body,
    };
    Ok((Stmt { line, kind }, rest))
}

/// A statement.
#[tactic(auto, unfolding(par_text::specs::Grammar::stmt_rule))]
#[cycle(statement)]
fn statement<'a>(alloc: Global, text: &[u8], depth: u32, tokens: &'a [Lexeme]) -> Parsed<'a, Stmt>
    ensures { Gives (λ x. (line_and_tree x.0, words text.now x.1.now)) result (read depth stmt_rule (words text.now tokens.now)) }
{
    match peek(tokens) {
        Kind::Let => let_statement(alloc, text, depth, tokens),
        Kind::Alloc => alloc_statement(alloc, text, depth, tokens),
        Kind::Free => free_statement(alloc, text, tokens),
        Kind::If => if_statement(alloc, text, depth, tokens),
        Kind::While => while_statement(alloc, text, depth, tokens),
        Kind::Call => call_statement(alloc, text, depth, tokens),
        Kind::Print => print_statement(alloc, text, depth, tokens),
        Kind::Par => par_statement(alloc, text, depth, tokens),
        Kind::Split => split_statement(alloc, text, depth, tokens),
        _ => write_statement(alloc, text, depth, tokens),
    }
}

/// Whether a statement can begin with a token of this kind.
fn begins_statement(kind: Kind) -> bool
    ensures { result ≡ begins_statement kind }
{
    matches!(
        kind,
        Kind::Let
            | Kind::Alloc
            | Kind::Free
            | Kind::If
            | Kind::While
            | Kind::Call
            | Kind::Print
            | Kind::Par
            | Kind::Split
            | Kind::Name
    )
}

/// Statements, one after the other.
#[tactic(auto, unfolding(par_text::specs::Grammar::stmts_rule))]
#[cycle(statement)]
pub(crate) fn statements<'a>(
    alloc: Global,
    text: &[u8],
    depth: u32,
    tokens: &'a [Lexeme],
) -> Parsed<'a, Body>
    ensures { Gives (λ x. (body_tree x.0.items, words text.now x.1.now)) result (read depth stmts_rule (words text.now tokens.now)) }
{
    let mut body = Vec::new(alloc);
    let mut rest = tokens;
    'body: for _ in 0..tokens.len() {
        if !begins_statement(peek(rest)) {
            break;
        }
        let (statement, after) = statement(alloc, text, depth, rest)?;
        body.push(statement)?;
        rest = after;
    }
    Ok((body, rest))
}
