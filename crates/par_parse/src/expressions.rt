//! Expressions.

ghost use Rattle.std.specs.Prelude.{◌≡◌, ℕ, List, IfOk};
ghost use Rattle.par_text.specs.Grammar.{index_rule, extent_rule, number_rule, factor_rule, term_operator, is_term_operator, term_link, term_links, term_rule, sum_operator, is_sum_operator, sum_link, sum_links, sum_rule, comparison, is_comparison, expr_rule, group_rule, sign_rule, chained};
ghost use Rattle.par_text.specs.Parsing.{read};
ghost use Rattle.par_tree.specs.View.{expr_tree, links_tree, chain_op_tree, cmp_op_tree};
ghost use Rattle.par_lex.specs.Words.{words};
ghost use Rattle.par_parse.specs.Gives.{Gives, link_pair, option_expr};

use crate::parse_error::Parsed;
use crate::words::{followed, name, open, peek, take};
use par_lex::Lexeme;
use par_text::Kind;
use par_tree::{ChainOp, CmpOp, Expr, Link, Rest};
use std::alloc::{AllocError, Global};

/// `+` or `-`.
#[tactic(auto, unfolding(par_text::specs::Grammar::sum_operator))]
fn sum_operator<'a>(tokens: &'a [Lexeme]) -> Parsed<'a, ChainOp>
    ensures { (n : ℕ) (text : List ℕ)
        → Gives (λ x. (chain_op_tree x.0, words text x.1.now)) result (read n sum_operator (words text tokens.now)) }
{
    match peek(tokens) {
        Kind::Plus => {
            let (_, rest) = take(tokens, Kind::Plus)?;
            Ok((ChainOp::Add, rest))
        }
        _ => {
            let (_, rest) = take(tokens, Kind::Minus)?;
            Ok((ChainOp::Sub, rest))
        }
    }
}

/// Whether the kind is `+` or `-`.
fn is_sum_operator(kind: Kind) -> bool
    ensures { result ≡ is_sum_operator kind }
{
    matches!(kind, Kind::Plus | Kind::Minus)
}

/// `*`, `/` or `%`.
#[tactic(auto, unfolding(par_text::specs::Grammar::term_operator))]
fn term_operator<'a>(tokens: &'a [Lexeme]) -> Parsed<'a, ChainOp>
    ensures { (n : ℕ) (text : List ℕ)
        → Gives (λ x. (chain_op_tree x.0, words text x.1.now)) result (read n term_operator (words text tokens.now)) }
{
    match peek(tokens) {
        Kind::Star => {
            let (_, rest) = take(tokens, Kind::Star)?;
            Ok((ChainOp::Mul, rest))
        }
        Kind::Slash => {
            let (_, rest) = take(tokens, Kind::Slash)?;
            Ok((ChainOp::Div, rest))
        }
        _ => {
            let (_, rest) = take(tokens, Kind::Percent)?;
            Ok((ChainOp::Rem, rest))
        }
    }
}

/// Whether the kind is `*`, `/` or `%`.
fn is_term_operator(kind: Kind) -> bool
    ensures { result ≡ is_term_operator kind }
{
    matches!(kind, Kind::Star | Kind::Slash | Kind::Percent)
}

/// A comparison.
#[tactic(auto, unfolding(par_text::specs::Grammar::comparison))]
fn comparison<'a>(tokens: &'a [Lexeme]) -> Parsed<'a, CmpOp>
    ensures { (n : ℕ) (text : List ℕ)
        → Gives (λ x. (cmp_op_tree x.0, words text x.1.now)) result (read n comparison (words text tokens.now)) }
{
    let kind = peek(tokens);
    let (op, kind) = match kind {
        Kind::EqualEqual => (CmpOp::Eq, kind),
        Kind::NotEqual => (CmpOp::Ne, kind),
        Kind::Less => (CmpOp::Lt, kind),
        Kind::LessEqual => (CmpOp::Le, kind),
        Kind::Greater => (CmpOp::Gt, kind),
        _ => (CmpOp::Ge, Kind::GreaterEqual),
    };
    let (_, rest) = take(tokens, kind)?;
    Ok((op, rest))
}

/// Whether the kind is a comparison.
fn is_comparison(kind: Kind) -> bool
    ensures { result ≡ is_comparison kind }
{
    matches!(
        kind,
        Kind::EqualEqual
            | Kind::NotEqual
            | Kind::Less
            | Kind::LessEqual
            | Kind::Greater
            | Kind::GreaterEqual
    )
}

/// A number.
#[tactic(auto, unfolding(par_text::specs::Grammar::number_rule))]
fn number<'a>(tokens: &'a [Lexeme]) -> Parsed<'a, Expr>
    ensures { (n : ℕ) (text : List ℕ)
        → Gives (λ x. (expr_tree x.0, words text x.1.now)) result (read n number_rule (words text tokens.now)) }
{
    let (token, rest) = take(tokens, Kind::Number)?;
    Ok((Expr::Num(token.value), rest))
}

/// `len(b)`.
#[tactic(auto, unfolding(par_text::specs::Grammar::extent_rule))]
fn extent<'a>(alloc: Global, text: &[u8], depth: u32, tokens: &'a [Lexeme]) -> Parsed<'a, Expr>
    ensures { Gives (λ x. (expr_tree x.0, words text.now x.1.now)) result (read depth extent_rule (words text.now tokens.now)) }
{
    let (_, rest) = take(tokens, Kind::Len)?;
    let (_, rest) = open(depth, rest, Kind::LeftParen)?;
    let (block, rest) = name(alloc, text, rest)?;
    let (_, rest) = take(rest, Kind::RightParen)?;
    Ok((Expr::Len(block), rest))
}

/// `[e]`, or nothing.
#[tactic(auto, unfolding(par_text::specs::Grammar::index_rule))]
#[cycle(parse_expression)]
pub(crate) fn index<'a>(
    alloc: Global,
    text: &[u8],
    depth: u32,
    tokens: &'a [Lexeme],
) -> Parsed<'a, Option<Expr>>
    ensures { Gives (λ x. (option_expr x.0, words text.now x.1.now)) result (read depth index_rule (words text.now tokens.now)) }
{
    if !peek(tokens).is(Kind::LeftBracket) {
        return Ok((None, tokens));
    }
    let (depth, rest) = open(depth, tokens, Kind::LeftBracket)?;
    let (at, rest) = parse_expression(alloc, text, depth, rest)?;
    let ((at, _), rest) = followed(at, rest, Kind::RightBracket)?;
    Ok((Some(at), rest))
}

/// `(e)`.
#[tactic(auto, unfolding(par_text::specs::Grammar::group_rule))]
#[cycle(parse_expression)]
fn group<'a>(alloc: Global, text: &[u8], depth: u32, tokens: &'a [Lexeme]) -> Parsed<'a, Expr>
    ensures { Gives (λ x. (expr_tree x.0, words text.now x.1.now)) result (read depth group_rule (words text.now tokens.now)) }
{
    let (depth, rest) = open(depth, tokens, Kind::LeftParen)?;
    let (inside, rest) = parse_expression(alloc, text, depth, rest)?;
    let ((inside, _), rest) = followed(inside, rest, Kind::RightParen)?;
    Ok((inside, rest))
}

/// A sign and its factor.
#[tactic(auto, unfolding(par_text::specs::Grammar::sign_rule))]
#[cycle(parse_expression)]
fn sign<'a>(alloc: Global, text: &[u8], depth: u32, tokens: &'a [Lexeme]) -> Parsed<'a, Expr>
    ensures { Gives (λ x. (expr_tree x.0, words text.now x.1.now)) result (read depth sign_rule (words text.now tokens.now)) }
{
    let (depth, rest) = open(depth, tokens, Kind::Minus)?;
    let (signed, rest) = factor(alloc, text, depth, rest)?;
    Ok((Expr::Neg(Box::new(alloc, signed)?), rest))
}

/// A factor.
#[tactic(auto, unfolding(par_text::specs::Grammar::factor_rule))]
#[cycle(parse_expression)]
fn factor<'a>(alloc: Global, text: &[u8], depth: u32, tokens: &'a [Lexeme]) -> Parsed<'a, Expr>
    ensures { Gives (λ x. (expr_tree x.0, words text.now x.1.now)) result (read depth factor_rule (words text.now tokens.now)) }
{
    match peek(tokens) {
        Kind::Name => {
            let (name, rest) = name(alloc, text, tokens)?;
            let (at, rest) = index(alloc, text, depth, rest)?;
            match at {
                None => Ok((Expr::Var(name), rest)),
                Some(at) => Ok((Expr::Get(name, Box::new(alloc, at)?), rest)),
            }
        }
        Kind::Len => extent(alloc, text, depth, tokens),
        Kind::LeftParen => group(alloc, text, depth, tokens),
        Kind::Minus => sign(alloc, text, depth, tokens),
        _ => number(tokens),
    }
}

/// An operator of a term, and its factor.
#[tactic(auto, unfolding(par_text::specs::Grammar::term_link))]
#[cycle(parse_expression)]
fn term_link<'a>(alloc: Global, text: &[u8], depth: u32, tokens: &'a [Lexeme]) -> Parsed<'a, Link>
    ensures { Gives (λ x. (link_pair x.0, words text.now x.1.now)) result (read depth term_link (words text.now tokens.now)) }
{
    let (op, rest) = term_operator(tokens)?;
    let (operand, rest) = factor(alloc, text, depth, rest)?;
    Ok((Link { op, operand }, rest))
}

/// The operators of a term, with their factors.
#[tactic(auto, unfolding(par_text::specs::Grammar::term_links))]
#[cycle(parse_expression)]
fn term_links<'a>(alloc: Global, text: &[u8], depth: u32, tokens: &'a [Lexeme]) -> Parsed<'a, Rest>
    ensures { Gives (λ x. (links_tree x.0.items, words text.now x.1.now)) result (read depth term_links (words text.now tokens.now)) }
{
    let mut links = Vec::new(alloc);
    let mut rest = tokens;
    'links: for _ in 0..tokens.len() {
        if !is_term_operator(peek(rest)) {
            break;
        }
        let (link, after) = term_link(alloc, text, depth, rest)?;
        links.push(link)?;
        rest = after;
    }
    Ok((links, rest))
}

/// A term.
#[tactic(auto, unfolding(par_text::specs::Grammar::term_rule))]
#[cycle(parse_expression)]
fn term<'a>(alloc: Global, text: &[u8], depth: u32, tokens: &'a [Lexeme]) -> Parsed<'a, Expr>
    ensures { Gives (λ x. (expr_tree x.0, words text.now x.1.now)) result (read depth term_rule (words text.now tokens.now)) }
{
    let (first, rest) = factor(alloc, text, depth, tokens)?;
    let (links, rest) = term_links(alloc, text, depth, rest)?;
    Ok((chain(alloc, first, links)?, rest))
}

/// An operator of a sum, and its term.
#[tactic(auto, unfolding(par_text::specs::Grammar::sum_link))]
#[cycle(parse_expression)]
fn sum_link<'a>(alloc: Global, text: &[u8], depth: u32, tokens: &'a [Lexeme]) -> Parsed<'a, Link>
    ensures { Gives (λ x. (link_pair x.0, words text.now x.1.now)) result (read depth sum_link (words text.now tokens.now)) }
{
    let (op, rest) = sum_operator(tokens)?;
    let (operand, rest) = term(alloc, text, depth, rest)?;
    Ok((Link { op, operand }, rest))
}

/// The operators of a sum, with their terms.
#[tactic(auto, unfolding(par_text::specs::Grammar::sum_links))]
#[cycle(parse_expression)]
fn sum_links<'a>(alloc: Global, text: &[u8], depth: u32, tokens: &'a [Lexeme]) -> Parsed<'a, Rest>
    ensures { Gives (λ x. (links_tree x.0.items, words text.now x.1.now)) result (read depth sum_links (words text.now tokens.now)) }
{
    let mut links = Vec::new(alloc);
    let mut rest = tokens;
    'links: for _ in 0..tokens.len() {
        if !is_sum_operator(peek(rest)) {
            break;
        }
        let (link, after) = sum_link(alloc, text, depth, rest)?;
        links.push(link)?;
        rest = after;
    }
    Ok((links, rest))
}

/// A sum.
#[tactic(auto, unfolding(par_text::specs::Grammar::sum_rule))]
#[cycle(parse_expression)]
fn sum<'a>(alloc: Global, text: &[u8], depth: u32, tokens: &'a [Lexeme]) -> Parsed<'a, Expr>
    ensures { Gives (λ x. (expr_tree x.0, words text.now x.1.now)) result (read depth sum_rule (words text.now tokens.now)) }
{
    let (first, rest) = term(alloc, text, depth, tokens)?;
    let (links, rest) = sum_links(alloc, text, depth, rest)?;
    Ok((chain(alloc, first, links)?, rest))
}

/// An expression.
#[tactic(auto, unfolding(par_text::specs::Grammar::expr_rule, par_text::specs::Grammar::compared_rule))]
#[cycle(parse_expression)]
pub(crate) fn parse_expression<'a>(
    alloc: Global,
    text: &[u8],
    depth: u32,
    tokens: &'a [Lexeme],
) -> Parsed<'a, Expr>
    ensures { Gives (λ x. (expr_tree x.0, words text.now x.1.now)) result (read depth expr_rule (words text.now tokens.now)) }
{
    let (left, rest) = sum(alloc, text, depth, tokens)?;
    if !is_comparison(peek(rest)) {
        return Ok((left, rest));
    }
    let left = Box::new(alloc, left)?;
    let (op, rest) = comparison(rest)?;
    let (right, rest) = sum(alloc, text, depth, rest)?;
    let right = Box::new(alloc, right)?;
    Ok((Expr::Cmp { op, left, right }, rest))
}

/// The operand alone where it has no links, and else the chain.
fn chain(alloc: Global, first: Expr, links: Rest) -> Result<Expr, AllocError>
    ensures { IfOk result (λ e. expr_tree e ≡ chained (expr_tree first) (links_tree links.items)) }
{
    if links.is_empty() {
        return Ok(first);
    }
    let first = Box::new(alloc, first)?;
    Ok(Expr::Chain { first, rest: links })
}
