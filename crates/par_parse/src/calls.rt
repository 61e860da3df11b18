//! Calls.

ghost use Rattle.std.specs.Prelude.{◌≡◌, ◌<◌, ℕ};
ghost use Rattle.par_text.specs.Grammar.{listed, arg_rule, next_arg, more_args, arg_list, args_rule, callee_rule, owning_call, plain_call, any_call};
ghost use Rattle.par_text.specs.Reading.{read_as};
ghost use Rattle.par_text.specs.Parsing.{read};
ghost use Rattle.par_tree.specs.View.{arg_tree, args_tree, stmt_tree, name_tree};
ghost use Rattle.par_lex.specs.Words.{words};
ghost use Rattle.par_parse.specs.Gives.{Gives, option_name};

use crate::expressions::parse_expression;
use crate::parse_error::Parsed;
use crate::words::{name, open, peek, take};
use par_lex::Lexeme;
use par_text::Kind;
use par_tree::{Arg, Args, Name, StmtKind, Target};
use std::alloc::Global;

/// An argument. The parenthesis of its call is one of the `depth` constructs that may open.
#[tactic(auto, using(crate::proofs::Inner::inner_expression), unfolding(par_text::specs::Grammar::arg_rule))]
fn arg<'a>(alloc: Global, text: &[u8], depth: u32, tokens: &'a [Lexeme]) -> Parsed<'a, Arg>
    requires { 0 < depth }
    ensures { Gives (λ x. (arg_tree x.0, words text.now x.1.now)) result (read depth arg_rule (words text.now tokens.now)) }
{
    match peek(tokens) {
        Kind::Use => {
            let (_, rest) = take(tokens, Kind::Use)?;
            let (block, rest) = name(alloc, text, rest)?;
            Ok((Arg::Lend(block), rest))
        }
        Kind::Own => {
            let (_, rest) = take(tokens, Kind::Own)?;
            let (block, rest) = name(alloc, text, rest)?;
            Ok((Arg::Give(block), rest))
        }
        _ => {
            let (value, rest) = parse_expression(alloc, text, depth - 1, tokens)?;
            Ok((Arg::Value(value), rest))
        }
    }
}

/// A comma and an argument.
#[tactic(auto, unfolding(par_text::specs::Grammar::next_arg))]
fn next_arg<'a>(alloc: Global, text: &[u8], depth: u32, tokens: &'a [Lexeme]) -> Parsed<'a, Arg>
    requires { 0 < depth }
    ensures { Gives (λ x. (arg_tree x.0, words text.now x.1.now)) result (read depth next_arg (words text.now tokens.now)) }
{
    let (_, rest) = take(tokens, Kind::Comma)?;
    arg(alloc, text, depth, rest)
}

/// The arguments behind the first.
#[tactic(auto, unfolding(par_text::specs::Grammar::more_args))]
fn more_args<'a>(
    alloc: Global,
    text: &[u8],
    depth: u32,
    first: Arg,
    tokens: &'a [Lexeme],
) -> Parsed<'a, Args>
    requires { 0 < depth }
    ensures { Gives (λ x. (args_tree x.0.items, words text.now x.1.now)) result
        (read_as (listed (arg_tree first)) (read depth more_args) (words text.now tokens.now)) }
{
    let mut args = Vec::new(alloc);
    args.push(first)?;
    let mut rest = tokens;
    'more: for _ in 0..tokens.len() {
        if !peek(rest).is(Kind::Comma) {
            break;
        }
        let (arg, after) = next_arg(alloc, text, depth, rest)?;
        args.push(arg)?;
        rest = after;
    }
    Ok((args, rest))
}

/// The arguments of a call, which may be none.
#[tactic(auto, unfolding(par_text::specs::Grammar::arg_list))]
fn arg_list<'a>(alloc: Global, text: &[u8], depth: u32, tokens: &'a [Lexeme]) -> Parsed<'a, Args>
    requires { 0 < depth }
    ensures { Gives (λ x. (args_tree x.0.items, words text.now x.1.now)) result (read depth arg_list (words text.now tokens.now)) }
{
    if peek(tokens).is(Kind::RightParen) {
        return Ok((Vec::new(alloc), tokens));
    }
    let (first, rest) = arg(alloc, text, depth, tokens)?;
    more_args(alloc, text, depth, first, rest)
}

/// The arguments of a call in their parentheses.
#[tactic(auto, unfolding(par_text::specs::Grammar::args_rule))]
fn args<'a>(alloc: Global, text: &[u8], depth: u32, tokens: &'a [Lexeme]) -> Parsed<'a, Args>
    ensures { Gives (λ x. (args_tree x.0.items, words text.now x.1.now)) result (read depth args_rule (words text.now tokens.now)) }
{
    let (_, rest) = open(depth, tokens, Kind::LeftParen)?;
    let (args, rest) = arg_list(alloc, text, depth, rest)?;
    let (_, rest) = take(rest, Kind::RightParen)?;
    Ok((args, rest))
}

/// `= f` behind the name of a target, or nothing.
#[tactic(auto, unfolding(par_text::specs::Grammar::callee_rule))]
fn callee<'a>(alloc: Global, text: &[u8], tokens: &'a [Lexeme]) -> Parsed<'a, Option<Name>>
    ensures { (n : ℕ) → Gives (λ x. (option_name x.0, words text.now x.1.now)) result (read n callee_rule (words text.now tokens.now)) }
{
    if !peek(tokens).is(Kind::Assign) {
        return Ok((None, tokens));
    }
    let (_, rest) = take(tokens, Kind::Assign)?;
    let (callee, rest) = name(alloc, text, rest)?;
    Ok((Some(callee), rest))
}

/// `own x = f(..)`.
#[tactic(auto, unfolding(par_text::specs::Grammar::owning_call))]
fn owning_call<'a>(
    alloc: Global,
    text: &[u8],
    depth: u32,
    tokens: &'a [Lexeme],
) -> Parsed<'a, StmtKind>
    ensures { Gives (λ x. (stmt_tree x.0, words text.now x.1.now)) result (read depth owning_call (words text.now tokens.now)) }
{
    let (_, rest) = take(tokens, Kind::Own)?;
    let (block, rest) = name(alloc, text, rest)?;
    let (_, rest) = take(rest, Kind::Assign)?;
    let (func, rest) = name(alloc, text, rest)?;
    let (args, rest) = args(alloc, text, depth, rest)?;
    let target = Target::Own(block);
    Ok((StmtKind::Call { target, func, args }, rest))
}

/// `f(..)` or `x = f(..)`.
#[tactic(auto, unfolding(par_text::specs::Grammar::plain_call))]
fn plain_call<'a>(
    alloc: Global,
    text: &[u8],
    depth: u32,
    tokens: &'a [Lexeme],
) -> Parsed<'a, StmtKind>
    ensures { Gives (λ x. (stmt_tree x.0, words text.now x.1.now)) result (read depth plain_call (words text.now tokens.now)) }
{
    let (first, rest) = name(alloc, text, tokens)?;
    let (callee, rest) = callee(alloc, text, rest)?;
    let (args, rest) = args(alloc, text, depth, rest)?;
    let (target, func) = match callee {
        None => (Target::Unused, first),
        Some(func) => (Target::Int(first), func),
    };
    Ok((StmtKind::Call { target, func, args }, rest))
}

/// What stands between `call` and `;`.
#[tactic(auto, unfolding(par_text::specs::Grammar::any_call))]
pub(crate) fn call<'a>(
    alloc: Global,
    text: &[u8],
    depth: u32,
    tokens: &'a [Lexeme],
) -> Parsed<'a, StmtKind>
    ensures { Gives (λ x. (stmt_tree x.0, words text.now x.1.now)) result (read depth any_call (words text.now tokens.now)) }
{
    match peek(tokens) {
        Kind::Own => owning_call(alloc, text, depth, tokens),
        _ => plain_call(alloc, text, depth, tokens),
    }
}
