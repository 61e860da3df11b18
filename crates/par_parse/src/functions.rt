//! Functions and programs.

ghost use Rattle.std.specs.Prelude.{◌≡◌, ◌<◌, ℕ};
ghost use Rattle.par_text.specs.Grammar.{listed, param_rule, next_param, more_params, param_list, params_rule, ret_value, ret_rule, func_body, func_rule, more_funcs, program_rule};
ghost use Rattle.par_text.specs.Reading.{read_as};
ghost use Rattle.par_text.specs.Parsing.{read, read_program};
ghost use Rattle.par_tree.specs.View.{param_tree, params_tree, body_tree, ret_tree, ret_value_tree, func_tree, program_tree};
ghost use Rattle.par_lex.specs.Words.{words};
ghost use Rattle.par_parse.specs.Gives.{Gives, func_trees};

use crate::expressions::parse_expression;
use crate::parse_error::{ParseError, Parsed};
use crate::statements::statements;
use crate::words::{followed, name, open, peek, take};
use par_lex::Lexeme;
use par_text::{Kind, Stop};
use par_tree::{Body, Func, Funcs, Param, ParamKind, Params, Program, Ret, RetValue};
use std::alloc::Global;

/// A parameter.
#[tactic(auto, unfolding(par_text::specs::Grammar::param_rule))]
fn param<'a>(alloc: Global, text: &[u8], tokens: &'a [Lexeme]) -> Parsed<'a, Param>
    ensures { (n : ℕ) → Gives (λ x. (param_tree x.0, words text.now x.1.now)) result (read n param_rule (words text.now tokens.now)) }
{
    match peek(tokens) {
        Kind::Use => {
            let (_, rest) = take(tokens, Kind::Use)?;
            let (name, rest) = name(alloc, text, rest)?;
            let kind = ParamKind::Lent;
            Ok((Param { name, kind }, rest))
        }
        Kind::Own => {
            let (_, rest) = take(tokens, Kind::Own)?;
            let (name, rest) = name(alloc, text, rest)?;
            let kind = ParamKind::Owned;
            Ok((Param { name, kind }, rest))
        }
        _ => {
            let (name, rest) = name(alloc, text, tokens)?;
            let kind = ParamKind::Int;
            Ok((Param { name, kind }, rest))
        }
    }
}

/// A comma and a parameter.
#[tactic(auto, unfolding(par_text::specs::Grammar::next_param))]
fn next_param<'a>(alloc: Global, text: &[u8], tokens: &'a [Lexeme]) -> Parsed<'a, Param>
    ensures { (n : ℕ) → Gives (λ x. (param_tree x.0, words text.now x.1.now)) result (read n next_param (words text.now tokens.now)) }
{
    let (_, rest) = take(tokens, Kind::Comma)?;
    param(alloc, text, rest)
}

/// The parameters behind the first.
#[tactic(auto, unfolding(par_text::specs::Grammar::more_params))]
fn more_params<'a>(
    alloc: Global,
    text: &[u8],
    first: Param,
    tokens: &'a [Lexeme],
) -> Parsed<'a, Params>
    ensures { (n : ℕ) → Gives (λ x. (params_tree x.0.items, words text.now x.1.now)) result
        (read_as (listed (param_tree first)) (read n more_params) (words text.now tokens.now)) }
{
    let mut params = Vec::new(alloc);
    params.push(first)?;
    let mut rest = tokens;
    'more: for _ in 0..tokens.len() {
        if !peek(rest).is(Kind::Comma) {
            break;
        }
        let (param, after) = next_param(alloc, text, rest)?;
        params.push(param)?;
        rest = after;
    }
    Ok((params, rest))
}

/// The parameters of a function, which may be none.
#[tactic(auto, unfolding(par_text::specs::Grammar::param_list))]
fn param_list<'a>(alloc: Global, text: &[u8], tokens: &'a [Lexeme]) -> Parsed<'a, Params>
    ensures { (n : ℕ) → Gives (λ x. (params_tree x.0.items, words text.now x.1.now)) result
        (read n param_list (words text.now tokens.now)) }
{
    if peek(tokens).is(Kind::RightParen) {
        return Ok((Vec::new(alloc), tokens));
    }
    let (first, rest) = param(alloc, text, tokens)?;
    more_params(alloc, text, first, rest)
}

/// The parameters of a function in their parentheses.
#[tactic(auto, unfolding(par_text::specs::Grammar::params_rule))]
fn params<'a>(alloc: Global, text: &[u8], depth: u32, tokens: &'a [Lexeme]) -> Parsed<'a, Params>
    ensures { Gives (λ x. (params_tree x.0.items, words text.now x.1.now)) result (read depth params_rule (words text.now tokens.now)) }
{
    let (_, rest) = open(depth, tokens, Kind::LeftParen)?;
    let (params, rest) = param_list(alloc, text, rest)?;
    let (_, rest) = take(rest, Kind::RightParen)?;
    Ok((params, rest))
}

/// What a function gives back. The brace of its body is one of the `depth` constructs that may open.
#[tactic(auto, using(crate::proofs::Inner::inner_expression), unfolding(par_text::specs::Grammar::ret_value))]
fn ret_value<'a>(
    alloc: Global,
    text: &[u8],
    depth: u32,
    tokens: &'a [Lexeme],
) -> Parsed<'a, RetValue>
    requires { 0 < depth }
    ensures { Gives (λ x. (ret_value_tree x.0, words text.now x.1.now)) result (read depth ret_value (words text.now tokens.now)) }
{
    match peek(tokens) {
        Kind::Own => {
            let (_, rest) = take(tokens, Kind::Own)?;
            let (block, rest) = name(alloc, text, rest)?;
            Ok((RetValue::Own(block), rest))
        }
        _ => {
            let (value, rest) = parse_expression(alloc, text, depth - 1, tokens)?;
            Ok((RetValue::Int(value), rest))
        }
    }
}

/// The `return` of a function, or nothing.
#[tactic(auto, unfolding(par_text::specs::Grammar::ret_rule))]
fn ret<'a>(alloc: Global, text: &[u8], depth: u32, tokens: &'a [Lexeme]) -> Parsed<'a, Option<Ret>>
    requires { 0 < depth }
    ensures { Gives (λ x. (ret_tree x.0, words text.now x.1.now)) result (read depth ret_rule (words text.now tokens.now)) }
{
    if !peek(tokens).is(Kind::Return) {
        return Ok((None, tokens));
    }
    let (first, rest) = take(tokens, Kind::Return)?;
    let (value, rest) = ret_value(alloc, text, depth, rest)?;
    let ((value, _), rest) = followed(value, rest, Kind::Semicolon)?;
    let line = first.line;
    Ok((Some(Ret { line, value }), rest))
}

/// The statements and the `return` of a function in their braces.
#[tactic(auto, unfolding(par_text::specs::Grammar::func_body))]
fn func_body<'a>(
    alloc: Global,
    text: &[u8],
    depth: u32,
    tokens: &'a [Lexeme],
) -> Parsed<'a, (Body, Option<Ret>)>
    ensures { Gives (λ x. ((body_tree x.0.0.items, ret_tree x.0.1), words text.now x.1.now)) result
        (read depth func_body (words text.now tokens.now)) }
{
    let (inside, rest) = open(depth, tokens, Kind::LeftBrace)?;
    let (body, rest) = statements(alloc, text, inside, rest)?;
    let (ret, rest) = ret(alloc, text, depth, rest)?;
    let ((ret, _), rest) = followed(ret, rest, Kind::RightBrace)?;
    Ok(((body, ret), rest))
}

/// A function.
#[tactic(auto, unfolding(par_text::specs::Grammar::func_rule))]
fn func<'a>(alloc: Global, text: &[u8], depth: u32, tokens: &'a [Lexeme]) -> Parsed<'a, Func>
    ensures { Gives (λ x. (func_tree x.0, words text.now x.1.now)) result (read depth func_rule (words text.now tokens.now)) }
{
    let (first, rest) = take(tokens, Kind::Fn)?;
    let (name, rest) = name(alloc, text, rest)?;
    let (params, rest) = params(alloc, text, depth, rest)?;
    let ((body, ret), rest) = func_body(alloc, text, depth, rest)?;
    let line = first.line;
    let func = Func {
        name,
        params,
        body,
        ret,
        line,
    };
    Ok((func, rest))
}

/// The functions behind the first.
#[tactic(auto, unfolding(par_text::specs::Grammar::more_funcs))]
fn more_funcs<'a>(
    alloc: Global,
    text: &[u8],
    depth: u32,
    first: Func,
    tokens: &'a [Lexeme],
) -> Parsed<'a, Funcs>
    ensures { Gives (λ x. (func_trees x.0.items, words text.now x.1.now)) result
        (read_as (listed (func_tree first)) (read depth more_funcs) (words text.now tokens.now)) }
{
    let mut funcs = Vec::new(alloc);
    funcs.push(first)?;
    let mut rest = tokens;
    'more: for _ in 0..tokens.len() {
        if !peek(rest).is(Kind::Fn) {
            break;
        }
        let (func, after) = func(alloc, text, depth, rest)?;
        funcs.push(func)?;
        rest = after;
    }
    Ok((funcs, rest))
}

/// Functions, at least one.
#[tactic(auto, unfolding(par_text::specs::Grammar::program_rule))]
fn funcs<'a>(alloc: Global, text: &[u8], depth: u32, tokens: &'a [Lexeme]) -> Parsed<'a, Program>
    ensures { Gives (λ x. (program_tree x.0, words text.now x.1.now)) result (read depth program_rule (words text.now tokens.now)) }
{
    let (first, rest) = func(alloc, text, depth, tokens)?;
    let (funcs, rest) = more_funcs(alloc, text, depth, first, rest)?;
    Ok((Program { funcs }, rest))
}

/// The program that all tokens of a text make, where `depth` constructs may be open at once.
#[tactic(auto, unfolding(par_text::specs::Parsing::read_program))]
pub(crate) fn program(
    alloc: Global,
    text: &[u8],
    depth: u32,
    tokens: &[Lexeme],
) -> Result<Program, ParseError>
    ensures { Gives program_tree result (read_program depth (words text.now tokens.now)) }
{
    let (program, rest) = funcs(alloc, text, depth, tokens)?;
    if rest.is_empty() {
        return Ok(program);
    }
    Err(ParseError::Stopped {
        stop: Stop::Expected,
        left: rest.len(),
    })
}
