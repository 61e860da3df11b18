//! Operators, and the parts of a text that hold no expression.

ghost use Rattle.std.specs.Prelude.{◌≡◌, ◌++◌, IfOk};
ghost use Rattle.std.specs.Fmt.{signed_decimal};
ghost use Rattle.par_tree.specs.View.{chain_op_tree, cmp_op_tree, target_tree, param_kind_tree, param_tree};
ghost use Rattle.canonical_text.specs.Canonical.{operator_text, comparison_text, target_text, kind_text, param_text, deeper};

use par_tree::{ChainOp, CmpOp, Param, ParamKind, Target};
use std::alloc::{AllocError, Global};

/// An operator with a space on each side.
pub(crate) fn operator(op: ChainOp) -> &'static [u8]
    ensures { result.now ≡ operator_text (chain_op_tree op) }
{
    match op {
        ChainOp::Add => b" + ",
        ChainOp::Sub => b" - ",
        ChainOp::Mul => b" * ",
        ChainOp::Div => b" / ",
        ChainOp::Rem => b" % ",
    }
}

/// A comparison with a space on each side.
pub(crate) fn comparison(op: CmpOp) -> &'static [u8]
    ensures { result.now ≡ comparison_text (cmp_op_tree op) }
{
    match op {
        CmpOp::Eq => b" == ",
        CmpOp::Ne => b" != ",
        CmpOp::Lt => b" < ",
        CmpOp::Le => b" <= ",
        CmpOp::Gt => b" > ",
        CmpOp::Ge => b" >= ",
    }
}

/// The digits of a number, with `-` before a negative one.
pub(crate) fn print_number(alloc: Global, number: i64, out: &mut Vec<u8>) -> Result<(), AllocError>
    ensures { IfOk result (λ _. out.new.items ≡ out.old.items ++ signed_decimal number) }
{
    let digits = format!(in alloc; "{number}")?;
    out.extend_from_slice(digits.as_bytes())
}

/// The target of a call and its `=`.
pub(crate) fn print_target(target: &Target, out: &mut Vec<u8>) -> Result<(), AllocError>
    ensures { IfOk result (λ _. out.new.items ≡ out.old.items ++ target_text (target_tree target.now)) }
{
    match target {
        Target::Unused => Ok(()),
        Target::Int(name) => {
            out.extend_from_slice(&name.bytes)?;
            out.extend_from_slice(b" = ")
        }
        Target::Own(name) => {
            out.extend_from_slice(b"own ")?;
            out.extend_from_slice(&name.bytes)?;
            out.extend_from_slice(b" = ")
        }
    }
}

/// The word before a parameter.
fn kind(kind: ParamKind) -> &'static [u8]
    ensures { result.now ≡ kind_text (param_kind_tree kind) }
{
    match kind {
        ParamKind::Int => b"",
        ParamKind::Lent => b"use ",
        ParamKind::Owned => b"own ",
    }
}

/// A parameter.
pub(crate) fn print_param(param: &Param, out: &mut Vec<u8>) -> Result<(), AllocError>
    ensures { IfOk result (λ _. out.new.items ≡ out.old.items ++ param_text (param_tree param.now)) }
{
    out.extend_from_slice(kind(param.kind))?;
    out.extend_from_slice(&param.name.bytes)
}

/// The margin one level deeper.
pub(crate) fn deeper(alloc: Global, margin: &[u8]) -> Result<Vec<u8>, AllocError>
    ensures { IfOk result (λ inner. inner.items ≡ deeper margin.now) }
{
    let mut inner = Vec::from_slice(alloc, margin)?;
    inner.extend_from_slice(b"  ")?;
    Ok(inner)
}
