use crate::code_arg::CodeArgs;
use crate::code_expr::CodeExpr;
use crate::code_target::CodeTarget;
use crate::node::{NodeList, Slots};

/// What a statement does. Names are slots of the function's frame. It is let go by a call, so that the steps of that are proved once, and not
/// at each exit of what owns one.
pub enum NodeKind {
    /// `let name = value;`
    Let {
        name: u16,
        value: CodeExpr,
    },
    /// `name = value;`
    Assign {
        name: u16,
        value: CodeExpr,
    },
    /// `block[index] = value;`
    Put {
        block: u16,
        index: CodeExpr,
        value: CodeExpr,
    },
    /// `alloc name = size;`
    Alloc {
        name: u16,
        size: CodeExpr,
    },
    /// `free name;`
    Free {
        name: u16,
    },
    /// `if cond { then } else { other }`. Without `else`, `other` is empty.
    If {
        cond: CodeExpr,
        then: NodeList,
        other: NodeList,
    },
    /// `while cond { body }`
    While {
        cond: CodeExpr,
        body: NodeList,
    },
    /// `call target = func(args);`, where `func` is the number of a function.
    Call {
        target: CodeTarget,
        func: u32,
        args: CodeArgs,
    },
    /// `print value;`
    Print {
        value: CodeExpr,
    },
    /// `par { left } and { right }`, with the function's slots, in their order, whose names the first branch writes, and those to whose
    /// integers it assigns. So a block that goes into this branch is in a slot of the first list, and an integer that comes out of it
    /// changed is in one of the second.
    Both {
        left: NodeList,
        right: NodeList,
        left_blocks: Slots,
        left_assigned: Slots,
    },
    /// `split block at at into left, right { body }`
    Split {
        block: u16,
        at: CodeExpr,
        left: u16,
        right: u16,
        body: NodeList,
    },
}

impl Drop for NodeKind {
    fn drop(self) {
        match self {
            NodeKind::Let {
                name: _,
                value: _value,
            } => {}
            NodeKind::Assign {
                name: _,
                value: _value,
            } => {}
            NodeKind::Put {
                block: _,
                index: _index,
                value: _value,
            } => {}
            NodeKind::Alloc {
                name: _,
                size: _size,
            } => {}
            NodeKind::Free { name: _ } => {}
            NodeKind::If {
                cond: _cond,
                then: _then,
                other: _other,
            } => {}
            NodeKind::While {
                cond: _cond,
                body: _body,
            } => {}
            NodeKind::Call {
                target: _,
                func: _,
                args: _args,
            } => {}
            NodeKind::Print { value: _value } => {}
            NodeKind::Both {
                left: _left,
                right: _right,
                left_blocks: _left_blocks,
                left_assigned: _left_assigned,
            } => {}
            NodeKind::Split {
                block: _,
                at: _at,
                left: _,
                right: _,
                body: _body,
            } => {}
        }
    }
}
