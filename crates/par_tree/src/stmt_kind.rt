use crate::arg::Args;
use crate::body::Body;
use crate::expr::Expr;
use crate::name::Name;
use crate::target::Target;

/// What a statement does.
#[derive(Drop)]
#[cycle(stmt)]
pub enum StmtKind {
    /// `let name = value;`
    Let {
        name: Name,
        value: Expr,
    },
    /// `name = value;`
    Assign {
        name: Name,
        value: Expr,
    },
    /// `block[index] = value;`
    Put {
        block: Name,
        index: Expr,
        value: Expr,
    },
    /// `alloc name = size;`
    Alloc {
        name: Name,
        size: Expr,
    },
    /// `free name;`
    Free {
        name: Name,
    },
    /// `if cond { then } else { other }`. Without `else`, `other` is empty.
    If {
        cond: Expr,
        then: Body,
        other: Body,
    },
    /// `while cond { body }`
    While {
        cond: Expr,
        body: Body,
    },
    /// `call target = func(args);`
    Call {
        target: Target,
        func: Name,
        args: Args,
    },
    /// `print value;`
    Print {
        value: Expr,
    },
    /// `par { left } and { right }`
    Par {
        left: Body,
        right: Body,
    },
    /// `split block at at into left, right { body }`
    Split {
        block: Name,
        at: Expr,
        left: Name,
        right: Name,
        body: Body,
    },
}
