use dag_order::FaultKind;
use number_operators::{compare, cut_of, is_true, negate, operate, place_in, place_up_to, size_of};
use par_tree::{ChainOp, CmpOp};

#[test]
fn operators_wrap_and_round_towards_zero(rt: HostRuntime) {
    let least = i64::MIN;
    let cases = [
        (ChainOp::Add, i64::MAX, 1, Ok(least)),
        (ChainOp::Sub, least, 1, Ok(i64::MAX)),
        (ChainOp::Mul, 4_294_967_296, 4_294_967_296, Ok(0)),
        (ChainOp::Div, -7, 2, Ok(-3)),
        (ChainOp::Div, least, -1, Ok(least)),
        (ChainOp::Div, 5, 0, Err(FaultKind::Divide)),
        (ChainOp::Rem, -7, 2, Ok(-1)),
        (ChainOp::Rem, 7, -2, Ok(1)),
        (ChainOp::Rem, least, -1, Ok(0)),
        (ChainOp::Rem, 5, 0, Err(FaultKind::Divide)),
    ];
    for (op, left, right, want) in cases {
        assert!(rt; operate(op, left, right) == want, "{left} and {right}");
    }
    assert!(rt; (negate(7), negate(0), negate(least)) == (-7, 0, least));
}

#[test]
fn comparisons_are_one_or_zero(rt: HostRuntime) {
    // the operator, and what it gives for 1 and 2, 2 and 2, 2 and 1
    let cases = [
        (CmpOp::Eq, (0, 1, 0)),
        (CmpOp::Ne, (1, 0, 1)),
        (CmpOp::Lt, (1, 0, 0)),
        (CmpOp::Le, (1, 1, 0)),
        (CmpOp::Gt, (0, 0, 1)),
        (CmpOp::Ge, (0, 1, 1)),
    ];
    for (op, want) in cases {
        let told = (compare(op, 1, 2), compare(op, 2, 2), compare(op, 2, 1));
        assert!(rt; told == want);
    }
    assert!(rt; (is_true(0), is_true(1), is_true(i64::MIN)) == (false, true, true));
}

#[test]
fn numbers_are_lengths_and_places(rt: HostRuntime) {
    let sizes = [
        (-1, None),
        (0, Some(0)),
        (1_048_576, Some(1_048_576)),
        (1_048_577, None),
        (i64::MAX, None),
    ];
    for (number, want) in sizes {
        assert!(rt; size_of(number) == want, "at {number}");
    }
    // a number, and which place of 40 it is, at most which, and where it cuts them
    let places = [
        (i64::MIN, None, None, None),
        (-16, None, None, None),
        (0, Some(0), Some(0), Some(0)),
        (8, Some(8), Some(8), None),
        (32, Some(32), Some(32), Some(32)),
        (39, Some(39), Some(39), None),
        (40, None, Some(40), None),
        (48, None, None, None),
        (4_294_967_296, None, None, None),
    ];
    for (number, place, up_to, cut) in places {
        assert!(rt; place_in(40, number) == place, "at {number}");
        assert!(rt; place_up_to(number, 40) == up_to, "at {number}");
        assert!(rt; cut_of(40, number) == cut, "at {number}");
    }
    assert!(rt; (cut_of(48, 48), place_in(0, 0)) == (Some(48), None));
}
