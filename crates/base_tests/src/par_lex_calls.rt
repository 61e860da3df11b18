use par_lex::{ParseFail, Token, tokens};
use par_text::{SyntaxError, SyntaxKind};
use std::test::Fail;

#[test]
fn places(rt: HostRuntime) -> Result<(), Fail> {
    let found = tokens(rt.alloc(), b"fn f\n( ) # c\n{ }")
        .ok()
        .ok_or("tokens")?;
    let places = [
        (0, 2, 1),
        (3, 1, 1),
        (5, 1, 2),
        (7, 1, 2),
        (13, 1, 3),
        (15, 1, 3),
    ];
    assert!(rt; found.len() == places.len());
    for (token, (at, len, line)) in found.iter().zip(places) {
        assert!(rt; *token == Token { at, len, line });
    }
    let refused = tokens(rt.alloc(), b"par call ?");
    assert!(rt;
        matches!(
            refused,
            Err(ParseFail::Refused(SyntaxError {
                kind: SyntaxKind::BadToken,
                at: 9
            }))
        )
    );
    Ok(())
}
