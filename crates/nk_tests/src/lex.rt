//! The tokens that the lexical rules give a text.
use nk_lex::{Kind, tokens};
use std::test::Fail;

#[test]
fn a_text_is_cut_into_its_longest_tokens(rt: HostRuntime) -> Result<(), Fail> {
    let tokens = tokens(rt.alloc(), b"# a b\n~in:=07->x_1/2..3")?;
    assert_eq!(rt; tokens.len(), 10);
    let expected = [
        (Kind::Tilde, 6, 7, 0),
        (Kind::In, 7, 9, 0),
        (Kind::Assign, 9, 11, 0),
        (Kind::Number, 11, 13, 7),
        (Kind::Arrow, 13, 15, 0),
        (Kind::Name, 15, 18, 0),
        (Kind::Slash, 18, 19, 0),
        (Kind::Number, 19, 20, 2),
        (Kind::DotDot, 20, 22, 0),
        (Kind::Number, 22, 23, 3),
    ];
    for (token, (kind, start, end, value)) in tokens.iter().zip(expected) {
        assert_eq!(rt; token.kind, kind);
        assert_eq!(rt; (token.start, token.end), (start, end));
        assert_eq!(rt; (token.line, token.value), (2, value));
    }
    Ok(())
}
