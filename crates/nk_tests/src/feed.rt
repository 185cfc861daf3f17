//! A text in pieces: what each completes, and what is held.
use nk_lex::{Feed, Kind, LexError};
use std::test::Fail;

#[test]
fn what_is_open_is_held(rt: HostRuntime) -> Result<(), Fail> {
    let alloc = rt.alloc();
    let mut feed = Feed::new(alloc);
    assert_eq!(rt; feed.feed(alloc, b"1 ab")?.len(), 1);
    assert_eq!(rt; feed.held(), 2);
    assert_eq!(rt; feed.feed(alloc, b"c=")?.len(), 1);
    assert_eq!(rt; feed.held(), 1);
    assert_eq!(rt; feed.feed(alloc, b"> # 12")?.len(), 1);
    assert_eq!(rt; feed.held(), 0);
    assert_eq!(rt; feed.feed(alloc, b"\n34")?.len(), 0);
    let rest = feed.end(alloc)?;
    assert_eq!(rt; rest.len(), 1);
    assert_eq!(rt;
        (rest[0].kind, rest[0].value, rest[0].line),
        (Kind::Number, 34, 2)
    );
    Ok(())
}

#[test]
fn a_fault_is_kept(rt: HostRuntime) -> Result<(), Fail> {
    let alloc = rt.alloc();
    let mut feed = Feed::new(alloc);
    assert_eq!(rt; feed.feed(alloc, b"a\nb$c ")?.len(), 2);
    assert_eq!(rt; feed.held(), 0);
    assert_eq!(rt; feed.feed(alloc, b"d\ne - ")?.len(), 0);
    assert_eq!(rt; feed.held(), 0);
    let rest = feed.end(alloc);
    assert!(rt; matches!(rest, Err(LexError::BadByte { line: 2 })));
    Ok(())
}
