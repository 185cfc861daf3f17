//! A read that goes on after a fault, an input in pieces, a sink that is full, and one that counts.
use nk_io::{
    CountSink, MemSink, MemSource, PieceError, ReadError, Taken, next_piece, read_all, write_all,
};
use std::alloc::{AllocError, Global};
use std::test::Fail;

/// A source that gives three bytes a call, and whose second call fails.
fn source(alloc: Global, bytes: &[u8]) -> Result<MemSource, AllocError> {
    let bytes = Vec::from_slice(alloc, bytes)?;
    let fails = Vec::from_slice(alloc, &[2])?;
    Ok(MemSource::new(bytes, 3, fails))
}

/// Whether reading all ends at the fault, with the bytes after it left.
fn ends_at_the_fault(alloc: Global, source: &mut MemSource) -> bool {
    matches!(read_all(alloc, source, 100), Err(ReadError::ReadFault))
        && source.left() == b"defgh".as_slice()
        && source.calls() == 2
}

/// Whether reading goes on after the fault.
fn goes_on(alloc: Global) -> Result<bool, Fail> {
    let mut source = source(alloc, b"abcdefgh")?;
    if !ends_at_the_fault(alloc, &mut source) {
        return Ok(false);
    }
    let rest = read_all(alloc, &mut source, 100)?;
    Ok(rest.as_slice() == b"defgh".as_slice())
}

#[test]
fn a_read_fault_is_no_end(rt: HostRuntime) -> Result<(), Fail> {
    assert!(rt; goes_on(rt.alloc())?);
    Ok(())
}

/// Whether the first piece is `abc`, and after it the source fails.
fn first_piece_comes(source: &mut MemSource, taken: &mut Taken) -> Result<bool, PieceError> {
    let mut piece = [0; 4];
    let count = next_piece(source, taken, &mut piece)?;
    let comes = count == 3 && &piece[..3] == b"abc".as_slice();
    let failed = next_piece(source, taken, &mut piece);
    Ok(comes && matches!(failed, Err(PieceError::ReadFault)))
}

/// Whether two bytes more come, and then the end.
fn rest_comes(source: &mut MemSource, taken: &mut Taken) -> Result<bool, PieceError> {
    let mut piece = [0; 4];
    let two = next_piece(source, taken, &mut piece)?;
    let none = next_piece(source, taken, &mut piece)?;
    Ok((two, none) == (2, 0) && taken.count() == 5)
}

fn pieces_come(source: &mut MemSource) -> Result<bool, PieceError> {
    let mut taken = Taken::new();
    Ok(first_piece_comes(source, &mut taken)? && rest_comes(source, &mut taken)?)
}

fn comes_in_pieces(alloc: Global) -> Result<bool, Fail> {
    let mut source = source(alloc, b"abcde")?;
    Ok(pieces_come(&mut source)?)
}

#[test]
fn an_input_comes_in_pieces(rt: HostRuntime) -> Result<(), Fail> {
    assert!(rt; comes_in_pieces(rt.alloc())?);
    Ok(())
}

fn takes_a_front(alloc: Global) -> Result<bool, Fail> {
    let mut small = MemSink::new(alloc, 4, 3, Vec::new(alloc))?;
    let fails = write_all(&mut small, b"abcdef").is_err();
    Ok(fails && small.taken() == b"abcd".as_slice())
}

fn counts_all() -> Result<bool, Fail> {
    let mut counted = CountSink::new();
    write_all(&mut counted, b"abcdef")?;
    Ok(counted.count() == 6)
}

#[test]
fn a_front_fits(rt: HostRuntime) -> Result<(), Fail> {
    assert!(rt; takes_a_front(rt.alloc())?);
    assert!(rt; counts_all()?);
    Ok(())
}
