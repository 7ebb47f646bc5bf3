//! Requests that are written for cells.
use crate::sheets::{EXAMPLE, sheet};
use refusal::{Cause, Refusal};
use request::reading::read_request;
use request::writing::write_request;
use std::alloc::Global;
use std::process::Abort;
use std::test::Fail;
use vocabulary::record::Vocabulary;

/// Room for the longest request.
const ROOM: usize = 288;

/// What memory holds before a call.
const FILLER: u8 = 0xA5;

fn check_refused(
    rt: &impl Abort,
    answer: Result<usize, Refusal>,
    cause: Cause,
    out: &[u8],
) -> Result<(), Fail> {
    let refusal = answer.err().ok_or("not refused")?;
    assert_eq!(rt; refusal, Refusal { cause, place: 0 });
    for byte in out {
        assert_eq!(rt; *byte, FILLER);
    }
    Ok(())
}

/// Written with just enough room it is read back; with a byte less it is refused and memory stays.
fn check_written(
    rt: &impl Abort,
    heap: Global,
    vocabulary: &Vocabulary,
    cells: &[u8],
) -> Result<usize, Fail> {
    let mut out = [FILLER; ROOM];
    let len = write_request(vocabulary, cells, &mut out)?;
    assert!(rt; len <= ROOM);
    for byte in &out[len..] {
        assert_eq!(rt; *byte, FILLER);
    }
    assert!(rt; read_request(vocabulary, &out[0..len])?.as_slice() == cells);
    let mut short = vec![in heap; FILLER; len.saturating_sub(1)]?;
    let answer = write_request(vocabulary, cells, &mut short);
    check_refused(rt, answer, Cause::MemoryTooShort, &short)?;
    Ok(len)
}

#[test]
fn every_cell_has_a_request(rt: HostRuntime) -> Result<(), Fail> {
    for words in [
        EXAMPLE,
        "1",
        "16 16 16",
        "10:n 12:#-2147483648#-1#61#2147483647",
    ] {
        let bytes = sheet(rt.alloc(), words)?;
        let mut vocabulary = Vocabulary::new(&bytes);
        vocabulary.read()?;
        let shape = vocabulary.shape();
        for n in 0..shape.size() {
            let cells = shape.cells(n).ok_or("no cells")?;
            check_written(&rt, rt.alloc(), &vocabulary, cells.as_slice())?;
        }
    }
    Ok(())
}

/// Eight attributes and values with names of sixteen bytes.
#[test]
fn longest_request(rt: HostRuntime) -> Result<(), Fail> {
    let mut words = String::new(rt.alloc());
    for name in ["a", "b", "c", "d", "e", "f", "g", "h"] {
        words.push_str("10:")?;
        words.push_str(name)?;
        words.push_str("23456789-123456 11:v23456789-123456 ")?;
    }
    let bytes = sheet(rt.alloc(), words.as_str())?;
    let mut vocabulary = Vocabulary::new(&bytes);
    vocabulary.read()?;
    assert_eq!(rt; check_written(&rt, rt.alloc(), &vocabulary, &[0; 8])?, ROOM);
    Ok(())
}

#[test]
fn cells_of_another_shape(rt: HostRuntime) -> Result<(), Fail> {
    let bytes = sheet(rt.alloc(), EXAMPLE)?;
    let mut vocabulary = Vocabulary::new(&bytes);
    vocabulary.read()?;
    let wrong: [&[u8]; 5] = [&[], &[0, 0], &[0, 0, 0, 0], &[2, 0, 0], &[0, 0, 2]];
    for cells in wrong {
        let mut out = [FILLER; ROOM];
        let answer = write_request(&vocabulary, cells, &mut out);
        check_refused(&rt, answer, Cause::Mismatch, &out)?;
        let mut none: [u8; 0] = [];
        let answer = write_request(&vocabulary, cells, &mut none);
        check_refused(&rt, answer, Cause::Mismatch, &none)?;
    }
    Ok(())
}
