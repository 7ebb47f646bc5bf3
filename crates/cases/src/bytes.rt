//! Sheets whose bytes are replaced, and the longest sheets.
use crate::sheets::{EXAMPLE, check_request, check_vocabulary, sheet};
use request::reading::read_request;
use std::alloc::{AllocError, Global};
use std::process::Abort;
use std::test::Fail;
use vocabulary::record::Vocabulary;

/// The example vocabulary.
const WORDS: &[u8] =
    b"\x10\x00\x04role\x11\x00\x04home\x11\x00\x06fitter\x10\x00\x03act\x11\x00\x04read\x11\x00\x05write\x10\x00\x03out\x12\x00\x0C\xFF\xFF\xFF\x38\x00\x00\x00\x46\x00\x00\x01\x5E";

/// A request on it: a fitter writes at 69.
const REQUEST: &[u8] =
    b"\x31\x00\x0Brole=fitter\x31\x00\x09act=write\x32\x00\x08out=\x00\x00\x00\x45";

#[test]
fn text_writes_bytes(rt: HostRuntime) -> Result<(), Fail> {
    assert_eq!(rt; sheet(rt.alloc(), EXAMPLE)?.as_slice(), WORDS);
    Ok(())
}

/// The length of a sheet is looked at before its fields.
#[test]
fn longest_sheets(rt: HostRuntime) -> Result<(), Fail> {
    for (len, expected) in [(65535usize, "11 at 0"), (65536, "14 at 0")] {
        let bytes = vec![in rt.alloc(); 0u8; len]?;
        check_vocabulary(&rt, rt.alloc(), &bytes, expected)?;
        check_request(&rt, rt.alloc(), WORDS, &bytes, expected)?;
    }
    Ok(())
}

pub(crate) fn replaced(
    heap: Global,
    sheet: &[u8],
    at: usize,
    byte: u8,
) -> Result<Vec<u8>, AllocError> {
    let mut bytes = Vec::from_slice(heap, sheet)?;
    if let Some(old) = bytes.get_mut(at) {
        *old = byte;
    }
    Ok(bytes)
}

/// The size of the grid if the vocabulary is read; 0 if it is refused, within it and by a number for fields.
fn grid_of(rt: &impl Abort, bytes: &[u8]) -> Result<usize, Fail> {
    let mut vocabulary = Vocabulary::new(bytes);
    match vocabulary.read() {
        Ok(()) => Ok(vocabulary.shape().size()),
        Err(refusal) => {
            assert!(rt;
                [10, 11, 12, 13].contains(&refusal.number()) && refusal.place < bytes.len()
            );
            Ok(0)
        }
    }
}

/// What is read with all its cells, counted by hand: 29 bytes of names can be any of 37 bytes; 24 bytes of tags and
/// lengths have to stay; the four bytes of the first cut can be 128, 256, 256 and 256 others and still
/// rise, those of the second 1, 1, 2 and 256, and those of the third 128, 256, 256 and 256.
#[test]
fn replaced_bytes_of_a_vocabulary(rt: HostRuntime) -> Result<(), Fail> {
    let mut read = 0u32;
    for at in 0..65usize {
        for byte in 0..=255u8 {
            if grid_of(&rt, &replaced(rt.alloc(), WORDS, at, byte)?)? == 8 {
                read = read.saturating_add(1);
            }
        }
    }
    assert_eq!(rt; read, 29 * 37 + 24 + 896 + 260 + 896);
    Ok(())
}

/// The grid number if the request is read; none if it is refused, within it and by a number for requests.
fn number_of(rt: &impl Abort, request: &[u8]) -> Result<Option<usize>, Fail> {
    let mut vocabulary = Vocabulary::new(WORDS);
    vocabulary.read()?;
    match read_request(&vocabulary, request) {
        Ok(cells) => Ok(vocabulary.shape().number(cells.as_slice())),
        Err(refusal) => {
            assert!(rt;
                [10, 11, 12, 13, 23, 24].contains(&refusal.number())
                    && refusal.place < request.len()
            );
            Ok(None)
        }
    }
}

/// Only the number can change, counted by hand: 33 bytes before it have to stay, and of its own bytes the first two;
/// with the third it is 69 or 325, and with the last one from 0 to 69 or from 70 to 255.
#[test]
fn replaced_bytes_of_a_request(rt: HostRuntime) -> Result<(), Fail> {
    let mut low = 0u32;
    let mut high = 0u32;
    for at in 0..37usize {
        for byte in 0..=255u8 {
            match number_of(&rt, &replaced(rt.alloc(), REQUEST, at, byte)?)? {
                Some(6) => low = low.saturating_add(1),
                Some(7) => high = high.saturating_add(1),
                Some(_) => return Err(Fail::new("other cells")),
                None => {}
            }
        }
    }
    assert!(rt; low == 33 + 2 + 1 + 70 && high == 1 + 186);
    Ok(())
}
