//! Sheets that are written as text, and what readers answer to them.
//!
//! A word of a sheet is one field: its tag in hexadecimal, a colon and its content, in which `#n` is
//! the number n in four bytes; or its tag, `=` and a number, if its content is this one byte. The word
//! `^n` cuts off what stands behind the first n bytes. A number alone is a whole attribute with so many
//! values, called a, b, c and so on; the attribute itself is called a if it is the first word of the
//! sheet, b if it is the second, and so on.
use crate::policies::check_policy;
use algebra::permit_deny::PermitDeny;
use algebra::stages::Stages;
use refusal::Refusal;
use request::reading::read_request;
use std::alloc::{AllocError, Global};
use std::process::Abort;
use std::test::Fail;
use vocabulary::record::Vocabulary;

/// The vocabulary of the worked example.
pub const EXAMPLE: &str =
    "10:role 11:home 11:fitter 10:act 11:read 11:write 10:out 12:#-200#70#350";

fn content(heap: Global, text: &str) -> Result<Vec<u8>, Fail> {
    let mut bytes = Vec::new(heap);
    let mut parts = text.split('#');
    if let Some(words) = parts.next() {
        bytes.extend_from_slice(words.as_bytes())?;
    }
    for number in parts {
        bytes.extend_from_slice(&number.parse::<i32>()?.to_be_bytes())?;
    }
    Ok(bytes)
}

pub(crate) fn add_field(sheet: &mut Vec<u8>, tag: u8, content: &[u8]) -> Result<(), AllocError> {
    let length = (content.len() % 65536) as u16;
    sheet.push(tag)?;
    sheet.extend_from_slice(&length.to_be_bytes())?;
    sheet.extend_from_slice(content)
}

fn add_attribute(sheet: &mut Vec<u8>, name: u8, values: u8) -> Result<(), AllocError> {
    add_field(sheet, 0x10, &[name])?;
    for value in 0..values {
        add_field(sheet, 0x11, &[value.saturating_add(b'a')])?;
    }
    Ok(())
}

/// The sheet that a text writes.
pub(crate) fn sheet(heap: Global, text: &str) -> Result<Vec<u8>, Fail> {
    let mut bytes = Vec::new(heap);
    let mut name = b'a';
    for word in text.split_ascii_whitespace() {
        if let Some((tag, text)) = word.split_once(':') {
            add_field(
                &mut bytes,
                u8::from_str_radix(tag, 16)?,
                &content(heap, text)?,
            )?;
        } else if let Some((tag, byte)) = word.split_once('=') {
            add_field(
                &mut bytes,
                u8::from_str_radix(tag, 16)?,
                &[byte.parse::<u8>()?],
            )?;
        } else if let Some(len) = word.strip_prefix('^') {
            bytes.truncate(len.parse::<usize>()?);
        } else {
            add_attribute(&mut bytes, name, word.parse::<u8>()?)?;
        }
        name = name.saturating_add(1);
    }
    Ok(bytes)
}

fn check_cells(rt: &impl Abort, heap: Global, cells: &[u8], expected: &str) -> Result<(), Fail> {
    assert_eq!(rt; format!(in heap; "{cells:?}")?.as_str(), expected);
    Ok(())
}

/// The number and the place are as expected, and the layer is the number's tens.
pub(crate) fn check_refusal(
    rt: &impl Abort,
    heap: Global,
    refusal: Refusal,
    expected: &str,
) -> Result<(), Fail> {
    let number = refusal.number();
    let place = refusal.place;
    assert_eq!(rt; refusal.layer() as u8, number / 10);
    assert_eq!(rt; format!(in heap; "{number} at {place}")?.as_str(), expected);
    Ok(())
}

/// The vocabulary is read with the expected cell counts, or it is refused as expected and has no attribute.
pub(crate) fn check_vocabulary(
    rt: &impl Abort,
    heap: Global,
    bytes: &[u8],
    expected: &str,
) -> Result<(), Fail> {
    let mut vocabulary = Vocabulary::new(bytes);
    let answer = vocabulary.read();
    let shape = vocabulary.shape();
    match answer {
        Ok(()) => check_cells(rt, heap, shape.counts(), expected),
        Err(refusal) => {
            assert_eq!(rt; shape.len(), 0);
            check_refusal(rt, heap, refusal, expected)
        }
    }
}

/// The request is read as the expected cells, or it is refused as expected.
pub(crate) fn check_request(
    rt: &impl Abort,
    heap: Global,
    words: &[u8],
    request: &[u8],
    expected: &str,
) -> Result<(), Fail> {
    let mut vocabulary = Vocabulary::new(words);
    vocabulary.read()?;
    match read_request(&vocabulary, request) {
        Ok(cells) => check_cells(rt, heap, cells.as_slice(), expected),
        Err(refusal) => check_refusal(rt, heap, refusal, expected),
    }
}

/// A row is a vocabulary, or a vocabulary, `|` and a request, or a vocabulary, the size of an algebra between two `|` and a
/// policy sheet, and then `->` and the answer. Where nothing stands before the first `|`, the vocabulary is the example.
pub(crate) fn check_row(rt: &impl Abort, heap: Global, row: &str) -> Result<(), Fail> {
    let (sheets, expected) = row.split_once(" -> ").ok_or("no answer")?;
    let Some((words, rest)) = sheets.split_once('|') else {
        return check_vocabulary(rt, heap, &sheet(heap, sheets)?, expected);
    };
    let words = if words.is_empty() { EXAMPLE } else { words };
    let words = sheet(heap, words)?;
    match rest.split_once('|') {
        None => check_request(rt, heap, &words, &sheet(heap, rest)?, expected),
        Some(("3", rules)) => {
            check_policy(
                rt,
                heap,
                &PermitDeny,
                &words,
                &sheet(heap, rules)?,
                expected,
            )
        }
        Some((_, rules)) => check_policy(rt, heap, &Stages, &words, &sheet(heap, rules)?, expected),
    }
}
