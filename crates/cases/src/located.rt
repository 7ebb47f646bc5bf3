//! Inputs of the program `locate`.
use crate::sheets::{add_field, sheet};
use location::Failure;
use location::finding::locate;
use std::alloc::Global;
use std::test::Fail;

const WORDS: &str = "10:role 11:home 11:fitter 10:out 12:#-200#70#350";

/// The fields of an input are divided by `|`, each its tag in hexadecimal, `=` and its sheet.
pub(crate) fn input(heap: Global, text: &str) -> Result<Vec<u8>, Fail> {
    let mut bytes = Vec::new(heap);
    if text.is_empty() {
        return Ok(bytes);
    }
    for field in text.split('|') {
        let (tag, words) = field.split_once(' ').ok_or("no tag")?;
        let words = if words == "words" { WORDS } else { words };
        add_field(
            &mut bytes,
            u8::from_str_radix(tag, 16)?,
            &sheet(heap, words)?,
        )?;
    }
    Ok(bytes)
}

/// What the program would print.
fn printed(heap: Global, bytes: &[u8]) -> Result<String, Fail> {
    let mut text = String::new(heap);
    match locate(heap, bytes) {
        Ok(locations) => {
            for location in locations.iter() {
                text.push_str(format!(in heap; "{location};")?.as_str())?;
            }
        }
        Err(Failure::Refused(refusal)) => text.push_str(format!(in heap; "{refusal}")?.as_str())?,
        Err(Failure::OutOfMemory) => return Err(Fail::new("out of memory")),
    }
    Ok(text)
}

#[test]
fn inputs(rt: HostRuntime) -> Result<(), Fail> {
    for (text, expected) in [
        ("", "refused 10 0:"),
        ("1 words", ""),
        ("4 words", "refused 11 0:"),
        ("2 words", "refused 11 0:"),
        ("1 words|1 words", "refused 11 47:"),
        ("1 words|2 31:role=home", "refused 11 47:"),
        ("1 10:role", "refused 10 7:"),
        ("1 10:role 11:home 11:home", "refused 22 14:"),
        ("1 words|4 31:role=home 32:out=#69", "grid 0 cells 0 0;"),
        (
            "1 words|4 32:out=#70 31:role=fitter|4 32:out=#-200 31:role=fitter",
            "grid 3 cells 1 1;grid 2 cells 1 0;",
        ),
        (
            "1 words|4 32:out=#70 31:role=fitter|4 32:out=#350 31:role=fitter",
            "refused 24 0:",
        ),
        ("1 words|4 31:role=home|9 10:x", "refused 26 12:"),
        ("1 words|4 31:role=home 32:out=#0|9 10:x", "refused 11 73:"),
    ] {
        let answer = printed(rt.alloc(), &input(rt.alloc(), text)?)?;
        assert!(rt; answer.as_str().starts_with(expected), "{}", text);
        assert_eq!(rt; answer.is_empty(), expected.is_empty(), "{}", text);
    }
    Ok(())
}

/// A field of the input that is cut short is refused at its own byte, whatever was read before it.
#[test]
fn truncated_inputs(rt: HostRuntime) -> Result<(), Fail> {
    let whole = input(rt.alloc(), "1 words|4 31:role=home 32:out=#0")?;
    for len in 0..whole.len() {
        let answer = printed(rt.alloc(), &whole[0..len])?;
        let expected = match len {
            0..47 => "refused 10 0:",
            47 => "",
            _ => "refused 10 47:",
        };
        assert!(rt; answer.as_str().starts_with(expected), "{len} bytes");
        assert_eq!(rt; answer.is_empty(), expected.is_empty(), "{len} bytes");
    }
    Ok(())
}
