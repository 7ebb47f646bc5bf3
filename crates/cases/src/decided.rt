//! Inputs of the program `decide`.
use crate::located::input;
use decision::deciding::decide;
use location::Failure;
use std::alloc::Global;
use std::test::Fail;

/// The lines that the program would print, each closed by `;`, or number and place of the refusal.
fn printed(heap: Global, bytes: &[u8]) -> Result<String, Fail> {
    let mut text = String::new(heap);
    match decide(heap, bytes) {
        Ok(report) => {
            for line in report.lines.iter() {
                text.push_str(format!(in heap; "{line};")?.as_str())?;
            }
            for difference in report.differences.iter() {
                text.push_str(format!(in heap; "{difference};")?.as_str())?;
            }
        }
        Err(Failure::Refused(refusal)) => {
            let number = refusal.number();
            let place = refusal.place;
            text.push_str(format!(in heap; "{number} at {place}")?.as_str())?;
        }
        Err(Failure::OutOfMemory) => return Err(Fail::new("out of memory")),
    }
    Ok(text)
}

/// Inputs with their answers: sheets that permit fitters, deny below 70 and say nothing, and inputs that are refused.
const INPUTS: &str = "1 words ->
1 words|2 1F:\x01 ->
1 words|4 31:role=home 32:out=#69 -> ;
1 words|2 1F:\x01 20:\x01 21:role=fitter|4 31:role=fitter 32:out=#70|4 31:role=home 32:out=#70 -> permit;silence;
1 words|4 31:role=fitter 32:out=#0|2 1F:\x01 20:\x01 21:role=fitter|4 31:role=fitter 32:out=#0|2 1F:\x01 20:\x02 22:out=#-200#70|4 31:role=fitter 32:out=#0 -> ;permit;permit deny;differ 00 01 3;
1 words|2 1F:\x01 20:\x02 22:out=#-200#70|2 1F:\x01 20:\x02 22:out=#-200#70 -> differ 00 01 0;
1 words|2 1F:\x01 20:\x01 21:role=fitter|2 1F:\x01 20:\x02 22:out=#-200#70|2 1F:\x01 -> differ 00 01 3;differ 00 02 2;differ 01 02 2;
 -> 10 at 0
2 1F:\x01 -> 11 at 0
4 31:role=home -> 11 at 0
1 10:role -> 10 at 7
1 words|1 words -> 11 at 47
1 words|3 30:0 -> 11 at 47
1 words|2 1F:\x01|9 10:x -> 11 at 54
1 words|2  -> 10 at 0
1 words|2 20:\x01 -> 11 at 0
1 words|2 1F:\x05|9 10:x -> 13 at 0
1 words|2 1F:\x01 20:\x03 -> 13 at 4
1 words|2 1F:\x01 20:\x01 21:act=write -> 23 at 8
1 words|2 1F:\x01 20:\x01 22:out=#70#70 -> 24 at 8
1 words|2 1F:\x01|4 31:role=home -> 26 at 12
1 words|4 31:role=home 32:out=#0|2 1F:\x01|4 32:out=#350 -> 24 at 0";

#[test]
fn inputs(rt: HostRuntime) -> Result<(), Fail> {
    for row in INPUTS.lines() {
        let (text, expected) = row.split_once(" ->").ok_or("no answer")?;
        let answer = printed(rt.alloc(), &input(rt.alloc(), text)?)?;
        assert_eq!(rt; answer.as_str(), expected.trim(), "{}", text);
    }
    Ok(())
}

/// A field that is cut short is refused at its own byte, and what came before it is not printed.
#[test]
fn truncated_inputs(rt: HostRuntime) -> Result<(), Fail> {
    let whole = input(
        rt.alloc(),
        "1 words|2 1F:\x01 20:\x01 21:role=home|4 31:role=home 32:out=#0",
    )?;
    for len in 0..whole.len() {
        let expected = match len {
            0..47 => "10 at 0",
            47 | 70 => "",
            48..70 => "10 at 47",
            _ => "10 at 70",
        };
        assert_eq!(rt;
            printed(rt.alloc(), &whole[0..len])?.as_str(),
            expected,
            "{len} bytes"
        );
    }
    assert_eq!(rt; printed(rt.alloc(), &whole)?.as_str(), "permit;");
    Ok(())
}

/// The numbers of the sheets have two digits, and rise.
#[test]
fn eleven_sheets(rt: HostRuntime) -> Result<(), Fail> {
    let mut text = String::from_str(rt.alloc(), "1 words")?;
    for _ in 0..11 {
        text.push_str("|2 1F:\x01")?;
    }
    let answer = printed(rt.alloc(), &input(rt.alloc(), text.as_str())?)?;
    assert_eq!(rt; answer.len(), 55 * 15);
    assert!(rt;
        answer
            .as_str()
            .starts_with("differ 00 01 0;differ 00 02 0;")
    );
    assert!(rt; answer.as_str().ends_with("differ 08 10 0;differ 09 10 0;"));
    Ok(())
}
