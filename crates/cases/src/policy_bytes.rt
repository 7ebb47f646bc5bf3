//! Policy sheets that are cut off, whose bytes are replaced, and the longest ones.
use crate::bytes::replaced;
use crate::policies::check_policy;
use crate::rows::check_lengths;
use crate::sheets::{EXAMPLE, add_field, sheet};
use algebra::permit_deny::PermitDeny;
use std::alloc::Global;
use std::process::Abort;
use std::test::Fail;

/// Inside a field it is 10 at the field's tag, and between two fields what was read so far decides.
const CUT_SHEETS: &str = "4: 10 at 0
5: 00000000
8: 10 at 4
9: 11111111
20: 10 at 8
21: 11110000
35: 10 at 20
36: 01010000
39: 10 at 35
40: 21212222
51: 10 at 39
52: 01210022";

#[test]
fn truncated_policy_sheets(rt: HostRuntime) -> Result<(), Fail> {
    check_lengths(
        &rt,
        rt.alloc(),
        "|3|1F=2 20=1 21:role=home 22:out=#70#350 20=2 21:act=write",
        CUT_SHEETS,
    )
}

/// A line for each byte of the sheet: up to which value, that one included, the answer is the one behind it.
const REPLACED: &str = "30: 11 at 0, 31: 11112020, 255: 11 at 0
0: 11112020, 255: 10 at 0
0: 12 at 0, 1: 11112020, 28: 12 at 0, 255: 10 at 0
0: 13 at 0, 2: 11112020, 3: 01012020, 4: 21212020, 255: 13 at 0
31: 11 at 4, 32: 11112020, 255: 11 at 4
0: 11112020, 255: 10 at 4
0: 12 at 4, 1: 11112020, 24: 12 at 4, 255: 10 at 4
0: 13 at 4, 1: 11112020, 2: 22222020, 255: 13 at 4
31: 11 at 8, 32: 12 at 8, 33: 11112020, 34: 12 at 8, 255: 11 at 8
0: 11112020, 255: 10 at 8
2: 12 at 8, 3: 11112020, 20: 13 at 8, 255: 10 at 8
44: 13 at 8, 45: 23 at 8, 47: 13 at 8, 57: 23 at 8, 96: 13 at 8, 97: 11112020, 98: 11201120, 109: 23 at 8, 110: 24 at 8, 122: 23 at 8, 255: 13 at 8
60: 13 at 8, 61: 11112020, 255: 13 at 8
44: 13 at 8, 45: 24 at 8, 47: 13 at 8, 57: 24 at 8, 96: 13 at 8, 97: 11112020, 98: 20201111, 122: 24 at 8, 255: 13 at 8
31: 11 at 14, 32: 11112020, 34: 12 at 14, 255: 11 at 14
0: 11112020, 255: 10 at 14
0: 12 at 14, 1: 11112020, 14: 12 at 14, 255: 10 at 14
0: 13 at 14, 1: 11111010, 2: 11112020, 255: 13 at 14
31: 11 at 18, 32: 12 at 18, 33: 13 at 18, 34: 11112020, 255: 11 at 18
0: 11112020, 255: 10 at 18
9: 12 at 18, 10: 11112020, 255: 10 at 18
44: 13 at 18, 45: 23 at 18, 47: 13 at 18, 57: 23 at 18, 96: 13 at 18, 98: 24 at 18, 109: 23 at 18, 110: 11112020, 122: 23 at 18, 255: 13 at 18
60: 13 at 18, 61: 11112020, 255: 13 at 18
0: 11112020, 255: 24 at 18
0: 11112020, 255: 24 at 18
0: 11112020, 255: 24 at 18
0: 11112020, 255: 24 at 18
0: 11112020, 255: 24 at 18
0: 11112020, 255: 24 at 18
0: 11112020, 1: 11112222, 255: 24 at 18
0: 24 at 18, 1: 11112020, 255: 24 at 18";

/// A byte is replaced by every value.
fn check_replaced(
    rt: &impl Abort,
    heap: Global,
    words: &[u8],
    bytes: &[u8],
    at: usize,
    answers: &str,
) -> Result<(), Fail> {
    let mut low = 0u8;
    for values in answers.split(", ") {
        let (high, answer) = values.split_once(": ").ok_or("no answer")?;
        let high = high.parse::<u8>()?;
        for byte in low..=high {
            let other = replaced(heap, bytes, at, byte)?;
            check_policy(rt, heap, &PermitDeny, words, &other, answer)?;
        }
        low = high.wrapping_add(1);
    }
    assert_eq!(rt; low, 0);
    Ok(())
}

#[test]
fn replaced_bytes_of_a_policy_sheet(rt: HostRuntime) -> Result<(), Fail> {
    let words = sheet(rt.alloc(), "2 2 10:n 12:#0#1#257")?;
    let bytes = sheet(rt.alloc(), "1F=1 20=1 21:a=a 20=2 22:n=#0#1")?;
    for (at, answers) in REPLACED.lines().enumerate() {
        check_replaced(&rt, rt.alloc(), &words, &bytes, at, answers)?;
    }
    assert_eq!(rt; REPLACED.lines().count(), bytes.len());
    Ok(())
}

/// Rules without conditions, and a last one with a condition: with 8 bytes of content the sheet has 65,535 bytes, and with 9 it
/// is too long.
#[test]
fn longest_policy_sheets(rt: HostRuntime) -> Result<(), Fail> {
    let words = sheet(rt.alloc(), EXAMPLE)?;
    let mut rules = sheet(rt.alloc(), "1F=2")?;
    for _ in 0..16379u16 {
        add_field(&mut rules, 0x20, &[2])?;
    }
    add_field(&mut rules, 0x20, &[1])?;
    for (condition, expected) in [("act=read", "11221122"), ("act=write", "14 at 0")] {
        let mut bytes = Vec::from_slice(rt.alloc(), &rules)?;
        add_field(&mut bytes, 0x21, condition.as_bytes())?;
        check_policy(&rt, rt.alloc(), &PermitDeny, &words, &bytes, expected)?;
    }
    Ok(())
}
