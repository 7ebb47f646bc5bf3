//! Vocabularies and requests, with the answers that the rules lay down.
use crate::sheets::{EXAMPLE, check_row};
use std::alloc::Global;
use std::ops::RangeInclusive;
use std::process::Abort;
use std::test::Fail;

/// Each field at fault is refused by the first check that fails, at its tag.
const VOCABULARIES: &str = " -> 10 at 0
10:role -> 10 at 7
13: ^1 -> 10 at 0
13:x ^3 -> 10 at 0
10:role 13: ^9 -> 10 at 7
10:role 11:Home ^13 -> 10 at 7
10:role 11:home 10:act -> 10 at 20
11:home -> 11 at 0
12:#0#1 -> 11 at 0
31:role=home -> 11 at 0
10:role 10:act -> 11 at 7
10:role 10:role 11:home 11:home -> 11 at 7
10:role 11:home 12:#0#1 -> 11 at 14
10:out 12:#0#1 11:home -> 11 at 17
10:out 12:#0#1 12:#2#3 -> 11 at 17
10:role 11:home 13: 10: -> 11 at 14
10: -> 12 at 0
10:a-name-of-sixteen 11:home -> 12 at 0
10:sixteen-letters- 11:home -> [1]
10:A_NAME_OF_SIXTEEN -> 12 at 0
10:xxxxxxxxxxxxxxxxxxxxxxxxxxxxxxxxxxxxxxxxxxxxxxxxxxxxxxxxxxxxxxxxxxxxxxxxxxxxxxxxxxxxxxxxxxxxxxxxxxxxxxxxxxxxxxxxxxxxxxxxxxxxxxxxxxxxxxxxxxxxxxxxxxxxxxxxxxxxxxxxxxxxxxxxxxxxxxxxxxxxxxxxxxxxxxxxxxxxxxxxxxxxxxxxxxxxxxxxxxxxxxxxxxxxxxxxxxxxxxxxxxxxxxxxxxxxxxxxxxxx -> 12 at 0
10:role 11: -> 12 at 7
10:role 11:sixteen-letters- -> [1]
10:role 11:seventeen-letters -> 12 at 7
10:role 11:xxxxxxxxxxxxxxxxxxxxxxxxxxxxxxxxxxxxxxxxxxxxxxxxxxxxxxxxxxxxxxxxxxxxxxxxxxxxxxxxxxxxxxxxxxxxxxxxxxxxxxxxxxxxxxxxxxxxxxxxxxxxxxxxxxxxxxxxxxxxxxxxxxxxxxxxxxxxxxxxxxxxxxxxxxxxxxxxxxxxxxxxxxxxxxxxxxxxxxxxxxxxxxxxxxxxxxxxxxxxxxxxxxxxxxxxxxxxxxxxxxxxxxxxxxxxxxxxxxxx -> 12 at 7
10:out 12: -> 12 at 6
10:out 12:#0 -> 12 at 6
10:out 12:abc#0 -> 12 at 6
10:out 12:#0#1 -> [1]
10:out 12:a#2#1 -> 12 at 6
10:out 12:#0#1#2#3#4#5#6#7#8#9#10#11#12#13#14#15#16 -> [16]
10:out 12:a#0#1#2#3#4#5#6#7#8#9#10#11#12#13#14#15#16 -> 12 at 6
10:out 12:#0#1#2#3#4#5#6#7#8#9#10#11#12#13#14#15#16#17 -> 12 at 6
10:Role -> 13 at 0
10:ro_le -> 13 at 0
10:role 11:home 11:home= -> 13 at 14
10:role 11:home 10:ROLE 10:role -> 13 at 14
10:out 12:#1#1 -> 13 at 6
10:out 12:#2#1 -> 13 at 6
10:out 12:#1#2#2 -> 13 at 6
10:out 12:#1#3#2#4 -> 13 at 6
10:out 12:#-1#0 -> [1]
10:out 12:#0#-1 -> 13 at 6
10:out 12:#-2#-1 -> [1]
10:out 12:#-1#-2 -> 13 at 6
10:out 12:#255#256 -> [1]
10:out 12:#65536#65535 -> 13 at 6
10:out 12:#-2147483648#2147483647 -> [1]
10:out 12:#2147483647#-2147483648 -> 13 at 6
10:role 11:home 10:role -> 22 at 14
10:role 11:home 10:act 11:read 10:role -> 22 at 27
10:out 12:#0#1 10:out -> 22 at 17
10:role 11:home 11:home -> 22 at 14
10:role 11:a 11:b 11:c 11:b -> 22 at 19
10:role 11:home 10:role 10: -> 22 at 14
10:role 11:role -> [1]
10:role 11:act 10:act 11:role 11:act -> [1, 2]
10:a 11:x 10:b 11:x 11:xx 10:ab 11:x -> [1, 2, 1]
10:- 11:- 11:-- 10:-- 12:#0#1 -> [2, 1]
10:7 11:0 11:007 11:70 11:0-7 -> [4]
1 1 1 1 1 1 1 1 -> [1, 1, 1, 1, 1, 1, 1, 1]
1 1 1 1 1 1 1 1 10:i -> 20 at 64
1 1 1 1 1 1 1 1 10:a -> 20 at 64
1 1 1 1 1 1 1 1 10:I -> 13 at 64
1 1 1 1 1 1 1 1 10: -> 12 at 64
1 1 1 1 1 1 1 10:h 12:#0#1 10:i -> 20 at 71
16 -> [16]
17 -> 20 at 68
16 11:a -> 20 at 68
16 11:A -> 13 at 68
16 11: -> 12 at 68
16 2 11:c 11:d -> [16, 4]
16 16 16 -> [16, 16, 16]
16 16 10:c 12:#0#1#2#3#4#5#6#7#8#9#10#11#12#13#14#15#16 -> [16, 16, 16]
16 16 16 1 1 10:x 12:#0#1 -> [16, 16, 16, 1, 1, 1]
16 16 16 2 -> 21 at 212
16 16 16 1 2 -> 21 at 220
16 16 16 10:more 11:a 11:b -> 21 at 215
16 16 16 10:more 11:a 11:a -> 22 at 215
16 16 16 10:more 11:a 11:A -> 13 at 215
16 16 16 10:more 12:#0#1#2 -> 21 at 211
5 7 13 9 -> [5, 7, 13, 9]
5 7 13 10 -> 21 at 152
5 7 13 10:d 12:#0#1#2#3#4#5#6#7#8#9 -> [5, 7, 13, 9]
5 7 13 10:d 12:#0#1#2#3#4#5#6#7#8#9#10 -> 21 at 116
7 7 7 11 -> [7, 7, 7, 11]
7 7 7 12 -> 21 at 144
7 7 7 10:d 12:#0#1#2#3#4#5#6#7#8#9#10#11 -> [7, 7, 7, 11]
7 7 7 10:d 12:#0#1#2#3#4#5#6#7#8#9#10#11#12 -> 21 at 100
2 2 2 2 2 2 2 16 -> [2, 2, 2, 2, 2, 2, 2, 16]
4 4 4 4 4 4 -> [4, 4, 4, 4, 4, 4]
4 4 4 4 4 4 2 -> 21 at 128";

/// Requests on the example vocabulary, if no other stands before them.
const REQUESTS: &str = "|31:role=fitter 31:act=write 32:out=#69 -> [1, 1, 0]
|31:role=fitter 32:out=#69 31:act=write -> [1, 1, 0]
|31:act=write 31:role=fitter 32:out=#69 -> [1, 1, 0]
|31:act=write 32:out=#69 31:role=fitter -> [1, 1, 0]
|32:out=#69 31:role=fitter 31:act=write -> [1, 1, 0]
|32:out=#69 31:act=write 31:role=fitter -> [1, 1, 0]
|32:out=#70 31:act=write 31:role=home -> [0, 1, 1]
|31:role=home 31:act=read 32:out=#-200 -> [0, 0, 0]
|31:role=home 31:act=read 32:out=#-201 -> 24 at 23
|31:role=fitter 31:act=read 32:out=#349 -> [1, 0, 1]
|31:role=fitter 31:act=read 32:out=#350 -> 24 at 25
|31:role=fitter 31:act=read 32:out=#61 -> [1, 0, 0]
| -> 26 at 0
|31:role=home -> 26 at 12
|31:role=home 31:act=read -> 26 at 23
|31:act=read 32:out=#0 -> 26 at 22
|21:role=home ^11 -> 10 at 0
|31:role=home 13: ^14 -> 10 at 12
|31:role=Home ^11 -> 10 at 0
|21:role=home -> 11 at 0
|10:role -> 11 at 0
|31:role=home 22:out=#0#1 -> 11 at 12
|31: -> 12 at 0
|31:a= -> 12 at 0
|31:a=b -> 23 at 0
|31:sixteen-letters-=sixteen-letters- -> 23 at 0
|31:sixteen-letters-=seventeen-letters -> 12 at 0
|31:seventeen-letters=a -> 13 at 0
|31:a=seventeen-letters -> 13 at 0
|31:xxxxxxxxxxxxxxxxxxxxxxxxxxxxxxxxxxxxxxxxxxxxxxxxxxxxxxxxxxxxxxxxxxxxxxxxxxxxxxxxxxxxxxxxxxxxxxxxxxxxxxxxxxxxxxxxxxxxxxxxxxxxxxxxxxxxxxxxxxxxxxxxxxxxxxxxxxxxxxxxxxxxxxxxxxxxxxxxxxxxxxxxxxxxxxxxxxxxxxxxxxxxxxxxxxxxxxxxxxxxxxxxxxxxxxxxxxxxxxxxxxxxxxxxxxxxxxxxxxxx -> 12 at 0
|32: -> 12 at 0
|32:a=abc -> 12 at 0
|32:a=#0 -> 23 at 0
|32:sixteen-letters-=#0 -> 23 at 0
|32:seventeen-letters=#0 -> 12 at 0
|32:seventeen-letters=abc -> 13 at 0
|31:role -> 13 at 0
|31:=home -> 13 at 0
|31:role= -> 13 at 0
|31:role=home= -> 13 at 0
|31:role==home -> 13 at 0
|31:Role=home -> 13 at 0
|31:role=Home -> 13 at 0
|31:nobody=Home -> 13 at 0
|32:=abcde -> 13 at 0
|32:outabcd -> 13 at 0
|32:out=abc -> 13 at 0
|32:out=abcde -> 13 at 0
|32:o=t=#0 -> 13 at 0
|32:Out=#0 -> 13 at 0
|31:role=home 31:rol=home -> 23 at 12
|31:roles=home -> 23 at 0
|31:home=role -> 23 at 0
|32:in=#0 -> 23 at 0
|31:role=guest -> 24 at 0
|31:role=read -> 24 at 0
|31:role=hom -> 24 at 0
|31:role=homes -> 24 at 0
|31:out=home -> 24 at 0
|32:role=#0 -> 24 at 0
|32:role=home -> 24 at 0
|31:role=home 31:role=home -> 25 at 12
|31:role=home 31:role=fitter -> 25 at 12
|32:out=#0 31:act=read 32:out=#0 -> 25 at 22
|31:role=home 31:act=read 32:out=#0 31:act=read -> 25 at 34
|31:role=home 31:role=guest -> 24 at 12
|31:role=home 32:role=#0 -> 24 at 12
|32:out=#0 32:out=#350 -> 24 at 11
|31:role=home 31:role=home 13: -> 25 at 12
10:n 12:#-2147483648#1027423549#1027423550#2147483647|32:n=#-2147483648 -> [0]
10:n 12:#-2147483648#1027423549#1027423550#2147483647|32:n=#1027423548 -> [0]
10:n 12:#-2147483648#1027423549#1027423550#2147483647|32:n=#1027423549 -> [1]
10:n 12:#-2147483648#1027423549#1027423550#2147483647|32:n=#1027423550 -> [2]
10:n 12:#-2147483648#1027423549#1027423550#2147483647|32:n=#2147483646 -> [2]
10:n 12:#-2147483648#1027423549#1027423550#2147483647|32:n=#2147483647 -> 24 at 0
10:n 12:#-2147483647#2147483646|32:n=#-2147483648 -> 24 at 0
10:n 12:#-2147483647#2147483646|32:n=#-2147483647 -> [0]
10:n 12:#0#1#2#3#4#5#6#7#8#9#10#11#12#13#14#15#16 16|31:c=p 32:n=#15 -> [15, 15]
10:n 12:#0#1#2#3#4#5#6#7#8#9#10#11#12#13#14#15#16 16|31:c=p 32:n=#16 -> 24 at 6
16|31:a=q -> 24 at 0
2 2 2 2 2 2 2 10:n 12:#0#1#2|32:n=#1 31:g=a 31:f=b 31:e=a 31:d=b 31:c=a 31:b=a 31:a=b -> [1, 0, 0, 1, 0, 1, 0, 1]
2 2 2 2 2 2 2 10:n 12:#0#1#2|32:n=#1 31:g=a 31:f=b 31:e=a 31:d=b 31:c=a 31:b=a -> 26 at 45";

#[test]
fn vocabularies_and_requests(rt: HostRuntime) -> Result<(), Fail> {
    for row in VOCABULARIES.lines().chain(REQUESTS.lines()) {
        check_row(&rt, rt.alloc(), row)?;
    }
    Ok(())
}

/// Each of the 256 tags in a field without content: unless it may stand at its place, the tag is refused, and else the length.
fn check_tags(
    rt: &impl Abort,
    heap: Global,
    before: &str,
    place: usize,
    may_stand: RangeInclusive<u8>,
) -> Result<(), Fail> {
    for tag in 0..=255u8 {
        let number = if may_stand.contains(&tag) { 12 } else { 11 };
        check_row(
            rt,
            heap,
            &format!(in heap; "{before} {tag:x}: -> {number} at {place}")?,
        )?;
    }
    Ok(())
}

/// Tags behind every tag of vocabularies and requests, and at the start.
#[test]
fn tags(rt: HostRuntime) -> Result<(), Fail> {
    for (before, place, may_stand) in [
        ("", 0, 0x10..=0x10),
        ("10:a", 4, 0x11..=0x12),
        ("1", 8, 0x10..=0x11),
        ("10:a 12:#0#1", 15, 0x10..=0x10),
        ("|", 0, 0x31..=0x32),
    ] {
        check_tags(&rt, rt.alloc(), before, place, may_stand)?;
    }
    Ok(())
}

/// The same for policy sheets.
#[test]
fn policy_sheet_tags(rt: HostRuntime) -> Result<(), Fail> {
    for (before, place, may_stand) in [
        ("|3|", 0, 0x1F..=0x1F),
        ("|3|1F=1", 4, 0x20..=0x20),
        ("|3|1F=1 20=1", 8, 0x20..=0x22),
        ("|3|1F=1 20=1 21:role=home", 20, 0x20..=0x22),
        ("|3|1F=1 20=1 22:out=#70#350", 23, 0x20..=0x22),
    ] {
        check_tags(&rt, rt.alloc(), before, place, may_stand)?;
    }
    Ok(())
}

/// A text is cut off after every byte: a line tells up to which length, that one left out, the answer is the one behind it.
pub(crate) fn check_lengths(
    rt: &impl Abort,
    heap: Global,
    text: &str,
    answers: &str,
) -> Result<(), Fail> {
    let mut from = 0usize;
    for line in answers.lines() {
        let (end, answer) = line.split_once(": ").ok_or("no answer")?;
        let end = end.parse::<usize>()?;
        for len in from..end {
            check_row(rt, heap, &format!(in heap; "{text} ^{len} -> {answer}")?)?;
        }
        from = end;
    }
    Ok(())
}

/// The worked example: inside a field it is 10 at the field's tag, between two fields what may stand last decides.
const CUT_VOCABULARIES: &str = "7: 10 at 0
14: 10 at 7
15: [1]
23: 10 at 14
24: [2]
29: 10 at 23
36: 10 at 29
37: [2, 1]
44: 10 at 36
45: [2, 2]
50: 10 at 44
65: 10 at 50
66: [2, 2, 2]";

/// A request on it: between two fields an attribute is missing.
const CUT_REQUESTS: &str = "1: 26 at 0
14: 10 at 0
15: 26 at 14
26: 10 at 14
27: 26 at 26
37: 10 at 26
38: [1, 1, 0]";

#[test]
fn truncated_sheets(rt: HostRuntime) -> Result<(), Fail> {
    check_lengths(&rt, rt.alloc(), EXAMPLE, CUT_VOCABULARIES)?;
    check_lengths(
        &rt,
        rt.alloc(),
        "|31:role=fitter 31:act=write 32:out=#69",
        CUT_REQUESTS,
    )
}
