//! Policy sheets, with the pages that they mean or the refusals that the rules lay down.
use crate::sheets::{EXAMPLE, check_refusal, check_row, sheet};
use algebra::Algebra;
use algebra::permit_deny::PermitDeny;
use policy::counting::count_decisions;
use policy::policy_sheet::PolicySheet;
use policy::source::Source;
use policy::walking;
use std::alloc::{AllocError, Global};
use std::process::Abort;
use std::test::Fail;
use vocabulary::record::Vocabulary;

/// The codes that are written as digits; `/` is the code 255.
pub(crate) fn codes(heap: Global, digits: &str) -> Result<Vec<u8>, AllocError> {
    digits
        .bytes()
        .map(|digit| digit.wrapping_sub(b'0'))
        .collect(heap)
}

fn how_many(page: &[u8], code: usize) -> usize {
    page.iter().filter(|other| **other as usize == code).count()
}

/// A source decides a page: each code at its grid number, and 0 beyond the grid. The counts are those of the page.
pub(crate) fn check_source<S: Source>(
    rt: &impl Abort,
    source: &mut S,
    page: &[u8],
) -> Result<(), Fail> {
    assert_eq!(rt; source.shape().size(), page.len());
    for (number, code) in page.iter().enumerate() {
        assert_eq!(rt; source.consult(number), *code, "at {number}");
    }
    for number in [page.len(), page.len().saturating_add(1), usize::MAX] {
        assert_eq!(rt; source.consult(number), 0, "at {number}");
    }
    for (code, count) in count_decisions(source).iter().enumerate() {
        assert_eq!(rt; *count, how_many(page, code), "of {code}");
    }
    Ok(())
}

/// The sheet decides the page.
pub(crate) fn check_decided<'a, A: Algebra>(
    rt: &impl Abort,
    algebra: &A,
    vocabulary: &'a Vocabulary<'a>,
    bytes: &'a [u8],
    page: &[u8],
) -> Result<(), Fail> {
    for (number, code) in page.iter().enumerate() {
        let decision = walking::decide_number(algebra, vocabulary, bytes, number);
        assert_eq!(rt; decision, *code, "at {number}");
    }
    let mut source = PolicySheet::new(algebra, vocabulary, bytes);
    assert_eq!(rt; source.size(), algebra.size());
    check_source(rt, &mut source, page)
}

/// The sheet is read and means the expected page, a digit for each code, or it is refused as expected and decides nothing.
pub(crate) fn check_policy<'a, A: Algebra>(
    rt: &impl Abort,
    heap: Global,
    algebra: &A,
    words: &'a [u8],
    bytes: &'a [u8],
    expected: &str,
) -> Result<(), Fail> {
    let mut vocabulary = Vocabulary::new(words);
    vocabulary.read()?;
    let page = match walking::check(algebra, &vocabulary, bytes) {
        Ok(()) => codes(heap, expected)?,
        Err(refusal) => {
            check_refusal(rt, heap, refusal, expected)?;
            vec![in heap; 0u8; vocabulary.shape().size()]?
        }
    };
    check_decided(rt, algebra, &vocabulary, bytes, &page)
}

/// Each field at fault is refused by the first check that fails, at its tag.
const REFUSED: &str = "|3| -> 10 at 0
|3|1F=1 ^1 -> 10 at 0
|3|1F=1 ^2 -> 10 at 0
|3|1F=1 ^3 -> 10 at 0
|3|1F=1 20=1 ^5 -> 10 at 4
|3|1F=1 20=1 21:role=home ^19 -> 10 at 8
|3|1F=1 20=1 13: ^9 -> 10 at 8
|3|1F=1 13:x ^7 -> 10 at 4
|3|13:x ^3 -> 10 at 0
|3|1F=0 ^3 -> 10 at 0
|3|1F=1 20=1 21:role=home 23:role=home ^31 -> 10 at 20
|3|20=1 -> 11 at 0
|3|21:role=home -> 11 at 0
|3|22:out=#-200#70 -> 11 at 0
|3|10:role -> 11 at 0
|3|31:role=home -> 11 at 0
|3|1F=1 1F=1 -> 11 at 4
|3|1F=1 1F: -> 11 at 4
|3|1F=1 20=1 1F=1 -> 11 at 8
|3|1F=1 20=1 21:role=home 1F=2 -> 11 at 20
|3|1F=1 21:role=home -> 11 at 4
|3|1F=1 22:out=#-200#70 -> 11 at 4
|3|1F=1 20=1 31:role=home -> 11 at 8
|3|1F=1 20=1 32:out=#0 -> 11 at 8
|3|1F=1 20=1 11:home -> 11 at 8
|3|1F=1 20=1 21:role=home 10:role -> 11 at 20
|3|1F: -> 12 at 0
|3|1F:ab -> 12 at 0
|3|1F=1 20: -> 12 at 4
|3|1F=1 20:ab -> 12 at 4
|3|1F=1 20=1 20: -> 12 at 8
|3|1F=1 20=1 21: -> 12 at 8
|3|1F=1 20=1 21:a= -> 12 at 8
|3|1F=1 20=1 21:a=b -> 23 at 8
|3|1F=1 20=1 21:sixteen-letters-=sixteen-letters- -> 23 at 8
|3|1F=1 20=1 21:sixteen-letters-=seventeen-letters -> 12 at 8
|3|1F=1 20=1 22: -> 12 at 8
|3|1F=1 20=1 22:=#0#1 -> 12 at 8
|3|1F=1 20=1 22:a=#0#1 -> 23 at 8
|3|1F=1 20=1 22:sixteen-letters-=#0#1 -> 23 at 8
|3|1F=1 20=1 22:seventeen-letters=#0#1 -> 12 at 8
|3|1F=0 -> 13 at 0
|3|1F=5 -> 13 at 0
|3|1F=255 -> 13 at 0
|3|1F=1 20=0 -> 13 at 4
|3|1F=1 20=3 -> 13 at 4
|3|1F=1 20=255 -> 13 at 4
|3|1F=1 20=1 20=0 -> 13 at 8
|7|1F=1 20=0 -> 13 at 4
|7|1F=1 20=7 -> 13 at 4
|7|1F=1 20=6 21:role=home 20=7 -> 13 at 20
|3|1F=1 20=1 21:role -> 13 at 8
|3|1F=1 20=1 21:=home -> 13 at 8
|3|1F=1 20=1 21:role= -> 13 at 8
|3|1F=1 20=1 21:role=home= -> 13 at 8
|3|1F=1 20=1 21:role==home -> 13 at 8
|3|1F=1 20=1 21:Role=home -> 13 at 8
|3|1F=1 20=1 21:role=Home -> 13 at 8
|3|1F=1 20=1 21:seventeen-letters=a -> 13 at 8
|3|1F=1 20=1 21:a=seventeen-letters -> 13 at 8
|3|1F=1 20=1 22:outabcdefgh -> 13 at 8
|3|1F=1 20=1 22:=a#0#1 -> 13 at 8
|3|1F=1 20=1 22:Out=#-200#70 -> 13 at 8
|3|1F=1 20=1 22:out=abc#0 -> 13 at 8
|3|1F=1 20=1 22:out=a#0#1 -> 13 at 8
|3|1F=1 20=1 22:o=t=#0#1 -> 13 at 8
|3|1F=1 20=1 22:seventeen-letters=abcdefg -> 13 at 8
|3|1F=1 20=1 21:nobody=Home -> 13 at 8
|3|1F=1 20=1 22:nobody=#0 -> 13 at 8
|3|1F=1 20=1 21:rol=home -> 23 at 8
|3|1F=1 20=1 21:roles=home -> 23 at 8
|3|1F=1 20=1 21:home=role -> 23 at 8
|3|1F=1 20=1 22:in=#-200#70 -> 23 at 8
|3|1F=1 20=1 21:nobody=nothing -> 23 at 8
|3|1F=1 20=1 22:in=#1#0 -> 23 at 8
|3|1F=1 20=1 21:role=home 21:nobody=home -> 23 at 20
|3|1F=1 20=1 21:role=guest -> 24 at 8
|3|1F=1 20=1 21:role=read -> 24 at 8
|3|1F=1 20=1 21:role=hom -> 24 at 8
|3|1F=1 20=1 21:role=homes -> 24 at 8
|3|1F=1 20=1 21:out=home -> 24 at 8
|3|1F=1 20=1 22:role=#-200#70 -> 24 at 8
|3|1F=1 20=1 22:role=fitter-2 -> 24 at 8
|3|1F=1 20=1 22:out=#-201#70 -> 24 at 8
|3|1F=1 20=1 22:out=#0#70 -> 24 at 8
|3|1F=1 20=1 22:out=#-200#69 -> 24 at 8
|3|1F=1 20=1 22:out=#70#351 -> 24 at 8
|3|1F=1 20=1 22:out=#70#70 -> 24 at 8
|3|1F=1 20=1 22:out=#70#-200 -> 24 at 8
|3|1F=1 20=1 22:out=#350#350 -> 24 at 8
|3|1F=1 20=1 22:out=#350#-200 -> 24 at 8
|3|1F=1 20=1 21:role=guest 21:nobody=home -> 24 at 8
|3|1F=1 20=1 21:role=home 21:role=guest 20=3 -> 24 at 20
|3|1F=1 20=1 21:role=home 20=2 22:out=#70#351 -> 24 at 24";

/// Conditions on one attribute are alternatives, those on different ones hold together, and a rule ends where the next begins.
const READ: &str = "|3|1F=1 -> 00000000
|3|1F=2 -> 00000000
|3|1F=3 -> 00000000
|7|1F=4 -> 00000000
|3|1F=1 20=1 -> 11111111
|3|1F=2 20=2 -> 22222222
|3|1F=3 20=2 -> 22222222
|3|1F=4 20=2 -> 22222222
|7|1F=1 20=6 -> 66666666
|7|1F=4 20=1 -> 11111111
|7|1F=4 20=6 -> 66666666
|3|1F=1 20=2 21:role=home -> 22220000
|3|1F=1 20=2 21:role=fitter -> 00002222
|3|1F=1 20=1 21:act=write -> 00110011
|3|1F=1 20=1 21:role=home 21:role=home -> 11110000
|3|1F=1 20=1 21:role=home 21:role=fitter -> 11111111
|3|1F=1 20=1 21:role=fitter 21:act=write -> 00000011
|3|1F=1 20=1 21:act=write 21:role=fitter -> 00000011
|3|1F=1 20=1 21:role=fitter 21:act=read 21:act=write -> 00001111
|3|1F=1 20=1 21:act=read 21:role=fitter 21:act=write -> 00001111
|3|1F=1 20=1 21:role=home 21:act=write 22:out=#70#350 -> 00010000
|3|1F=1 20=1 22:out=#-200#70 -> 10101010
|3|1F=1 20=1 22:out=#70#350 -> 01010101
|3|1F=1 20=1 22:out=#-200#350 -> 11111111
|3|1F=1 20=1 22:out=#70#350 22:out=#-200#70 -> 11111111
|3|1F=1 20=1 22:out=#70#350 21:role=home 22:out=#70#350 -> 01010000
|3|1F=1 20=1 21:role=home 21:act=write 20=2 21:role=fitter -> 00112222
|3|1F=1 20=1 21:role=home 20=2 -> 11112222
|3|1F=1 20=2 20=1 21:role=home -> 22222222
|3|1F=2 20=2 20=1 21:role=home -> 11112222
|3|1F=3 20=2 20=1 21:role=home -> 00002222
|3|1F=4 20=1 20=2 21:role=home -> 22221111
|7|1F=2 20=6 20=4 21:role=home 20=2 22:out=#-200#70 -> 24242626
|7|1F=4 20=1 20=3 21:role=home 20=5 22:out=#-200#70 -> 53535151
16|3|1F=1 20=1 21:a=p -> 0000000000000001
16|3|1F=1 20=2 21:a=a 20=1 21:a=j 21:a=b -> 2100000001000000
1|3|1F=1 20=1 21:a=a -> 1
1 2 1|3|1F=1 20=1 21:c=a 21:b=b 21:a=a -> 01
2 3|3|1F=1 20=1 21:a=b 21:b=a 21:b=c -> 000101
3 2|3|1F=1 20=1 21:a=b 21:a=c 21:b=b -> 000101
2 2 2 2 1 1 1 1|3|1F=1 20=1 21:h=a 21:d=b 21:a=b 20=2 21:c=a -> 2200220021012101
10:home 11:home 11:role 10:role 11:home|3|1F=1 20=1 21:home=role 21:role=home -> 01
10:sixteen-letters- 11:a 11:sixteen-letters-|3|1F=1 20=1 21:sixteen-letters-=sixteen-letters- -> 01
10:sixteen-letters- 12:#0#1#2|3|1F=1 20=1 22:sixteen-letters-=#1#2 -> 01
10:n 12:#-2147483648#-1#0#255#2147483647|3|1F=1 20=1 22:n=#-2147483648#-1 -> 1000
10:n 12:#-2147483648#-1#0#255#2147483647|3|1F=1 20=1 22:n=#-2147483648#0 -> 1100
10:n 12:#-2147483648#-1#0#255#2147483647|3|1F=1 20=1 22:n=#-2147483648#255 -> 1110
10:n 12:#-2147483648#-1#0#255#2147483647|3|1F=1 20=1 22:n=#-2147483648#2147483647 -> 1111
10:n 12:#-2147483648#-1#0#255#2147483647|3|1F=1 20=1 22:n=#-1#0 -> 0100
10:n 12:#-2147483648#-1#0#255#2147483647|3|1F=1 20=1 22:n=#-1#255 -> 0110
10:n 12:#-2147483648#-1#0#255#2147483647|3|1F=1 20=1 22:n=#-1#2147483647 -> 0111
10:n 12:#-2147483648#-1#0#255#2147483647|3|1F=1 20=1 22:n=#0#255 -> 0010
10:n 12:#-2147483648#-1#0#255#2147483647|3|1F=1 20=1 22:n=#0#2147483647 -> 0011
10:n 12:#-2147483648#-1#0#255#2147483647|3|1F=1 20=1 22:n=#255#2147483647 -> 0001
10:n 12:#-2147483648#-1#0#255#2147483647|3|1F=1 20=1 22:n=#-2147483648#-1 22:n=#255#2147483647 -> 1001
10:n 12:#-2147483648#-1#0#255#2147483647|3|1F=1 20=1 22:n=#0#-1 -> 24 at 8
10:n 12:#-2147483648#-1#0#255#2147483647|3|1F=1 20=1 22:n=#2147483647#2147483647 -> 24 at 8
10:n 12:#0#1027423549#1027423550|3|1F=1 20=1 22:n=#1027423549#1027423550 -> 01
10:n 12:#0#1#2#3#4#5#6#7#8#9#10#11#12#13#14#15#16|3|1F=1 20=1 22:n=#0#1 22:n=#15#16 20=2 22:n=#7#9 -> 1000000220000001";

/// No rule matches value a, one each b and c, and the others are matched by rules one and three, one and four, two and three,
/// two and four, and all but the first: combined in each of the four ways.
const OVERLAPPING: &str =
    "8|3|1F=1 20=1 21:a=b 21:a=d 21:a=e 20=2 21:a=c 21:a=f 21:a=g 21:a=h 20=1 21:a=d 21:a=f 21:a=h 20=2 21:a=e 21:a=g 21:a=h -> 01211222
8|3|1F=2 20=1 21:a=b 21:a=d 21:a=e 20=2 21:a=c 21:a=f 21:a=g 21:a=h 20=1 21:a=d 21:a=f 21:a=h 20=2 21:a=e 21:a=g 21:a=h -> 01211121
8|3|1F=3 20=1 21:a=b 21:a=d 21:a=e 20=2 21:a=c 21:a=f 21:a=g 21:a=h 20=1 21:a=d 21:a=f 21:a=h 20=2 21:a=e 21:a=g 21:a=h -> 01200000
8|3|1F=4 20=1 21:a=b 21:a=d 21:a=e 20=2 21:a=c 21:a=f 21:a=g 21:a=h 20=1 21:a=d 21:a=f 21:a=h 20=2 21:a=e 21:a=g 21:a=h -> 01212222
8|7|1F=1 20=1 21:a=b 21:a=d 21:a=e 20=2 21:a=c 21:a=f 21:a=g 21:a=h 20=1 21:a=d 21:a=f 21:a=h 20=2 21:a=e 21:a=g 21:a=h -> 01211222
8|7|1F=2 20=1 21:a=b 21:a=d 21:a=e 20=2 21:a=c 21:a=f 21:a=g 21:a=h 20=1 21:a=d 21:a=f 21:a=h 20=2 21:a=e 21:a=g 21:a=h -> 01211121
8|7|1F=3 20=1 21:a=b 21:a=d 21:a=e 20=2 21:a=c 21:a=f 21:a=g 21:a=h 20=1 21:a=d 21:a=f 21:a=h 20=2 21:a=e 21:a=g 21:a=h -> 01200000
8|7|1F=4 20=1 21:a=b 21:a=d 21:a=e 20=2 21:a=c 21:a=f 21:a=g 21:a=h 20=1 21:a=d 21:a=f 21:a=h 20=2 21:a=e 21:a=g 21:a=h -> 01212222
8|7|1F=1 20=5 21:a=b 21:a=d 21:a=e 20=3 21:a=c 21:a=f 21:a=g 21:a=h 20=6 21:a=d 21:a=f 21:a=h 20=2 21:a=e 21:a=g 21:a=h -> 05355333
8|7|1F=2 20=5 21:a=b 21:a=d 21:a=e 20=3 21:a=c 21:a=f 21:a=g 21:a=h 20=6 21:a=d 21:a=f 21:a=h 20=2 21:a=e 21:a=g 21:a=h -> 05352322
8|7|1F=3 20=5 21:a=b 21:a=d 21:a=e 20=3 21:a=c 21:a=f 21:a=g 21:a=h 20=6 21:a=d 21:a=f 21:a=h 20=2 21:a=e 21:a=g 21:a=h -> 05300000
8|7|1F=4 20=5 21:a=b 21:a=d 21:a=e 20=3 21:a=c 21:a=f 21:a=g 21:a=h 20=6 21:a=d 21:a=f 21:a=h 20=2 21:a=e 21:a=g 21:a=h -> 05365636";

#[test]
fn policy_sheets(rt: HostRuntime) -> Result<(), Fail> {
    for row in REFUSED
        .lines()
        .chain(READ.lines())
        .chain(OVERLAPPING.lines())
    {
        check_row(&rt, rt.alloc(), row)?;
    }
    Ok(())
}

/// A vocabulary that was not read has no attribute, and its grid has one number.
#[test]
fn no_vocabulary(rt: HostRuntime) -> Result<(), Fail> {
    let words = sheet(rt.alloc(), EXAMPLE)?;
    let vocabulary = Vocabulary::new(&words);
    let rules = sheet(rt.alloc(), "1F=1 20=2")?;
    check_decided(&rt, &PermitDeny, &vocabulary, &rules, &[2])?;
    let rules = sheet(rt.alloc(), "1F=1 20=2 21:role=home")?;
    check_decided(&rt, &PermitDeny, &vocabulary, &rules, &[0])
}
