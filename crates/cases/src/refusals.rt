//! Numbers, layers and sentences of the causes.
use refusal::Cause;
use std::test::Fail;

const CAUSES: [Cause; 23] = [
    Cause::Truncated,
    Cause::UnexpectedTag,
    Cause::BadLength,
    Cause::BadContent,
    Cause::SheetTooLong,
    Cause::TooMany,
    Cause::GridTooLarge,
    Cause::RepeatedName,
    Cause::UnknownAttribute,
    Cause::ForeignValue,
    Cause::RepeatedAttribute,
    Cause::MissingAttribute,
    Cause::UnexpectedText,
    Cause::TooManyOpen,
    Cause::TextTooLong,
    Cause::NoSuchMark,
    Cause::TargetTaken,
    Cause::OperandVacant,
    Cause::NoSuchCode,
    Cause::CapacityLacking,
    Cause::MemoryTooShort,
    Cause::TooManyRecords,
    Cause::Mismatch,
];

/// The layer, the number and the sentence of each cause in turn.
const SENTENCES: &str = "1 10: the bytes end inside a field or before the sheet may end
1 11: this tag is unknown or may not stand here
1 12: this length is not allowed
1 13: this content is not well formed
1 14: the sheet is over 65535 bytes
2 20: this is a ninth attribute or a seventeenth value
2 21: with this field the grid is over 4096
2 22: this name was given before
2 23: the vocabulary has no such attribute
2 24: the attribute has no such value, cut, number or range
2 25: this attribute was given before
2 26: an attribute is missing
3 30: the text cannot go on like this
3 31: this is a seventeenth open sign
3 33: the text is over 1024 bytes
4 40: marks go up to 47
4 41: a policy stands at the target
4 42: no policy stands at an operand
4 43: the algebra has no such code
4 44: the policies have more parts than there are records
4 45: the memory handed over is too short
4 46: there are over 2048 records
4 47: shape, size or number of masks is not the collection's";

#[test]
fn causes(rt: HostRuntime) -> Result<(), Fail> {
    assert_eq!(rt; SENTENCES.lines().count(), CAUSES.len());
    for (cause, line) in CAUSES.iter().zip(SENTENCES.lines()) {
        let layer = cause.layer() as u8;
        let number = cause.number();
        assert_eq!(rt;
            format!(in rt.alloc(); "{layer} {number}: {cause}")?.as_str(),
            line
        );
    }
    Ok(())
}
