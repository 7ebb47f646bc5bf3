//! Policy sheets on two attributes, against a plain reading of their rules.
use crate::policies::check_decided;
use crate::sheets::{add_field, sheet};
use algebra::Algebra;
use algebra::permit_deny::PermitDeny;
use algebra::stages::Stages;
use std::alloc::{AllocError, Global};
use std::process::Abort;
use std::test::Fail;
use vocabulary::record::Vocabulary;

/// The values of an attribute: the bit by which a rule names each, and its name.
const VALUES: [(u8, u8); 8] = [
    (1, b'a'),
    (2, b'b'),
    (4, b'c'),
    (8, b'd'),
    (16, b'e'),
    (32, b'f'),
    (64, b'g'),
    (128, b'h'),
];

/// A decision, and the values of each attribute that the conditions name.
#[derive(Clone, Copy)]
struct Rule {
    decision: u8,
    first: u8,
    second: u8,
}

impl Rule {
    /// An attribute that is not named does not matter, and one that is has to have one of the values named.
    fn matches(&self, first: u8, second: u8) -> bool {
        (self.first == 0 || self.first & first != 0)
            && (self.second == 0 || self.second & second != 0)
    }
}

/// Of the rules that match the first, the lowest, the only and the highest decision: in both algebras a sum is the lower
/// of two codes that are not 0, and negation turns their order round.
fn decided(rules: &[Rule], way: u8, first: u8, second: u8) -> u8 {
    let mut matching = rules
        .iter()
        .filter(|rule| rule.matches(first, second))
        .map(|rule| rule.decision);
    let decision = match way {
        1 => matching.next(),
        2 => matching.min(),
        3 => match (matching.next(), matching.next()) {
            (only, None) => only,
            _ => None,
        },
        _ => matching.max(),
    };
    decision.unwrap_or(0)
}

fn add_conditions(bytes: &mut Vec<u8>, attribute: u8, named: u8) -> Result<(), AllocError> {
    for (bit, value) in VALUES {
        if named & bit != 0 {
            add_field(bytes, 0x21, &[attribute, b'=', value])?;
        }
    }
    Ok(())
}

fn written(heap: Global, way: u8, rules: &[Rule]) -> Result<Vec<u8>, AllocError> {
    let mut bytes = Vec::new(heap);
    add_field(&mut bytes, 0x1F, &[way])?;
    for rule in rules {
        add_field(&mut bytes, 0x20, &[rule.decision])?;
        add_conditions(&mut bytes, b'a', rule.first)?;
        add_conditions(&mut bytes, b'b', rule.second)?;
    }
    Ok(bytes)
}

/// In each of the four ways the sheet of the rules decides what they do at each pair of values.
fn check_rules<A: Algebra>(
    rt: &impl Abort,
    heap: Global,
    algebra: &A,
    words: &[u8],
    values: &[(u8, u8)],
    rules: &[Rule],
) -> Result<(), Fail> {
    let mut vocabulary = Vocabulary::new(words);
    vocabulary.read()?;
    for way in [1u8, 2, 3, 4] {
        let bytes = written(heap, way, rules)?;
        let mut page = Vec::new(heap);
        for (first, _) in values {
            for (second, _) in values {
                page.push(decided(rules, way, *first, *second))?;
            }
        }
        check_decided(rt, algebra, &vocabulary, &bytes, &page)?;
    }
    Ok(())
}

/// The rules on two values, with the decisions 1 and 2.
fn small_rule(n: u8) -> Rule {
    Rule {
        decision: n % 2 + 1,
        first: n / 2 % 4,
        second: n / 8 % 4,
    }
}

/// All lists of up to two rules on two values each.
#[test]
fn small_sheets(rt: HostRuntime) -> Result<(), Fail> {
    let words = sheet(rt.alloc(), "2 2")?;
    for a in 0..32u8 {
        for b in 0..32u8 {
            let rules = [small_rule(a), small_rule(b)];
            for count in 0..=2usize {
                let list = &rules[0..count];
                check_rules(&rt, rt.alloc(), &PermitDeny, &words, &VALUES[0..2], list)?;
                check_rules(&rt, rt.alloc(), &Stages, &words, &VALUES[0..2], list)?;
            }
        }
    }
    Ok(())
}

/// Rules on one or two values of each attribute, with decisions from 1 on, that follow no plain order.
fn many_rules(heap: Global, count: usize, highest: u8) -> Result<Vec<Rule>, Fail> {
    let mut rules = Vec::new(heap);
    let mut seed = 1u32;
    for _ in 0..count {
        seed = seed.wrapping_mul(1664525).wrapping_add(1013904223);
        let first = 1u8.rotate_left(seed >> 29) | 1u8.rotate_left(seed >> 26 & 7);
        let second = 1u8.rotate_left(seed >> 23 & 7) | 1u8.rotate_left(seed >> 20 & 7);
        let [_, _, third, _] = seed.to_be_bytes();
        let decision = third.checked_rem(highest).unwrap_or(0).saturating_add(1);
        rules.push(Rule {
            decision,
            first,
            second,
        })?;
    }
    Ok(rules)
}

/// A few rules on eight values each, and more of them up to a sheet of several thousand bytes.
#[test]
fn large_sheets(rt: HostRuntime) -> Result<(), Fail> {
    let words = sheet(rt.alloc(), "8 8")?;
    for count in [3usize, 10, 30, 100, 300] {
        let rules = many_rules(rt.alloc(), count, 2)?;
        check_rules(&rt, rt.alloc(), &PermitDeny, &words, &VALUES, &rules)?;
        let rules = many_rules(rt.alloc(), count, 6)?;
        check_rules(&rt, rt.alloc(), &Stages, &words, &VALUES, &rules)?;
    }
    Ok(())
}
