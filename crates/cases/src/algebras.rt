//! The algebras of decisions.
use algebra::Algebra;
use algebra::copied::CopiedTables;
use algebra::permit_deny::{Decision, PermitDeny};
use algebra::stages::Stages;
use std::process::Abort;
use std::test::Fail;

/// What stands in row `a` and column `b` of a table that is written as digits, one row behind the other.
fn entry(table: &[u8], size: u8, a: u8, b: u8) -> u8 {
    if a >= size || b >= size {
        return 0;
    }
    let at = (a as usize)
        .saturating_mul(size as usize)
        .saturating_add(b as usize);
    table.get(at).copied().unwrap_or(0).wrapping_sub(b'0')
}

/// The sums and meets of all pairs of bytes, and all negations, are those of the tables; difference
/// and precedence look only at which operand is 0.
fn check_tables<G: Algebra>(
    rt: &impl Abort,
    algebra: &G,
    size: u8,
    sums: &[u8],
    meets: &[u8],
    negations: &[u8],
) {
    assert_eq!(rt; algebra.size(), size);
    for a in 0..=255u8 {
        assert_eq!(rt; algebra.negation(a), entry(negations, size, 0, a), "at {a}");
        for b in 0..=255u8 {
            let (left, right) = if a < size && b < size { (a, b) } else { (0, 0) };
            let minus = if right == 0 { left } else { 0 };
            let precedence = if left == 0 { right } else { left };
            let expected = [
                entry(sums, size, a, b),
                entry(meets, size, a, b),
                minus,
                precedence,
            ];
            assert!(rt;
                [
                    algebra.sum(a, b),
                    algebra.meet(a, b),
                    algebra.minus(a, b),
                    algebra.precedence(a, b),
                ] == expected,
                "at {a} and {b}"
            );
        }
    }
}

/// The algebra and a copy of its tables answer alike.
fn check_both<G: Algebra>(
    rt: &impl Abort,
    algebra: &G,
    size: u8,
    sums: &[u8],
    meets: &[u8],
    negations: &[u8],
) {
    check_tables(rt, algebra, size, sums, meets, negations);
    check_tables(rt, &CopiedTables::of(algebra), size, sums, meets, negations);
}

#[test]
fn tables(rt: HostRuntime) {
    check_both(&rt, &PermitDeny, 3, b"012111212", b"000010002", b"021");
    check_both(
        &rt,
        &Stages,
        7,
        b"0123456111111121222223123333412344451234556123456",
        b"0000000010000000200000003000000040000000500000006",
        b"0654321",
    );
}

/// Permit and deny agree on nothing and together permit; programs print decisions by their words.
#[test]
fn decisions(rt: HostRuntime) -> Result<(), Fail> {
    let (permit, deny) = (u8::from(Decision::Permit), u8::from(Decision::Deny));
    let meet = Decision::try_from(PermitDeny.meet(permit, deny))?;
    let sum = Decision::try_from(PermitDeny.sum(deny, permit))?;
    let first = Decision::try_from(PermitDeny.precedence(deny, permit))?;
    assert_eq!(rt;
        format!(in rt.alloc(); "{meet} {sum} {first}")?.as_str(),
        "silence permit deny"
    );
    assert!(rt; Decision::try_from(3).is_err() & Decision::try_from(255).is_err());
    Ok(())
}
