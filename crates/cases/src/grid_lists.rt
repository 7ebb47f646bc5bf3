//! Grid lists: a code for each grid number.
use crate::grids::shape_of;
use crate::policies::{check_source, codes};
use crate::sheets::{EXAMPLE, check_refusal};
use algebra::Algebra;
use algebra::permit_deny::PermitDeny;
use algebra::stages::Stages;
use policy::grid::GridSource;
use policy::source::Source;
use std::alloc::Global;
use std::process::Abort;
use std::test::Fail;
use vocabulary::record::Shape;

/// The list is read and decides as it says, or it is refused as expected.
fn check_list<A: Algebra>(
    rt: &impl Abort,
    heap: Global,
    shape: Shape,
    algebra: &A,
    list: &[u8],
    expected: &str,
) -> Result<(), Fail> {
    match GridSource::read(shape, algebra, list) {
        Ok(read) => {
            let mut source = read;
            assert_eq!(rt; expected, "read");
            assert_eq!(rt; source.size(), algebra.size());
            check_source(rt, &mut source, list)
        }
        Err(refusal) => check_refusal(rt, heap, refusal, expected),
    }
}

/// Lists that are written in digits, where `/` is the code 255: the length is looked at before the codes, and a code has to be
/// below the size.
#[test]
fn lists(rt: HostRuntime) -> Result<(), Fail> {
    let shape = shape_of(rt.alloc(), EXAMPLE)?;
    for (digits, permit_deny, stages) in [
        ("01221011", "read", "read"),
        ("00000000", "read", "read"),
        ("22222222", "read", "read"),
        ("01234566", "13 at 3", "read"),
        ("30000000", "13 at 0", "read"),
        ("00000003", "13 at 7", "read"),
        ("70000000", "13 at 0", "13 at 0"),
        ("0003007/", "13 at 3", "13 at 6"),
        ("0000000/", "13 at 7", "13 at 7"),
        ("", "12 at 0", "12 at 0"),
        ("0122101", "12 at 0", "12 at 0"),
        ("012210110", "12 at 0", "12 at 0"),
        ("/012210110", "12 at 0", "12 at 0"),
    ] {
        let list = codes(rt.alloc(), digits)?;
        check_list(&rt, rt.alloc(), shape, &PermitDeny, &list, permit_deny)?;
        check_list(&rt, rt.alloc(), shape, &Stages, &list, stages)?;
    }
    Ok(())
}

/// The largest grid, each code in its turn, lists that are longer and shorter by one, and a bad code at the last byte.
#[test]
fn largest_list(rt: HostRuntime) -> Result<(), Fail> {
    let shape = shape_of(rt.alloc(), "16 16 16")?;
    for (len, last, expected) in [
        (4096usize, 6u8, "read"),
        (4096, 7, "13 at 4095"),
        (4095, 6, "12 at 0"),
        (4097, 6, "12 at 0"),
    ] {
        let mut list: Vec<u8> = (1..len).map(|n| (n % 7) as u8).collect(rt.alloc())?;
        list.push(last)?;
        check_list(&rt, rt.alloc(), shape, &Stages, &list, expected)?;
    }
    Ok(())
}
