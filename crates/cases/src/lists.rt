//! Short lists, up to their places and past them.
use short_list::{Full, ShortList};

/// Items go in until there is one in each place; one more is refused, and the list stays as it was.
#[test]
fn up_to_the_places(rt: HostRuntime) {
    let mut list = ShortList::<u8, 3>::new(9);
    assert_eq!(rt; list.as_slice(), [0u8; 0].as_slice());
    for item in 1..=3u8 {
        assert_eq!(rt; list.push(item), Ok(()), "item {item}");
    }
    assert_eq!(rt; list.len(), 3);
    assert_eq!(rt; list.push(4), Err(Full));
    assert_eq!(rt; list.as_slice(), [1, 2, 3].as_slice());
    list.set(1, 7);
    assert_eq!(rt; list.as_slice(), [1, 7, 3].as_slice());
}

/// A list of one item, as often as asked, up to as often as there are places.
#[test]
fn repeated(rt: HostRuntime) {
    assert_eq!(rt;
        ShortList::<u8, 2>::repeat(5, 0).as_slice(),
        [0u8; 0].as_slice()
    );
    assert_eq!(rt;
        ShortList::<u8, 2>::repeat(5, 2).as_slice(),
        [5, 5].as_slice()
    );
}
