//! The stack over slots that are handed over.
use stack::{Full, Stack, reverse_by_stack};
use std::process::Abort;

/// Entries go in until each slot holds one, and come off in the opposite order until there is none.
fn check_stack(rt: &impl Abort, slots: &mut [usize], size: usize) {
    let mut stack = Stack::new(slots);
    let mut good = stack.is_empty();
    for n in 0..size {
        good &= (stack.len() == n) & stack.push(n).is_ok() & (stack.top() == Some(n));
    }
    good &= stack.is_full() & stack.push(size).is_err();
    for n in (0..size).rev() {
        good &= (stack.pop() == Some(n)) & (stack.len() == n);
    }
    assert!(rt; good & stack.is_empty() & stack.pop().is_none());
}

#[test]
fn last_in_first_out(rt: HostRuntime) {
    check_stack(&rt, &mut [], 0);
    check_stack(&rt, &mut [7], 1);
    check_stack(&rt, &mut [7; 5], 5);
}

/// Items are reversed where there are slots for all of them, and are else left alone.
#[test]
fn reversal(rt: HostRuntime) {
    let mut slots = [0u8; 3];
    let mut items = [1u8, 2, 3, 4];
    assert_eq!(rt; reverse_by_stack(&mut slots, &mut items), Err(Full));
    assert_eq!(rt; items, [1, 2, 3, 4]);
    assert_eq!(rt; reverse_by_stack(&mut slots, &mut items[1..4]), Ok(()));
    assert_eq!(rt; items, [1, 4, 3, 2]);
}
