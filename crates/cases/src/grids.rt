//! Shapes, cells and grid numbers.
use crate::sheets::{EXAMPLE, sheet};
use std::alloc::Global;
use std::process::Abort;
use std::test::Fail;
use vocabulary::record::{Shape, Vocabulary};

/// The next cells, the last attribute fastest.
fn advance(cells: &mut [u8], counts: &[u8]) {
    for (cell, count) in cells.iter_mut().zip(counts).rev() {
        *cell = cell.saturating_add(1);
        if *cell < *count {
            return;
        }
        *cell = 0;
    }
}

/// Cells that count up have the grid numbers in order, and come back to the first ones after the last number.
fn check_numbers(rt: &impl Abort, heap: Global, shape: &Shape) -> Result<(), Fail> {
    let mut cells = vec![in heap; 0u8; shape.len()]?;
    for n in 0..shape.size() {
        let found = shape.cells(n).ok_or("no cells")?;
        assert!(rt; found.as_slice() == cells.as_slice());
        assert_eq!(rt; shape.number(&cells), Some(n));
        advance(&mut cells, shape.counts());
    }
    assert_eq!(rt; shape.number(&cells), Some(0));
    assert!(rt; shape.cells(shape.size()).is_none());
    Ok(())
}

pub(crate) fn shape_of(heap: Global, words: &str) -> Result<Shape, Fail> {
    let bytes = sheet(heap, words)?;
    let mut vocabulary = Vocabulary::new(&bytes);
    vocabulary.read()?;
    Ok(vocabulary.shape())
}

/// Shapes with their sizes, and whether they are the example's.
#[test]
fn numbers(rt: HostRuntime) -> Result<(), Fail> {
    let example = shape_of(rt.alloc(), EXAMPLE)?;
    for (words, size, same) in [
        ("2 2 2", 8usize, true),
        ("2 2", 4, false),
        ("2 2 2 1", 8, false),
        ("2 4 1", 8, false),
        ("16 16 16", 4096, false),
        ("5 7 13 9", 4095, false),
        ("2 3 1 2 2 4 5 2", 960, false),
    ] {
        let shape = shape_of(rt.alloc(), words)?;
        assert!(rt;
            shape.size() == size && (shape == example) == same,
            "{words}"
        );
        check_numbers(&rt, rt.alloc(), &shape)?;
    }
    Ok(())
}

/// Each cell has to be below its count, and there has to be one for each attribute.
#[test]
fn wrong_cells(rt: HostRuntime) -> Result<(), Fail> {
    let shape = shape_of(rt.alloc(), "2 3 4")?;
    for cells in [[2, 0, 0], [0, 3, 0], [0, 0, 4], [255, 255, 255]] {
        assert!(rt; shape.number(&cells).is_none());
    }
    assert!(rt; shape.number(&[0, 0]).is_none() && shape.number(&[0, 0, 0, 0]).is_none());
    assert!(rt;
        shape.count(2) == Some(4) && shape.count(3).is_none() && shape.cells(usize::MAX).is_none()
    );
    Ok(())
}
