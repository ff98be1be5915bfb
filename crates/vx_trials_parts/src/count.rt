use std::alloc::{AllocError, Global};
use std::test::Fail;
use vx_bits::{BitPage, BitView};
use vx_count::*;
use vx_grid::Rect;

macro_rules! rect {
    ($left:expr, $top:expr, $width:expr, $height:expr) => {
        Rect {
            left: $left,
            top: $top,
            width: $width,
            height: $height,
        }
    };
}

/// Whether sums before places, and runs of up to 57 columns, are what looking at each pixel tells.
fn agrees(sums: &RowSums, counter: &Counter, view: &BitView<'_>) -> bool {
    let (width, height) = (sums.width(), sums.height());
    if (counter.width(), counter.height()) != (width, height) {
        return false;
    }
    for row in 0..height {
        let mut dark = 0u32;
        for x in 0..width {
            if sums.before(row, x) != dark {
                return false;
            }
            if view.dark(x as i32, row as i32) {
                dark = dark.wrapping_add(1);
            }
        }
        if sums.before(row, width) != dark || !runs_agree(sums, counter, row) {
            return false;
        }
    }
    true
}

/// Whether the runs of a row are the differences of its sums.
fn runs_agree(sums: &RowSums, counter: &Counter, row: u32) -> bool {
    let (width, height) = (sums.width(), sums.height());
    if row >= height || (counter.width(), counter.height()) != (width, height) {
        return false;
    }
    for left in 0..width {
        for right in left + 1..width.min(left + 57) + 1 {
            let run = counter.run(left, row, right - left);
            if sums.before(row, left).wrapping_add(run) != sums.before(row, right) {
                return false;
            }
        }
    }
    true
}

/// Two rows of up to 130 pixels, padding bits among them, in no order that repeats.
fn two_rows(alloc: Global, width: u32) -> Result<Vec<u8>, AllocError> {
    let mut bytes = Vec::new(alloc);
    let mut state = width;
    for _ in 0..(width as usize + 7) / 8 * 2 {
        state = state.wrapping_mul(1_664_525).wrapping_add(1_013_904_223);
        bytes.push((state >> 24) as u8)?;
    }
    Ok(bytes)
}

/// Whether a page of two rows counts as looking at each of its pixels does.
fn counts_two_rows(alloc: Global, width: u32, bytes: &[u8]) -> Result<bool, AllocError> {
    if width > 4096 || bytes.len() != 2 * ((width as usize + 7) / 8) {
        return Ok(false);
    }
    let view = BitView::new(width, 2, bytes);
    let sums = RowSums::new(alloc, &view)?;
    let counter = Counter::new(alloc, &view)?;
    Ok(agrees(&sums, &counter, &view))
}

#[test]
fn every_width_counts(rt: HostRuntime) -> Result<(), Fail> {
    for width in 1..131 {
        let bytes = two_rows(rt.alloc(), width)?;
        assert!(rt; counts_two_rows(rt.alloc(), width, bytes.as_slice())?);
    }
    let bytes = two_rows(rt.alloc(), 4096)?;
    assert!(rt; counts_two_rows(rt.alloc(), 4096, bytes.as_slice())?);
    Ok(())
}

#[test]
fn rectangles_across_the_edges(rt: HostRuntime) -> Result<(), Fail> {
    let mut page = BitPage::new(rt.alloc(), 200, 90)?;
    page.darken(0, 0, 200, 90);
    let mut counter = Counter::new(rt.alloc(), &page.view())?;
    assert_eq!(rt; counter.dark_in(rect!(-5, 10, 20, 4)), 60);
    assert_eq!(rt; counter.dark_in(rect!(190, 10, 20, 4)), 40);
    assert_eq!(rt; counter.dark_in(rect!(10, -3, 70, 4)), 70);
    assert_eq!(rt; counter.dark_in(rect!(10, 88, 70, 4)), 140);
    assert_eq!(rt; counter.dark_in(rect!(-100, -100, 4096, 4096)), 18_000);
    assert_eq!(rt; counter.dark_in(rect!(-10000, 10000, 4096, 4096)), 0);
    assert_eq!(rt; counter.dark_in(rect!(-20, 10, 20, 4)), 0);
    assert_eq!(rt; counter.dark_in(rect!(200, 10, 20, 4)), 0);
    counter.turn();
    assert_eq!(rt; counter.dark_in(rect!(190, 10, 20, 4)), 40);
    Ok(())
}

#[test]
fn a_row_of_numbers(rt: HostRuntime) -> Result<(), Fail> {
    let view = BitView::new(9, 1, &[0xa5, 0xff]);
    let sums = RowSums::new(rt.alloc(), &view)?;
    for (x, dark) in [0, 1, 1, 2, 2, 2, 3, 3, 4, 5].iter().enumerate() {
        assert_eq!(rt; sums.before(0, x as u32), *dark);
    }
    let mut counter = Counter::new(rt.alloc(), &view)?;
    assert_eq!(rt; (counter.width(), counter.height()), (9, 1));
    assert_eq!(rt; counter.dark_in(rect!(-3, -1, 20, 3)), 5);
    counter.turn();
    assert_eq!(rt; counter.run(0, 0, 2), 2);
    assert_eq!(rt; counter.dark_in_frame(1, 0, 8, 1), 4);
    Ok(())
}

#[test]
fn a_small_page_in_the_memory_of_a_large_one(rt: HostRuntime) -> Result<(), Fail> {
    let mut large = BitPage::new(rt.alloc(), 2100, 40)?;
    large.darken(0, 0, 2100, 40);
    let memory = Counter::new(rt.alloc(), &large.view())?.into_memory();
    let counter = Counter::reusing(memory, &BitView::new(9, 1, &[0xa5, 0xff]))?;
    assert_eq!(rt; counter.dark_in(rect!(-3, -1, 20, 3)), 5);
    Ok(())
}
