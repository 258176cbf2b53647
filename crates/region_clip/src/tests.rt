// Rectangles and the spans of one row, cut by hand.
ghost use Rattle.std.specs.Prelude.{◌≡◌, ◌*◌, pos};

use super::*;
use gui_num::{Point, Rect};

// Whether these are the spans that are left, from the left.
fn are_left<const N: usize>(row: &RowSpans, wanted: &[(u32, u32); N]) -> bool {
    let mut spans = row.spans();
    for span in wanted {
        if spans.next() != Some(*span) {
            return false;
        }
    }
    spans.next() == None
}

#[test]
fn what_is_cut_is_no_more_left(rt: HostRuntime) {
    let Ok(mut row) = RowSpans::new(rt.alloc(), 10) else {
        panic!(rt; "memory is ample");
    };
    assert!(rt; are_left(&row, &[]));
    row.reset(1, 9);
    assert!(rt; are_left(&row, &[(1, 9)]));
    row.cut(3, 5);
    row.cut(5, 5);
    row.cut(8, 2);
    assert!(rt; are_left(&row, &[(1, 3), (5, 9)]));
    row.cut(2, 6);
    assert!(rt; are_left(&row, &[(1, 2), (6, 9)]));
    row.cut(7, 8);
    assert!(rt; are_left(&row, &[(1, 2), (6, 7), (8, 9)]));
    row.cut(0, 4294967295);
    assert!(rt; are_left(&row, &[]));
    row.reset(0, 10);
    assert!(rt; are_left(&row, &[(0, 10)]));
    row.reset(4, 4);
    assert!(rt; are_left(&row, &[]));
}

#[test]
fn every_second_column_is_cut(rt: HostRuntime) {
    let Ok(mut row) = RowSpans::new(rt.alloc(), 5) else {
        panic!(rt; "memory is ample");
    };
    row.reset(0, 5);
    row.cut(3, 4);
    row.cut(1, 2);
    assert!(rt; are_left(&row, &[(0, 1), (2, 3), (4, 5)]));
}

// Whether these are the spans that meet some columns, from the left.
fn are_met<const N: usize>(row: &RowSpans, x0: u32, x1: u32, wanted: &[(u32, u32); N]) -> bool {
    let mut spans = row.spans_in(x0, x1);
    for span in wanted {
        if spans.next() != Some(*span) {
            return false;
        }
    }
    spans.next() == None
}

#[test]
fn the_spans_that_meet_some_columns_are_found(rt: HostRuntime) {
    let Ok(mut row) = RowSpans::new(rt.alloc(), 20) else {
        panic!(rt; "memory is ample");
    };
    row.reset(0, 20);
    row.cut(4, 6);
    row.cut(10, 11);
    row.cut(15, 18);
    assert!(rt; are_met(&row, 0, 20, &[(0, 4), (6, 10), (11, 15), (18, 20)]));
    assert!(rt; are_met(&row, 3, 7, &[(0, 4), (6, 10)]));
    assert!(rt; are_met(&row, 4, 6, &[]));
    assert!(rt; are_met(&row, 9, 18, &[(6, 10), (11, 15)]));
    assert!(rt; are_met(&row, 19, 40, &[(18, 20)]));
}

// A rectangle, in one line.
fn rect(x: i32, y: i32, w: u32, h: u32) -> Rect
    ensures { result ≡ record { x = x; y = y; w = w; h = h } }
{
    Rect { x, y, w, h }
}

// Whether these are the rectangles of a region, in their order.
fn are_held<const N: usize>(region: &Region, wanted: &[Rect; N]) -> bool {
    if region.count() != N {
        return false;
    }
    for (k, r) in wanted.iter().enumerate() {
        if region.get(k) != *r {
            return false;
        }
    }
    true
}

#[test]
fn parts_lie_round_what_was_there(rt: HostRuntime) {
    let Ok(mut region) = Region::new(rt.alloc()) else {
        panic!(rt; "memory is ample");
    };
    let inner = rect(2, 1, 3, 2);
    assert!(rt; region.add(inner) == Ok(()));
    assert!(rt; region.add(rect(3, 2, 0, 9)) == Ok(()));
    assert!(rt; region.add(rect(0, 0, 8, 5)) == Ok(()));
    let above = rect(0, 0, 8, 1);
    let below = rect(0, 3, 8, 2);
    let left = rect(0, 1, 2, 2);
    let right = rect(5, 1, 3, 2);
    assert!(rt; are_held(&region, &[inner, above, below, left, right]));
    assert!(rt; region.has(Point { x: 7, y: 4 }) && !region.has(Point { x: 8, y: 4 }));
    assert!(rt; region.add(rect(1, 1, 6, 3)) == Ok(()) && region.count() == 5);
    region.clear();
    assert!(rt; are_held(&region, &[]) && !region.has(Point { x: 2, y: 1 }));
}

// A pixel of a row, one column free behind each.
fn pixel(k: u8) -> Rect
    ensures { result ≡ record { x = pos (2 * k); y = pos 0; w = 1; h = 1 } }
{
    rect(2 * i32::from(k), 0, 1, 1)
}

// Adds 256 single pixels.
fn fill(region: &mut Region) -> bool {
    for k in 0..=255u8 {
        if region.add(pixel(k)) != Ok(()) {
            return false;
        }
    }
    true
}

#[test]
fn pixel_257_is_too_many(rt: HostRuntime) {
    let Ok(mut region) = Region::new(rt.alloc()) else {
        panic!(rt; "memory is ample");
    };
    assert!(rt; fill(&mut region) && region.count() == 256);
    assert!(rt; region.add(rect(0, 1, 1, 1)) == Err(Full));
    assert!(rt; region.add(rect(0, 0, 1, 1)) == Err(Full));
    assert!(rt; region.count() == 256 && !region.has(Point { x: 0, y: 1 }));
    assert!(rt; region.has(Point { x: 510, y: 0 }) && !region.has(Point { x: 509, y: 0 }));
    law_of_regions();
}
