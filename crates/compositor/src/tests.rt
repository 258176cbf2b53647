// Hand-computed pictures: three panes in one output, and one pane across two.
ghost use Rattle.std.specs.Prelude.{◌≡◌, ◌<◌, ◌≤◌, true, pos, negsuc, ◌≤ℤ◌};
ghost use Rattle.gui_num.specs.declared.Point.{Point};
ghost use Rattle.gui_num.specs.Rects.{IsFit, has};
ghost use Rattle.compositor.specs.TestPanes.{ringed, shown_panes, pane_across};

use super::*;
use gui_num::{Colour, Rect, grow};
use std::cell::Cell;

// One pane over the upper left corner of the picture, and below it two that overlap. They remember
// which pixels of their contents were asked for, a bit each, and whether one was asked for again.
#[derive(Drop)]
struct Shown {
    asked: Cell<u32>,
    again: Cell<bool>,
}

// The view with this content, in a border one pixel wide.
fn ringed(content: Rect, colour: u32) -> PaneView
    requires near { (negsuc 99 ≤ℤ content.x) × (content.x ≤ℤ pos 100) × (negsuc 99 ≤ℤ content.y) × (content.y ≤ℤ pos 100) }
    requires small { (content.w ≤ 100) × (content.h ≤ 100) }
    ensures is { result ≡ ringed content colour }
    ensures outer { IsFit result.outer }
    ensures content { IsFit result.content }
    ensures inside { (p : Point) → has result.content p ≡ true → has result.outer p ≡ true }
{
    PaneView {
        outer: grow(content, 1),
        content,
        colour: Colour(colour),
    }
}

impl Shown {
    // Notes that a pixel was asked for.
    fn note(&self, k: usize, x: u32, y: u32) {
        if k < 3 && x < 3 && y < 2 {
            let pixel = 1u32 << (k as u32 * 6 + y * 3 + x);
            if self.asked.get() & pixel != 0 {
                self.again.set(true);
            }
            self.asked.set(self.asked.get() | pixel);
        } else {
            self.again.set(true);
        }
    }
}

impl Panes for Shown {
    ghost panes = { λ _. shown_panes };

    fn count(&self) -> usize {
        3
    }

    fn view(&self, k: usize) -> PaneView {
        match k {
            0 => ringed(
                Rect {
                    x: -1,
                    y: -1,
                    w: 2,
                    h: 2,
                },
                0xffff00,
            ),
            1 => ringed(
                Rect {
                    x: 4,
                    y: 2,
                    w: 3,
                    h: 2,
                },
                0x00ff00,
            ),
            _ => ringed(
                Rect {
                    x: 1,
                    y: 1,
                    w: 3,
                    h: 2,
                },
                0xff0000,
            ),
        }
    }

    fn content(&self, k: usize, x: u32, y: u32) -> Option<Colour> {
        self.note(k, x, y);
        match k {
            0 => Some(Colour(0x0a0b0c)),
            1 => { if x < 1 { None } else { Some(Colour(0x0000ff)) } }
            _ => Some(Colour(0xffffff)),
        }
    }
}

// Whether a row of the picture has these colours: of the background, of borders by their names, of
// contents (`c`, `u` and `w`), of a content that has none, and of what no output has (`0`).
fn shows(picture: &Picture, y: u32, row: &[u8]) -> bool {
    if y >= picture.height() {
        return false;
    }
    let colours = picture.row(y);
    let mut same = colours.len() == row.len();
    for (x, colour) in colours.iter().enumerate() {
        let wanted = match row.get(x) {
            Some(b'Y') => 0xffff00,
            Some(b'G') => 0x00ff00,
            Some(b'R') => 0xff0000,
            Some(b'c') => 0x0a0b0c,
            Some(b'u') => 0x0000ff,
            Some(b'w') => 0xffffff,
            Some(b'-') => 0x808080,
            Some(b'0') => 0,
            _ => 0x102030,
        };
        same &= *colour == wanted;
    }
    same
}

#[test]
fn the_topmost_pane_is_seen(rt: HostRuntime) {
    let panes = Shown {
        asked: Cell::new(0),
        again: Cell::new(false),
    };
    let whole = [Rect {
        x: 0,
        y: 0,
        w: 8,
        h: 6,
    }];
    let Ok(mut picture) = Picture::new(rt.alloc(), 8, 6, Colour(0x102030), &whole) else {
        panic!(rt; "memory is ample");
    };
    assert!(rt; shows(&picture, 0, b"00000000") && picture.painted() == 0);
    picture.paint(&panes);
    assert!(rt; shows(&picture, 0, b"cYRRR..."));
    assert!(rt; shows(&picture, 1, b"YYwGGGGG"));
    assert!(rt; shows(&picture, 2, b"RwwG-uuG"));
    assert!(rt; shows(&picture, 3, b"RRRG-uuG"));
    assert!(rt; shows(&picture, 4, b"...GGGGG"));
    assert!(rt; shows(&picture, 5, b"........"));
    assert!(rt; picture.width() == 8 && picture.painted() == 48);
    assert!(rt; panes.asked.get() == 0x1afd0 && !panes.again.get());
    picture.paint(&panes);
    assert!(rt; picture.painted() == 96);
}

// One pane in the middle, whose content has no colour anywhere.
#[derive(Drop)]
struct Across;

impl Panes for Across {
    ghost panes = { λ _. pane_across };

    fn count(&self) -> usize {
        1
    }

    fn view(&self, k: usize) -> PaneView {
        ringed(
            Rect {
                x: 2,
                y: 2,
                w: 8,
                h: 2,
            },
            0xff0000,
        )
    }

    fn content(&self, k: usize, x: u32, y: u32) -> Option<Colour> {
        None
    }
}

#[test]
fn nothing_is_drawn_between_outputs(rt: HostRuntime) {
    let left = Rect {
        x: 0,
        y: 0,
        w: 5,
        h: 6,
    };
    let right = Rect { x: 7, ..left };
    let outputs = [left, right];
    let Ok(mut picture) = Picture::new(rt.alloc(), 12, 6, Colour(0x102030), &outputs) else {
        panic!(rt; "memory is ample");
    };
    picture.paint(&Across);
    assert!(rt; shows(&picture, 0, b".....00....."));
    assert!(rt; shows(&picture, 1, b".RRRR00RRRR."));
    assert!(rt; shows(&picture, 2, b".R---00---R."));
    assert!(rt; shows(&picture, 3, b".R---00---R."));
    assert!(rt; shows(&picture, 4, b".RRRR00RRRR."));
    assert!(rt; shows(&picture, 5, b".....00....."));
    assert!(rt; picture.outputs() == &outputs[..] && picture.painted() == 60);
}
