// A store of eight tiles, with memory in plenty.
use super::*;
use gui_num::{Point, Rect};
use std::test::Fail;

// Gives a pixel a colour, where there is a tile for it.
fn colour(store: &mut Tiles, slot: u32, x: u16, y: u16, colour: u32) -> bool {
    let area = Rect {
        x: i32::from(x),
        y: i32::from(y),
        w: 1,
        h: 1,
    };
    if colour > 0xff_ffff || store.need(slot, area) > store.free() {
        return false;
    }
    store.open(slot, area);
    store.put(
        slot,
        Point {
            x: i32::from(x),
            y: i32::from(y),
        },
        colour,
    );
    true
}

// Takes tiles for an area from the upper left corner on, where there are enough.
fn open(store: &mut Tiles, slot: u32, w: u16, h: u16) -> bool {
    if w > 32768 || h > 32768 {
        return false;
    }
    let area = Rect {
        x: 0,
        y: 0,
        w: u32::from(w),
        h: u32::from(h),
    };
    if store.need(slot, area) > store.free() {
        return false;
    }
    store.open(slot, area);
    true
}

// Puts three colours from a pixel on in its row, where they lie in one tile and there is one.
fn three(store: &mut Tiles, slot: u32, x: u16, y: u16) -> bool {
    let area = Rect {
        x: i32::from(x),
        y: i32::from(y),
        w: 3,
        h: 1,
    };
    if x % 64 > 61 || store.need(slot, area) > store.free() {
        return false;
    }
    store.open(slot, area);
    let colours = [0x0a0000, 0x0b0000, 0xffffff];
    store.put_row(slot, u32::from(x), u32::from(y), &colours);
    true
}

// The colour of a pixel.
fn at(store: &Tiles, slot: u32, x: i32, y: i32) -> Option<u32> {
    store.at(slot, Point { x, y })
}

#[test]
fn keeps_what_was_read(rt: HostRuntime) -> Result<(), Fail> {
    let mut store = Tiles::new(rt.alloc(), 8)?;
    assert_eq!(rt; store.free(), 8);
    assert!(rt; colour(&mut store, 1, 0, 0, 0xff0000));
    assert!(rt; colour(&mut store, 1, 63, 63, 0x00ff00));
    assert_eq!(rt; store.free(), 7);
    assert!(rt; colour(&mut store, 1, 64, 63, 0x0000ff));
    assert!(rt; colour(&mut store, 0, 64, 63, 0x123456));
    assert_eq!(rt; store.free(), 5);
    assert_eq!(rt; at(&store, 1, 0, 0), Some(0xff0000));
    assert_eq!(rt; at(&store, 1, 63, 63), Some(0x00ff00));
    assert_eq!(rt; at(&store, 1, 64, 63), Some(0x0000ff));
    assert_eq!(rt; at(&store, 0, 64, 63), Some(0x123456));
    assert_eq!(rt; at(&store, 1, 1, 0), None);
    assert_eq!(rt; at(&store, 0, 0, 0), None);
    assert_eq!(rt; at(&store, 1, -1, 0), None);
    assert_eq!(rt;
        store.need(
            1,
            Rect {
                x: 0,
                y: 0,
                w: 65,
                h: 65
            }
        ),
        2
    );
    assert_eq!(rt;
        store.need(
            7,
            Rect {
                x: 10,
                y: 20,
                w: 640,
                h: 64
            }
        ),
        22
    );
    assert_eq!(rt;
        store.need(
            7,
            Rect {
                x: 10,
                y: 20,
                w: 0,
                h: 64
            }
        ),
        0
    );
    Ok(())
}

#[test]
fn forgets_what_is_cut_away(rt: HostRuntime) -> Result<(), Fail> {
    let mut store = Tiles::new(rt.alloc(), 8)?;
    assert!(rt; colour(&mut store, 1, 0, 0, 0xff0000));
    assert!(rt; colour(&mut store, 1, 63, 63, 0x00ff00));
    assert!(rt; colour(&mut store, 1, 64, 63, 0x0000ff));
    assert!(rt; colour(&mut store, 2, 64, 63, 0x123456));
    store.cut(1, 100, 63);
    assert_eq!(rt; store.free(), 6);
    assert_eq!(rt; at(&store, 1, 0, 0), Some(0xff0000));
    assert_eq!(rt; at(&store, 1, 63, 63), None);
    assert_eq!(rt; at(&store, 1, 64, 63), None);
    assert_eq!(rt; at(&store, 2, 64, 63), Some(0x123456));
    store.cut(1, 200, 200);
    assert!(rt; open(&mut store, 1, 128, 128));
    assert_eq!(rt; store.free(), 3);
    assert_eq!(rt; at(&store, 1, 63, 63), None);
    assert_eq!(rt; at(&store, 1, 64, 63), None);
    store.drop_slot(2);
    assert_eq!(rt; store.free(), 4);
    assert_eq!(rt; at(&store, 2, 64, 63), None);
    assert_eq!(rt; at(&store, 1, 0, 0), Some(0xff0000));
    Ok(())
}

#[test]
fn gives_tiles_back(rt: HostRuntime) -> Result<(), Fail> {
    let mut store = Tiles::new(rt.alloc(), 8)?;
    assert!(rt; open(&mut store, 5, 512, 64));
    assert_eq!(rt; store.free(), 0);
    assert!(rt; !open(&mut store, 6, 1, 1));
    assert!(rt; colour(&mut store, 5, 511, 63, 0xffffff));
    store.cut(5, 16384, 6144);
    assert_eq!(rt; store.free(), 7);
    assert_eq!(rt; at(&store, 5, 511, 63), Some(0xffffff));
    assert!(rt; open(&mut store, 6, 448, 1));
    assert_eq!(rt; at(&store, 6, 447, 0), None);
    store.drop_slot(5);
    store.drop_slot(6);
    assert_eq!(rt; store.free(), 8);
    assert!(rt; open(&mut store, 7, 512, 64));
    for x in [63, 127, 191, 255, 319, 383, 447, 511].iter() {
        assert_eq!(rt; at(&store, 7, *x, 63), None);
    }
    store.drop_slot(7);
    assert!(rt; colour(&mut store, 9, 70, 3, 0x00ff00));
    assert!(rt; open(&mut store, 10, 64, 64));
    assert_eq!(rt; store.free(), 6);
    store.clear();
    assert_eq!(rt; store.free(), 8);
    assert_eq!(rt; at(&store, 9, 70, 3), None);
    Ok(())
}

#[test]
fn puts_a_row_of_colours(rt: HostRuntime) -> Result<(), Fail> {
    let mut store = Tiles::new(rt.alloc(), 8)?;
    assert!(rt; colour(&mut store, 2, 68, 130, 0x00ff00));
    assert!(rt; three(&mut store, 2, 65, 130));
    assert_eq!(rt; store.free(), 7);
    assert_eq!(rt; at(&store, 2, 64, 130), None);
    assert_eq!(rt; at(&store, 2, 65, 130), Some(0x0a0000));
    assert_eq!(rt; at(&store, 2, 66, 130), Some(0x0b0000));
    assert_eq!(rt; at(&store, 2, 67, 130), Some(0xffffff));
    assert_eq!(rt; at(&store, 2, 68, 130), Some(0x00ff00));
    assert_eq!(rt; at(&store, 2, 65, 131), None);
    assert!(rt; three(&mut store, 2, 125, 130));
    assert_eq!(rt; at(&store, 2, 127, 130), Some(0xffffff));
    assert!(rt; !three(&mut store, 2, 126, 130));
    Ok(())
}

#[test]
fn reads_a_row_across_tiles(rt: HostRuntime) -> Result<(), Fail> {
    let mut store = Tiles::new(rt.alloc(), 8)?;
    assert!(rt; colour(&mut store, 3, 63, 70, 0x000001));
    assert!(rt; colour(&mut store, 3, 64, 70, 0x000002));
    assert!(rt; colour(&mut store, 3, 65, 69, 0x000003));
    assert!(rt; colour(&mut store, 3, 192, 70, 0x000004));
    let mut row = [7; 132];
    store.read_row(3, 62, 70, 0x808080, &mut row);
    for (i, colour) in [0x808080, 0x000001, 0x000002, 0x808080].iter().enumerate() {
        assert_eq!(rt; row[i], *colour);
    }
    for (i, colour) in [0x808080, 0x000004, 0x808080].iter().enumerate() {
        assert_eq!(rt; row[129 + i], *colour);
    }
    Ok(())
}
