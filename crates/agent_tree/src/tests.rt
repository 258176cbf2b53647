// Small scenes, painted by hand, with ample memory.
ghost use Rattle.std.specs.Prelude.{◌≡◌};

use super::*;
use SceneFault::{Exists, Limit, Unknown};
use gui_num::{Colour, Rect};

const GREEN: u32 = 0x00ff00;

const BLUE: u32 = 0x0000ff;

const RED: u32 = 0xff0000;

const WHITE: u32 = 0xffffff;

// A rectangle, in one line.
fn rect(x: i32, y: i32, w: u32, h: u32) -> Rect
    ensures { result ≡ record { x = x; y = y; w = w; h = h } }
{
    Rect { x, y, w, h }
}

// Whether these are the colours of a row of a window from a column on. They are read one by one and all at once.
fn is_row<const N: usize>(scene: &Scene, id: u32, x: u32, y: u32, wanted: &[u32; N]) -> bool {
    let Some(place) = scene.window(id) else {
        return false;
    };
    if N > 16 || x > 16384 || x + N as u32 > place.w || y >= place.h {
        return false;
    }
    for (k, colour) in wanted.iter().enumerate() {
        if scene.colour_at(id, x + k as u32, y) != Some(Colour(*colour)) {
            return false;
        }
    }
    let mut room = [7; N];
    scene.read_row(id, x, y, &mut room);
    room == *wanted
}

// Whether these are the rectangles of a window's damage, in their order.
fn is_damage<const N: usize>(scene: &Scene, id: u32, wanted: &[Rect; N]) -> bool {
    for (k, r) in wanted.iter().enumerate() {
        if scene.damage(id, k) != Some(*r) {
            return false;
        }
    }
    scene.damage(id, N) == None
}

// Whether these windows are shown, in their order.
fn is_shown<const N: usize>(scene: &Scene, wanted: &[u32; N]) -> bool {
    for (k, id) in wanted.iter().enumerate() {
        if scene.shown(k) != Some(*id) {
            return false;
        }
    }
    scene.shown(N) == None
}

#[test]
fn a_box_ends_where_its_window_does(rt: HostRuntime) {
    let mut scene = Scene::new(rt.alloc());
    assert!(rt; scene.top(1, rect(2, 2, 2, 2), Colour(GREEN)) == Ok(()));
    assert!(rt; scene.add(5, 1, rect(0, 1, 4, 1), Colour(BLUE)) == Ok(()));
    assert!(rt; scene.show(1) == Ok(()));
    assert!(rt; is_row(&scene, 1, 0, 0, &[GREEN, GREEN]));
    assert!(rt; is_row(&scene, 1, 0, 1, &[BLUE, BLUE]));
    assert!(rt; is_row(&scene, 1, 1, 1, &[BLUE]));
    assert!(rt; scene.colour_at(1, 2, 1) == None && scene.colour_at(1, 0, 2) == None);
    assert!(rt; scene.colour_at(5, 0, 0) == None && scene.colour_at(2, 0, 0) == None);
    assert!(rt; is_damage(&scene, 1, &[rect(0, 0, 2, 2)]));
    scene.flush();
    assert!(rt; is_damage(&scene, 1, &[]));
}

#[test]
fn boxes_are_painted_in_preorder(rt: HostRuntime) {
    let mut scene = Scene::new(rt.alloc());
    assert!(rt; scene.top(1, rect(-5, 9, 6, 3), Colour(GREEN)) == Ok(()));
    assert!(rt; scene.add(2, 1, rect(1, 1, 3, 2), Colour(RED)) == Ok(()));
    assert!(rt; scene.add(3, 2, rect(2, -1, 3, 2), Colour(BLUE)) == Ok(()));
    assert!(rt; is_row(&scene, 1, 0, 0, &[GREEN, GREEN, GREEN, GREEN, GREEN, GREEN]));
    assert!(rt; is_row(&scene, 1, 0, 1, &[GREEN, RED, RED, BLUE, GREEN, GREEN]));
    assert!(rt; is_row(&scene, 1, 0, 2, &[GREEN, RED, RED, RED, GREEN, GREEN]));
    assert!(rt; scene.add(4, 1, rect(2, 0, 1, 2), Colour(WHITE)) == Ok(()));
    assert!(rt; scene.add(6, 2, rect(0, 0, 3, 1), Colour(5)) == Ok(()));
    assert!(rt; is_row(&scene, 1, 0, 1, &[GREEN, 5, WHITE, 5, GREEN, GREEN]));
    assert!(rt; scene.show(1) == Ok(()));
    scene.flush();
    assert!(rt; scene.remove(2) == Ok(()));
    assert!(rt; is_damage(&scene, 1, &[rect(1, 1, 3, 2)]));
    assert!(rt; is_row(&scene, 1, 0, 0, &[GREEN, GREEN, WHITE, GREEN, GREEN, GREEN]));
    assert!(rt; is_row(&scene, 1, 0, 1, &[GREEN, GREEN, WHITE, GREEN, GREEN, GREEN]));
    assert!(rt; scene.fill(3, Colour(RED)) == Err(Unknown) && scene.remove(6) == Err(Unknown));
}

#[test]
fn a_box_damages_what_shows_of_it(rt: HostRuntime) {
    let mut scene = Scene::new(rt.alloc());
    assert!(rt; scene.top(1, rect(3, 4, 20, 10), Colour(GREEN)) == Ok(()));
    assert!(rt; scene.add(2, 1, rect(1, 1, 3, 2), Colour(BLUE)) == Ok(()));
    assert!(rt; is_damage(&scene, 1, &[rect(1, 1, 3, 2)]));
    assert!(rt; scene.show(1) == Ok(()));
    scene.flush();
    assert!(rt; scene.place(2, rect(10, 5, 3, 2)) == Ok(()));
    assert!(rt; is_damage(&scene, 1, &[rect(1, 1, 3, 2), rect(10, 5, 3, 2)]));
    scene.flush();
    assert!(rt; scene.fill(2, Colour(RED)) == Ok(()));
    assert!(rt; is_damage(&scene, 1, &[rect(10, 5, 3, 2)]));
    assert!(rt; scene.place(2, rect(11, 5, 3, 2)) == Ok(()));
    assert!(rt; is_damage(&scene, 1, &[rect(10, 5, 3, 2), rect(13, 5, 1, 2)]));
    scene.flush();
    assert!(rt; scene.add(3, 1, rect(20, 0, 5, 5), Colour(RED)) == Ok(()));
    assert!(rt; scene.place(3, rect(-5, 9, 5, 5)) == Ok(()));
    assert!(rt; is_damage(&scene, 1, &[]));
    assert!(rt; scene.place(3, rect(-2, 9, 3, 7)) == Ok(()));
    assert!(rt; is_damage(&scene, 1, &[rect(0, 9, 1, 1)]));
    assert!(rt; scene.place(1, rect(0, 0, 20, 10)) == Ok(()));
    assert!(rt; is_damage(&scene, 1, &[rect(0, 9, 1, 1)]));
    assert!(rt; scene.place(1, rect(0, 0, 20, 9)) == Ok(()));
    assert!(rt; is_damage(&scene, 1, &[rect(0, 0, 20, 9)]));
}

#[test]
fn a_fault_leaves_the_scene(rt: HostRuntime) {
    let mut scene = Scene::new(rt.alloc());
    let all = rect(0, 0, 4096, 2048);
    assert!(rt; scene.top(1, rect(0, 0, 16384, 6144), Colour(GREEN)) == Err(Limit));
    assert!(rt; scene.window(1) == None);
    assert!(rt; scene.top(1, all, Colour(GREEN)) == Ok(()));
    assert!(rt; scene.top(2, rect(0, 0, 1, 1), Colour(GREEN)) == Err(Limit));
    assert!(rt; scene.top(1, rect(0, 0, 1, 1), Colour(GREEN)) == Err(Exists));
    assert!(rt; scene.place(1, rect(0, 0, 4097, 2048)) == Err(Limit));
    assert!(rt; scene.add(5, 1, rect(0, 0, 1, 1), Colour(RED)) == Ok(()));
    assert!(rt; scene.add(1, 9, rect(0, 0, 9, 9), Colour(BLUE)) == Err(Unknown));
    assert!(rt; scene.add(5, 1, rect(0, 0, 9, 9), Colour(BLUE)) == Err(Exists));
    assert!(rt; scene.add(1, 5, rect(0, 0, 9, 9), Colour(BLUE)) == Err(Exists));
    assert!(rt; scene.show(5) == Err(Unknown) && scene.hide(5) == Err(Unknown));
    assert!(rt; scene.place(9, all) == Err(Unknown));
    assert!(rt; scene.window(1) == Some(all) && scene.window(2) == None && is_shown(&scene, &[]));
    assert!(rt; is_damage(&scene, 1, &[rect(0, 0, 1, 1)]));
    assert!(rt; is_row(&scene, 1, 0, 0, &[RED, GREEN]));
}

// Puts boxes 2 to 65 into each other, each one a pixel to the right, with their ids as colours.
fn nest(scene: &mut Scene) -> bool {
    for id in 2..=65u32 {
        if scene.add(id, id - 1, rect(1, 0, 99, 1), Colour(id)) != Ok(()) {
            return false;
        }
    }
    true
}

#[test]
fn boxes_lie_64_levels_deep(rt: HostRuntime) {
    let mut scene = Scene::new(rt.alloc());
    assert!(rt; scene.top(1, rect(0, 0, 66, 1), Colour(GREEN)) == Ok(()));
    assert!(rt; nest(&mut scene));
    let next = rect(1, 0, 1, 1);
    assert!(rt; scene.add(66, 65, next, Colour(RED)) == Err(Limit));
    assert!(rt; is_row(&scene, 1, 62, 0, &[63, 64, 65, 65]));
    assert!(rt; scene.add(66, 64, next, Colour(RED)) == Ok(()));
    assert!(rt; is_row(&scene, 1, 62, 0, &[63, 64, RED, 65]));
}

#[test]
fn windows_shown_again_come_last(rt: HostRuntime) {
    let mut scene = Scene::new(rt.alloc());
    let place = rect(0, 0, 3, 3);
    let all = [place];
    assert!(rt; scene.top(1, place, Colour(RED)) == Ok(()));
    assert!(rt; scene.top(2, place, Colour(RED)) == Ok(()));
    assert!(rt; scene.top(3, place, Colour(RED)) == Ok(()));
    assert!(rt; scene.show(2) == Ok(()) && scene.show(1) == Ok(()) && scene.show(3) == Ok(()));
    assert!(rt; scene.show(2) == Ok(()) && is_shown(&scene, &[2, 1, 3]));
    assert!(rt; scene.hide(2) == Ok(()) && scene.hide(2) == Ok(()) && is_shown(&scene, &[1, 3]));
    scene.flush();
    assert!(rt;
        is_damage(&scene, 1, &[]) && is_damage(&scene, 2, &all) && is_damage(&scene, 3, &[])
    );
    assert!(rt; scene.show(2) == Ok(()) && is_shown(&scene, &[1, 3, 2]));
    assert!(rt; scene.remove(1) == Ok(()) && is_shown(&scene, &[3, 2]));
}
