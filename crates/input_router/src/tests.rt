// Two windows that overlap, and what their user does. The desktop has borders of one pixel.
ghost use Rattle.std.specs.Prelude.{Some, None, if◌then◌else◌};
ghost use Rattle.gui_num.specs.Rects.{grown};
ghost use Rattle.desk_laws.specs.Rows.{same_row};
ghost use Rattle.desk_laws.specs.Ranges.{IsPlace};
ghost use Rattle.input_router.specs.Routes.{HasPixel};
ghost use Rattle.input_router.specs.SeatView.{IsPixel};

use super::*;
use desk_laws::{GIn, Item, RowId};
use gui_num::{NoMemory, Rect, grow};
use stacking::Stacking;
use std::alloc::Global;

const A: RowId = RowId {
    guest: 0,
    window: 1,
};

const B: RowId = RowId {
    guest: 1,
    window: 1,
};

#[derive(Drop)]
struct Window {
    place: Rect,
    shown: bool,
    over: bool,
    ghost in_range: { IsPlace place },
}

// The windows A and B.
#[derive(Drop)]
struct Windows {
    a: Window,
    b: Window,
}

impl Places for Windows {
    ghost use Rattle.input_router.specs.declared.tests.TheConstants.{A, B};

    ghost spots = { λ t. λ id. if same_row id A then Some (record { place = t.a.place; outer = grown t.a.place 1; shown = t.a.shown; over = t.a.over })
        else if same_row id B then Some (record { place = t.b.place; outer = grown t.b.place 1; shown = t.b.shown; over = t.b.over }) else None };

    fn place(&self, id: RowId) -> Option<Rect> {
        if id == A {
            Some(self.a.place)
        } else if id == B {
            Some(self.b.place)
        } else {
            None
        }
    }

    fn outer(&self, id: RowId) -> Option<Rect> {
        if id == A {
            Some(grow(self.a.place, 1))
        } else if id == B {
            Some(grow(self.b.place, 1))
        } else {
            None
        }
    }

    fn shown(&self, id: RowId) -> bool {
        if id == A {
            self.a.shown
        } else if id == B {
            self.b.shown
        } else {
            false
        }
    }

    fn over(&self, id: RowId) -> bool {
        if id == A {
            self.a.over
        } else if id == B {
            self.b.over
        } else {
            false
        }
    }
}

// A at (10, 10) and B at (20, 12), each 20 by 10.
fn two() -> Windows {
    Windows {
        a: Window {
            place: Rect {
                x: 10,
                y: 10,
                w: 20,
                h: 10,
            },
            shown: true,
            over: false,
        },
        b: Window {
            place: Rect {
                x: 20,
                y: 12,
                w: 20,
                h: 10,
            },
            shown: true,
            over: false,
        },
    }
}

// What a deliverer was handed.
#[derive(Clone, Copy, Debug, PartialEq, Eq)]
enum Told {
    Nothing,
    Granted(RowId, GIn),
    Asked(RowId),
    Pasted(RowId),
}

// The first six deliveries.
#[derive(Drop)]
struct Log {
    told: [Told; 6],
    count: usize,
}

impl Log {
    fn new() -> Self {
        Log {
            told: [Told::Nothing; 6],
            count: 0,
        }
    }

    fn note(&mut self, told: Told) {
        if self.count < 6 {
            self.told[self.count] = told;
            self.count += 1;
        }
    }

    // What was told since the last time.
    fn take(&mut self) -> [Told; 6] {
        let told = self.told;
        *self = Log::new();
        told
    }
}

impl Deliver for Log {
    ghost delivers = { λ before delivery after. Unit {0} };

    fn grant(&mut self, id: RowId, g: &GIn) {
        self.note(Told::Granted(id, *g));
    }

    fn ask(&mut self, id: RowId) {
        self.note(Told::Asked(id));
    }

    fn paste(&mut self, id: RowId) {
        self.note(Told::Pasted(id));
    }
}

// These first, and nothing more.
fn only(first: &[Told]) -> [Told; 6] {
    let mut all = [Told::Nothing; 6];
    for i in 0..first.len() {
        if i < 6 {
            all[i] = first[i];
        }
    }
    all
}

fn focus(id: RowId, gained: bool) -> Told {
    let window = id.window;
    Told::Granted(id, GIn::Focus { window, gained })
}

fn keymap(id: RowId) -> Told {
    Told::Granted(id, GIn::Keymap)
}

fn crossing(id: RowId, enter: bool, x: i32, y: i32, focus: bool) -> Told {
    let window = id.window;
    Told::Granted(
        id,
        GIn::Crossing {
            window,
            enter,
            x,
            y,
            focus,
        },
    )
}

fn motion(id: RowId, x: i32, y: i32) -> Told {
    let window = id.window;
    Told::Granted(
        id,
        GIn::Motion {
            window,
            x,
            y,
            state: 0,
        },
    )
}

fn button(id: RowId, down: bool, x: i32, y: i32, button: u8) -> Told {
    let window = id.window;
    Told::Granted(
        id,
        GIn::Button {
            window,
            down,
            x,
            y,
            state: 0,
            button,
        },
    )
}

fn key(id: RowId, down: bool, code: u8) -> Told {
    let window = id.window;
    Told::Granted(
        id,
        GIn::Key {
            window,
            down,
            code,
            state: 0,
        },
    )
}

// A desktop of A and B, B being on top and A having the focus, with its router.
#[derive(Drop)]
struct Desk {
    stack: Stacking,
    rows: Windows,
    router: Router,
    log: Log,
}

impl Desk {
    fn new(alloc: Global) -> Result<Self, NoMemory> {
        let mut stack = Stacking::new(alloc, 2)?;
        stack.enter(A, false);
        stack.enter(B, false);
        Ok(Desk {
            stack,
            rows: two(),
            router: Router::new(),
            log: Log::new(),
        })
    }

    // Takes an event, with focus and hover as last told, and answers what came of it.
    fn taken(&mut self, item: Item) -> Taken
        requires { HasPixel item }
    {
        self.router
            .take(&item, &mut self.stack, &self.rows, &mut self.log)
    }

    // Routes an event, and answers what was told.
    fn route(&mut self, item: Item) -> [Told; 6]
        requires { HasPixel item }
    {
        self.router
            .route(&item, &mut self.stack, &self.rows, &mut self.log);
        self.log.take()
    }

    // Settles, and answers what was told.
    fn settle(&mut self) -> [Told; 6] {
        self.router.settle(&self.stack, &self.rows, &mut self.log);
        self.log.take()
    }

    // Settles with this hover, and answers what was told.
    fn settle_at(&mut self, hover: Option<RowId>) -> [Told; 6] {
        self.router
            .settle_at(hover, &self.stack, &self.rows, &mut self.log);
        self.log.take()
    }

    fn point(&mut self, x: i32, y: i32) -> [Told; 6]
        requires { IsPixel (record { x = x; y = y }) }
    {
        self.route(Item::Move { x, y, state: 0 })
    }

    fn press(&mut self, down: bool, button: u8) -> [Told; 6] {
        self.route(Item::Press {
            down,
            button,
            state: 0,
        })
    }

    fn key(&mut self, down: bool, code: u8, state: u16) -> [Told; 6] {
        self.route(Item::Key { down, code, state })
    }
}

// B is clicked at (25, 15), the pixel (5, 3) of its content: it is raised, and has the focus then.
#[test]
fn a_click(rt: HostRuntime) -> Result<(), NoMemory> {
    let mut desk = Desk::new(rt.alloc())?;
    assert_eq!(rt; desk.settle(), only(&[focus(A, true), keymap(A)]));
    assert_eq!(rt; desk.point(25, 15), only(&[]));
    assert_eq!(rt; desk.settle(), only(&[crossing(B, true, 5, 3, false)]));
    assert_eq!(rt; desk.press(true, 1), only(&[button(B, true, 5, 3, 1)]));
    assert_eq!(rt;
        desk.settle(),
        only(&[focus(A, false), focus(B, true), keymap(B)])
    );
    assert_eq!(rt; desk.press(false, 1), only(&[button(B, false, 5, 3, 1)]));
    assert_eq!(rt; desk.settle(), only(&[]));
    assert_eq!(rt;
        (desk.router.focus(), desk.router.hover()),
        (Some(B), Some(B))
    );
    Ok(())
}

// B is grabbed, and the pointer goes to A: all is told to B until both buttons are released.
#[test]
fn a_grab(rt: HostRuntime) -> Result<(), NoMemory> {
    let mut desk = Desk::new(rt.alloc())?;
    desk.point(25, 15);
    desk.press(true, 1);
    desk.settle();
    assert_eq!(rt; desk.point(12, 11), only(&[motion(B, -8, -1)]));
    assert_eq!(rt; desk.press(true, 3), only(&[button(B, true, -8, -1, 3)]));
    assert_eq!(rt; desk.press(false, 2), only(&[]));
    assert_eq!(rt; desk.press(false, 1), only(&[button(B, false, -8, -1, 1)]));
    assert_eq!(rt; desk.settle(), only(&[]));
    assert_eq!(rt; desk.press(false, 3), only(&[button(B, false, -8, -1, 3)]));
    assert_eq!(rt;
        desk.settle(),
        only(&[
            crossing(B, false, -8, -1, true),
            crossing(A, true, 2, 1, false)
        ])
    );
    Ok(())
}

// A key that was pressed for A is released when B has the focus; and the chord of the copy.
#[test]
fn keys_and_the_focus(rt: HostRuntime) -> Result<(), NoMemory> {
    let mut desk = Desk::new(rt.alloc())?;
    desk.settle();
    assert_eq!(rt; desk.key(true, 38, 0), only(&[key(A, true, 38)]));
    assert_eq!(rt; desk.route(Item::Next), only(&[]));
    assert_eq!(rt;
        desk.settle(),
        only(&[focus(A, false), focus(B, true), keymap(B)])
    );
    assert_eq!(rt; desk.key(false, 38, 0), only(&[]));
    assert_eq!(rt; desk.key(true, 39, 0), only(&[key(B, true, 39)]));
    assert_eq!(rt; desk.key(false, 39, 0), only(&[key(B, false, 39)]));
    assert_eq!(rt; desk.key(true, 54, 5), only(&[Told::Asked(B)]));
    assert_eq!(rt; desk.key(false, 54, 5), only(&[]));
    Ok(())
}

// What came of an event that changed no place.
fn came(raised: Option<RowId>, settled: bool) -> Taken {
    Taken {
        raised,
        changed: None,
        settled,
        hover: None,
    }
}

// What came of a move that found this hover.
fn found(hover: Option<RowId>, settled: bool) -> Taken {
    Taken {
        raised: None,
        changed: None,
        settled,
        hover,
    }
}

// A button goes down, and comes up again.
fn click(desk: &mut Desk) -> Taken {
    let pressed = desk.taken(Item::Press {
        down: true,
        button: 1,
        state: 0,
    });
    desk.settle();
    desk.press(false, 1);
    pressed
}

// A row is named each time that it is raised, also where it is on top; a move answers the hover that it
// finds, and is settled where that stays.
#[test]
fn what_came_of_events(rt: HostRuntime) -> Result<(), NoMemory> {
    let mut desk = Desk::new(rt.alloc())?;
    desk.settle();
    let enters = Item::Move {
        x: 25,
        y: 15,
        state: 0,
    };
    assert_eq!(rt; desk.taken(enters), found(Some(B), false));
    desk.settle();
    assert_eq!(rt; desk.taken(enters), found(Some(B), true));
    assert_eq!(rt; click(&mut desk), came(Some(B), false));
    assert_eq!(rt; click(&mut desk), came(Some(B), false));
    assert_eq!(rt; desk.taken(Item::Next), came(Some(A), false));
    let key = Item::Key {
        down: true,
        code: 38,
        state: 0,
    };
    assert_eq!(rt; desk.taken(key), came(None, true));
    Ok(())
}

// The pointer goes from B to A and then to neither, and each time the hover that was found is told.
#[test]
fn the_hover_that_a_move_found(rt: HostRuntime) -> Result<(), NoMemory> {
    let mut desk = Desk::new(rt.alloc())?;
    desk.point(25, 15);
    desk.settle();
    let to_a = desk.taken(Item::Move {
        x: 12,
        y: 11,
        state: 0,
    });
    assert_eq!(rt; to_a, found(Some(A), false));
    assert_eq!(rt;
        desk.settle_at(to_a.hover),
        only(&[
            crossing(B, false, -8, -1, false),
            crossing(A, true, 2, 1, true)
        ])
    );
    let away = desk.taken(Item::Move {
        x: 12,
        y: 40,
        state: 0,
    });
    assert_eq!(rt; away, found(None, false));
    assert_eq!(rt;
        desk.settle_at(away.hover),
        only(&[crossing(A, false, 2, 30, true)])
    );
    assert_eq!(rt; desk.router.hover(), None);
    Ok(())
}

fn place(id: RowId, rect: Rect) -> Told {
    let window = id.window;
    Told::Granted(id, GIn::Place { window, rect })
}

// Commands for A, which has the focus; then A is hidden, and shown again.
#[test]
fn commands(rt: HostRuntime) -> Result<(), NoMemory> {
    let mut desk = Desk::new(rt.alloc())?;
    let moved = Rect {
        x: 32767,
        y: -5,
        w: 20,
        h: 10,
    };
    let sized = Rect {
        x: 10,
        y: 10,
        w: 1,
        h: 6144,
    };
    desk.settle();
    assert_eq!(rt;
        desk.route(Item::MoveTo { x: 40000, y: -5 }),
        only(&[place(A, moved)])
    );
    assert_eq!(rt;
        desk.route(Item::SizeTo { w: -3, h: 9000 }),
        only(&[place(A, sized)])
    );
    assert_eq!(rt;
        desk.route(Item::Close),
        only(&[Told::Granted(A, GIn::Close { window: 1 })])
    );
    desk.rows.a.shown = false;
    assert_eq!(rt;
        desk.settle(),
        only(&[focus(A, false), focus(B, true), keymap(B)])
    );
    assert_eq!(rt;
        desk.route(Item::Restore),
        only(&[Told::Granted(A, GIn::Restored { window: 1 })])
    );
    Ok(())
}
