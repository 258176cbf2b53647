// A table of small numbers, with memory in plenty.
ghost use Rattle.std.specs.Prelude.{◌≡◌};

use super::*;
use desk_laws::{Ids, MAX_WINDOWS};
use gui_num::Rect;
use gui_wire::Refs;
use std::test::Fail;

const PLACE: Rect = Rect {
    x: 3,
    y: -4,
    w: 50,
    h: 60,
};

// Adds a window where there is room for it.
fn put(table: &mut Table, window: u32, parent: u32) -> Option<u32>
    ensures { table.new.pages ≡ table.old.pages }
{
    if table.slot_of(window).is_some() || table.len() >= MAX_WINDOWS {
        return None;
    }
    Some(table.add(window, PLACE, parent, true))
}

// The parent of a window.
fn parent_of(table: &Table, window: u32) -> Option<u32> {
    let slot = table.slot_of(window)?;
    Some(table.get(slot).parent)
}

// Removes a window that is there.
fn take(table: &mut Table, window: u32) -> bool {
    match table.slot_of(window) {
        Some(slot) => {
            table.remove(slot);
            true
        }
        None => false,
    }
}

// Makes a window transient for another, and maps it.
fn mark(table: &mut Table, window: u32, transient: u32) -> bool {
    match table.slot_of(window) {
        Some(slot) => {
            let pane = table.get_mut(slot);
            pane.transient = transient;
            pane.mapped = true;
            true
        }
        None => false,
    }
}

// Which window a window is transient for, and whether it is mapped.
fn marks(table: &Table, window: u32) -> Option<(u32, bool)> {
    let slot = table.slot_of(window)?;
    let pane = table.get(slot);
    Some((pane.transient, pane.mapped))
}

// Gives a window a dump with these references, where 8 suffice, and reads the second back.
fn give(table: &mut Table, window: u32, refs: &Refs<'_>) -> Option<u32>
    requires { table.old.pages ≡ 8 }
    ensures { table.new.pages ≡ 8 }
{
    let slot = table.slot_of(window)?;
    if refs.count() < 2 || refs.count() > 8 || table.refs_besides(window) + refs.count() > 8 {
        return None;
    }
    table.set_refs(slot, refs, 7, 9);
    Some(table.ref_at(slot, 1))
}

// The window and the size of the dump at a window's slot.
fn shown(table: &Table, window: u32) -> Option<(u32, Option<DumpSize>)> {
    let slot = table.slot_of(window)?;
    Some((table.window_at(slot), table.dump_at(slot)))
}

// The window that was added as the number i, counted from 0, of those that are there.
fn nth(table: &Table, i: u32) -> Option<u32> {
    if i >= table.len() {
        return None;
    }
    Some(table.window_at(table.nth_slot(i)))
}

// What a check of a message sees of a window.
fn seen<I: Ids>(ids: &I, window: u32) -> (bool, u32, u32) {
    (ids.known(window), ids.count(), ids.refs_besides(window))
}

#[test]
fn holds_so_many_windows(rt: HostRuntime) -> Result<(), Fail> {
    let mut table = Table::new(rt.alloc(), 8)?;
    assert_eq!(rt; table.pages(), 8);
    assert_eq!(rt; table.len(), 0);
    let mut added = 0;
    for window in 1..1100u32 {
        if put(&mut table, window, 0).is_some() {
            added = 1u32.saturating_add(added);
        }
    }
    assert_eq!(rt; added, 1024);
    assert_eq!(rt; table.len(), 1024);
    assert!(rt; table.slot_of(1024).is_some());
    assert!(rt; table.slot_of(1025).is_none());
    assert!(rt; take(&mut table, 500));
    assert!(rt; !take(&mut table, 500));
    assert_eq!(rt; table.len(), 1023);
    assert!(rt; put(&mut table, 1025, 0).is_some());
    assert_eq!(rt; seen(&table, 1025), (true, 1024, 0));
    table.clear();
    assert_eq!(rt; seen(&table, 1025), (false, 0, 0));
    Ok(())
}

#[test]
fn forgets_who_is_gone(rt: HostRuntime) -> Result<(), Fail> {
    let mut table = Table::new(rt.alloc(), 8)?;
    assert!(rt; put(&mut table, 1, 0).is_some());
    assert!(rt; put(&mut table, 2, 1).is_some());
    assert!(rt; put(&mut table, 3, 2).is_some());
    assert!(rt; mark(&mut table, 3, 1));
    assert_eq!(rt; marks(&table, 3), Some((1, true)));
    assert_eq!(rt; marks(&table, 2), Some((0, false)));
    assert!(rt; take(&mut table, 1));
    assert_eq!(rt; (nth(&table, 0), nth(&table, 1)), (Some(2), Some(3)));
    assert_eq!(rt; (nth(&table, 2), parent_of(&table, 1)), (None, None));
    assert_eq!(rt; parent_of(&table, 2), Some(0));
    assert_eq!(rt; parent_of(&table, 3), Some(2));
    assert_eq!(rt; marks(&table, 3), Some((0, true)));
    Ok(())
}

#[test]
fn keeps_references(rt: HostRuntime) -> Result<(), Fail> {
    let mut table = Table::new(rt.alloc(), 8)?;
    assert!(rt; put(&mut table, 1, 0).is_some());
    assert!(rt; put(&mut table, 2, 0).is_some());
    assert_eq!(rt;
        give(
            &mut table,
            1,
            &Refs::new(&[5, 0, 0, 0, 6, 0, 0, 0, 7, 0, 0, 0])
        ),
        Some(6)
    );
    assert_eq!(rt;
        give(&mut table, 2, &Refs::new(&[8, 0, 0, 0, 9, 0, 0, 0])),
        Some(9)
    );
    assert_eq!(rt; seen(&table, 1), (true, 2, 2));
    assert_eq!(rt; seen(&table, 2), (true, 2, 3));
    assert_eq!(rt; seen(&table, 3), (false, 2, 5));
    assert_eq!(rt;
        shown(&table, 2),
        Some((
            2,
            Some(DumpSize {
                width: 7,
                height: 9
            })
        ))
    );
    assert_eq!(rt; give(&mut table, 1, &Refs::new(&[1; 28])), None);
    assert!(rt; take(&mut table, 1));
    assert_eq!(rt; seen(&table, 9), (false, 1, 2));
    assert_eq!(rt; shown(&table, 1), None);
    Ok(())
}

// Puts these windows in this order.
fn put_all(table: &mut Table, windows: &[u32]) {
    for window in windows {
        put(table, *window, 0);
    }
}

// Whether each of these windows is found at a slot of its own.
fn finds_all(table: &Table, windows: &[u32]) -> bool {
    for window in windows {
        if shown(table, *window) != Some((*window, None)) {
            return false;
        }
    }
    true
}

#[test]
fn finds_windows_in_any_order(rt: HostRuntime) -> Result<(), Fail> {
    let mut table = Table::new(rt.alloc(), 8)?;
    put_all(&mut table, &[70, 20, 90, 0xffff_ffff, 10]);
    assert!(rt; finds_all(&table, &[10, 20, 70, 90, 0xffff_ffff]));
    assert!(rt; take(&mut table, 20));
    assert!(rt; table.slot_of(20).is_none());
    put_all(&mut table, &[80, 5]);
    assert!(rt; finds_all(&table, &[5, 10, 70, 80, 90, 0xffff_ffff]));
    assert_eq!(rt; nth(&table, 5), Some(5));
    Ok(())
}
