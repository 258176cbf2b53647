// The scene and its calls.
ghost use Rattle.std.specs.Prelude.{◌≡◌, ℕ, ◌+◌, ◌<◌, [], length, Some, OnOk, OnErr, IfSome, slice_get, slice_index, option_map, option_and_then};
ghost use Rattle.std.specs.Option.{ForSome};
ghost use Rattle.agent_tree.specs.Frames.{IsPlace, IsPart};
ghost use Rattle.agent_tree.specs.Views.{TopView, SceneView};
ghost use Rattle.agent_tree.specs.Scenes.{Answers, HasRow, pixel, top_of, whole, topped, added, placed, filled, removed, showed, hidden, flushed, top_fault, add_fault, place_fault, use_fault, show_fault};

use crate::adds::{add_child, add_inside, add_top};
use crate::boxes::SceneBox;
use crate::edits::{BoxEdit, edit_box, place_top, remove_box};
use crate::fault::SceneFault;
use crate::ids::{drop_id, put_id};
use crate::top::Top;
use crate::tops::{clear_all, is_top, top_at};
use gui_num::{Colour, Rect};
use std::alloc::Global;
use std::marker::Model;

/// Top windows, each with its tree of boxes, and the damage of each: the pixels whose colour changed since the last
/// flush. It is seen as the list of its windows, each with its boxes in preorder, and the ids of those that are shown.
///
/// Ids are above 0, and no two windows or boxes have the same. Places are rectangles in pixels with x and y in -32768 to
/// 32767, a width of 1 to 16384 and a height of 1 to 6144; that of a box counts from the upper left corner of what it
/// lies in. After an error the scene is as before.
#[derive(Drop)]
pub struct Scene {
    alloc: Global,
    tops: Vec<Top>,
    shown: Vec<u32>,
}

impl Model for Scene {
    ghost use Rattle.agent_tree.specs.Views.{SceneView};
    ghost use Rattle.agent_tree.specs.Limits.{IsScene};

    ghost Value = { SceneView };

    ghost view = { λ s. record { tops = s.tops.items; shown = s.shown.items } };

    ghost invariant = { λ s. IsScene s.tops.items };
}

impl Scene {
    /// A scene without windows. It takes no memory.
    pub fn new(alloc: Global) -> Scene
        ensures { result ≡ record { tops = []; shown = [] } }
    {
        Scene {
            alloc,
            tops: Vec::new(alloc),
            shown: Vec::new(alloc),
        }
    }

    /// Adds a top window, the last one, which has no boxes and isn't shown.
    ///
    /// `Exists` exactly where the id is in use, and else `Limit` exactly where there would be more than 1024 windows, or
    /// they would take more than 8192 pages of 1024 pixels, each in its own, or 4096 tiles of 64 by 64 pixels.
    pub fn top(&mut self, id: u32, r: Rect, c: Colour) -> Result<(), SceneFault>
        requires { IsPlace r }
        ensures done { OnOk result (self.new ≡ topped id r c self.old) }
        ensures fault { Answers result (top_fault id r self.old) }
        ensures same { OnErr result (self.new ≡ self.old) }
    {
        add_top(&mut self.tops, self.alloc, id, r, c)
    }

    /// Adds a box as the last child of a window or a box. Its place counts from the upper left corner of this one. What
    /// shows of it is damaged.
    ///
    /// `Unknown` exactly where nothing has the parent's id, else `Exists` exactly where the id is in use, and else `Limit`
    /// exactly where there would be more than 65,536 boxes, or this one would lie more than 64 levels deep.
    pub fn add(&mut self, id: u32, parent: u32, r: Rect, c: Colour) -> Result<(), SceneFault>
        requires { IsPlace r }
        ensures done { OnOk result (self.new ≡ added id parent r c self.old) }
        ensures fault { Answers result (add_fault id parent self.old) }
        ensures same { OnErr result (self.new ≡ self.old) }
    {
        let new = SceneBox {
            id,
            level: 1,
            place: r,
            colour: c,
        };
        if let Some(k) = top_at(&self.tops, parent) {
            return add_child(&mut self.tops, self.alloc, k, new);
        }
        add_inside(&mut self.tops, self.alloc, parent, new)
    }

    /// Gives a window or a box another place. A window of another size is damaged whole, and one that only moved not at
    /// all; of a box what showed before and what shows now is damaged.
    ///
    /// `Unknown` exactly where nothing has the id, and else `Limit` exactly where the windows would take too many pages
    /// or tiles.
    pub fn place(&mut self, id: u32, r: Rect) -> Result<(), SceneFault>
        requires { IsPlace r }
        ensures done { OnOk result (self.new ≡ placed id r self.old) }
        ensures fault { Answers result (place_fault id r self.old) }
        ensures same { OnErr result (self.new ≡ self.old) }
    {
        if let Some(k) = top_at(&self.tops, id) {
            return place_top(&mut self.tops, k, r);
        }
        edit_box(&mut self.tops, self.alloc, id, BoxEdit::Place(r))
    }

    /// Gives a window or a box another colour. A window is damaged whole, and of a box what shows.
    ///
    /// `Unknown` exactly where nothing has the id.
    pub fn fill(&mut self, id: u32, c: Colour) -> Result<(), SceneFault>
        ensures done { OnOk result (self.new ≡ filled id c self.old) }
        ensures fault { Answers result (use_fault id self.old) }
        ensures same { OnErr result (self.new ≡ self.old) }
    {
        if let Some(k) = top_at(&self.tops, id) {
            let top = &mut self.tops[k];
            top.fill(c);
            return Ok(());
        }
        edit_box(&mut self.tops, self.alloc, id, BoxEdit::Fill(c))
    }

    /// Takes out a window, or a box and what showed of it, with all that lies in it.
    ///
    /// `Unknown` exactly where nothing has the id.
    pub fn remove(&mut self, id: u32) -> Result<(), SceneFault>
        ensures done { OnOk result (self.new ≡ removed id self.old) }
        ensures fault { Answers result (use_fault id self.old) }
        ensures same { OnErr result (self.new ≡ self.old) }
    {
        if let Some(k) = top_at(&self.tops, id) {
            self.tops.remove(k);
            drop_id(&mut self.shown, id);
            return Ok(());
        }
        remove_box(&mut self.tops, self.alloc, id)
    }

    /// Shows a window, behind those that are shown if it isn't yet, and damages it whole.
    ///
    /// `Unknown` exactly where no window has the id.
    pub fn show(&mut self, id: u32) -> Result<(), SceneFault>
        ensures done { OnOk result (self.new ≡ showed id self.old) }
        ensures fault { Answers result (show_fault id self.old) }
        ensures same { OnErr result (self.new ≡ self.old) }
    {
        let Some(k) = top_at(&self.tops, id) else {
            return Err(SceneFault::Unknown);
        };
        if put_id(&mut self.shown, id).is_err() {
            return Err(SceneFault::NoMemory);
        }
        let top = &mut self.tops[k];
        top.spoil();
        Ok(())
    }

    /// Hides a window. One that isn't shown stays as it is.
    ///
    /// `Unknown` exactly where no window has the id.
    pub fn hide(&mut self, id: u32) -> Result<(), SceneFault>
        ensures done { OnOk result (self.new ≡ hidden id self.old) }
        ensures fault { Answers result (show_fault id self.old) }
        ensures same { OnErr result (self.new ≡ self.old) }
    {
        if !is_top(&self.tops, id) {
            return Err(SceneFault::Unknown);
        }
        drop_id(&mut self.shown, id);
        Ok(())
    }

    /// The k-th shown window from 0, in the order in which they became shown. `None` exactly where there are at most k.
    pub fn shown(&self, k: usize) -> Option<u32>
        ensures { result ≡ slice_get self.now.shown k }
    {
        self.shown.get(k).copied()
    }

    /// The place of a top window, `None` exactly where none has the id.
    pub fn window(&self, id: u32) -> Option<Rect>
        ensures is { result ≡ option_map (λ t. t.place) (top_of self.now id) }
        ensures range { ForSome result IsPlace }
    {
        let Some(k) = top_at(&self.tops, id) else {
            return None;
        };
        let top = &self.tops[k];
        Some(top.place())
    }

    /// The k-th rectangle of a window's damage from 0, in the window's own pixels. It has pixels, and they lie in the
    /// window. `None` exactly where there are at most k, or no window has the id. The damage of a window that isn't shown
    /// is noted as well, until it is shown.
    pub fn damage(&self, id: u32, k: usize) -> Option<Rect>
        ensures is { result ≡ option_and_then (λ t. slice_get t.damage k) (top_of self.now id) }
        ensures part { ForSome result (λ r. IfSome (top_of self.now id) (λ t. IsPart (whole t.place) r)) }
    {
        let Some(at) = top_at(&self.tops, id) else {
            return None;
        };
        let top = &self.tops[at];
        top.damage(k)
    }

    /// The colour of a window's pixel in column `x` and row `y`, from its upper left corner. `None` exactly outside of the
    /// window, or where none has the id.
    pub fn colour_at(&self, id: u32, x: u32, y: u32) -> Option<Colour>
        ensures { result ≡ pixel self.now id x y }
    {
        let Some(k) = top_at(&self.tops, id) else {
            return None;
        };
        let top = &self.tops[k];
        top.colour_at(x, y)
    }

    /// Writes the colours of as many pixels of a window as there is room for, from column `x` of row `y` on. They lie in
    /// the window: ask `window` for its size.
    pub fn read_row(&self, id: u32, x: u32, y: u32, room: &mut [u32])
        requires { HasRow self.now id x y (length room.old) }
        ensures { (k : ℕ) → k < length room.old → pixel self.now id (x + k) y ≡ Some (record { 0 = slice_index room.new k }) }
    {
        if let Some(k) = top_at(&self.tops, id) {
            let top = &self.tops[k];
            top.read_row(x, y, room);
        }
    }

    /// Takes the damage off the shown windows. All else stays.
    pub fn flush(&mut self)
        ensures { self.new ≡ flushed self.old }
    {
        clear_all(&mut self.tops, &self.shown);
    }
}
