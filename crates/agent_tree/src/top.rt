// One top window, with its boxes and its damage.
ghost use Rattle.std.specs.Prelude.{◌≡◌, ℕ, ◌+◌, ◌<◌, ◌≤◌, ◌++◌, [], ◌∷◌, false, length, reverse, take, drop, IfOk, OnOk, OnErr, IfSome, IfNone, slice_get, slice_index_or, Some, None, if◌then◌else◌, nat_lt, ◌&&◌, pos};
ghost use Rattle.std.specs.List.{All};
ghost use Rattle.agent_tree.specs.Frames.{IsPlace, IsPart};
ghost use Rattle.agent_tree.specs.Paths.{IsSound, level_of};
ghost use Rattle.agent_tree.specs.Lists.{IsFirst};
ghost use Rattle.agent_tree.specs.Trees.{has_box, is_box, outer};
ghost use Rattle.agent_tree.specs.Scenes.{new_top, whole, colour_of, box_removed, top_placed, top_filled, spoilt, undamaged};
ghost use Rattle.agent_tree.specs.Edits.{replaced_at, inserted_at};
ghost use Rattle.agent_tree.specs.Rows.{IsPainted};
ghost use Rattle.agent_tree.specs.declared.boxes.SceneBox.{SceneBox};
ghost use Rattle.std.specs.Option.{ForSome};

use crate::boxes::{SceneBox, cut, end_of, index_of};
use crate::clip::{clip_of, clips_of};
use crate::damage::{add_change, add_whole, whole};
use crate::paint::paint_row;
use gui_num::{Colour, NoMemory, Rect};
use region_clip::Region;
use std::alloc::Global;
use std::marker::Model;

// A top window: its place on the desktop, its boxes in preorder, and the pixels that changed.
#[derive(Drop)]
pub(crate) struct Top {
    id: u32,
    place: Rect,
    colour: Colour,
    boxes: Vec<SceneBox>,
    damage: Region,
}

impl Model for Top {
    ghost use Rattle.agent_tree.specs.Views.{TopView};
    ghost use Rattle.agent_tree.specs.Edits.{IsTop};

    ghost Value = { TopView };

    ghost view = { λ t. record { id = t.id; place = t.place; colour = t.colour; boxes = t.boxes.items; damage = t.damage } };

    ghost invariant = { λ t. IsTop t.place t.boxes.items t.damage };
}

impl Top {
    pub(crate) fn new(alloc: Global, id: u32, place: Rect, colour: Colour) -> Result<Top, NoMemory>
        requires { IsPlace place }
        ensures { IfOk result (λ t. t ≡ new_top id place colour) }
    {
        let damage = Region::new(alloc)?;
        Ok(Top {
            id,
            place,
            colour,
            boxes: Vec::new(alloc),
            damage,
        })
    }

    pub(crate) fn id(&self) -> u32
        ensures { result ≡ self.now.id }
    {
        self.id
    }

    pub(crate) fn place(&self) -> Rect
        ensures is { result ≡ self.now.place }
        ensures range { IsPlace result }
    {
        self.place
    }

    // How many boxes there are.
    pub(crate) fn len(&self) -> usize
        ensures { result ≡ length self.now.boxes }
    {
        self.boxes.len()
    }

    // The index of the box with an id.
    pub(crate) fn index_of(&self, id: u32) -> Option<usize>
        ensures found { IfSome result (IsFirst (is_box id) self.now.boxes) }
        ensures none { IfNone result (has_box id self.now.boxes ≡ false) }
    {
        index_of(&self.boxes, id)
    }

    // The box with an index.
    pub(crate) fn get(&self, at: usize) -> SceneBox
        requires { at < length self.now.boxes }
        ensures is { slice_get self.now.boxes at ≡ Some result }
        ensures sound { IsSound result }
    {
        self.boxes[at]
    }

    // Puts another box of the same level in the place of one.
    pub(crate) fn replace(
        &mut self,
        alloc: Global,
        at: usize,
        new: SceneBox,
    ) -> Result<(), NoMemory>
        requires at { at < length self.old.boxes }
        requires sound { IsSound new }
        requires level { new.level ≡ (slice_index_or self.old.boxes at new).level }
        ensures done { OnOk result (self.new ≡ replaced_at at new self.old) }
        ensures same { OnErr result (self.new ≡ self.old) }
    {
        let old = self.boxes[at];
        let (before, after) = clips_of(alloc, &self.boxes, self.place, at, old, new)?;
        self.boxes[at] = new;
        add_change(&mut self.damage, self.place, before, after);
        Ok(())
    }

    // Puts a new box at an index.
    pub(crate) fn insert(&mut self, alloc: Global, at: usize, new: SceneBox) -> Result<(), NoMemory>
        requires at { at ≤ length self.old.boxes }
        requires room { length self.old.boxes < 65536 }
        requires sound { IsSound new }
        requires before { new.level ≤ level_of (reverse (take at self.old.boxes)) + 1 }
        requires behind { level_of (drop at self.old.boxes) ≤ new.level + 1 }
        ensures done { OnOk result (self.new ≡ inserted_at at new self.old) }
        ensures same { OnErr result (self.new ≡ self.old) }
    {
        let after = clip_of(alloc, &self.boxes, self.place, at, new)?;
        self.boxes.insert(at, new)?;
        add_change(&mut self.damage, self.place, None, after);
        Ok(())
    }

    // Takes out the box with an index, with all in it.
    pub(crate) fn remove(&mut self, alloc: Global, at: usize) -> Result<(), NoMemory>
        requires { at < length self.old.boxes }
        ensures done { OnOk result ((id : ℕ) → IsFirst (is_box id) self.old.boxes at → self.new ≡ box_removed id self.old) }
        ensures same { OnErr result (self.new ≡ self.old) }
    {
        let old = self.boxes[at];
        let before = clip_of(alloc, &self.boxes, self.place, at, old)?;
        let end = end_of(&self.boxes, at, old.level);
        cut(&mut self.boxes, at, end);
        add_change(&mut self.damage, self.place, before, None);
        Ok(())
    }

    // The index behind the last box that lies in one.
    pub(crate) fn end_of(&self, at: usize) -> usize
        requires { at < length self.now.boxes }
        ensures rest { (b : SceneBox) → slice_get self.now.boxes at ≡ Some b → drop result self.now.boxes ≡ outer b.level (drop (at + 1) self.now.boxes) }
        ensures within { result ≤ length self.now.boxes }
    {
        end_of(&self.boxes, at, self.boxes[at].level)
    }

    // Puts the window at another place. Where it has another size, it is damaged whole.
    pub(crate) fn put(&mut self, place: Rect)
        requires { IsPlace place }
        ensures { self.new ≡ top_placed place self.old }
    {
        let same = self.place.w == place.w && self.place.h == place.h;
        self.place = place;
        if !same {
            add_whole(&mut self.damage, place);
        }
    }

    // Gives the window another colour.
    pub(crate) fn fill(&mut self, colour: Colour)
        ensures { self.new ≡ top_filled colour self.old }
    {
        self.colour = colour;
        add_whole(&mut self.damage, self.place);
    }

    // Damages the whole window.
    pub(crate) fn spoil(&mut self)
        ensures { self.new ≡ spoilt self.old }
    {
        add_whole(&mut self.damage, self.place);
    }

    // Takes the damage off.
    pub(crate) fn clear(&mut self)
        ensures { self.new ≡ undamaged self.old }
    {
        self.damage.clear();
    }

    // The k-th rectangle of the damage.
    pub(crate) fn damage(&self, k: usize) -> Option<Rect>
        ensures is { result ≡ slice_get self.now.damage k }
        ensures part { ForSome result (IsPart (whole self.now.place)) }
    {
        if k < self.damage.count() {
            Some(self.damage.get(k))
        } else {
            None
        }
    }

    // Writes the colours of as many pixels as there is room for, from one on. They lie in a row of the window.
    pub(crate) fn read_row(&self, x: u32, y: u32, room: &mut [u32])
        requires { x + length room.old ≤ self.now.place.w }
        ensures { IsPainted (whole self.now.place) self.now.colour x y (reverse self.now.boxes) room.new }
    {
        paint_row(&self.boxes, whole(self.place), self.colour, x, y, room);
    }

    // The colour of a pixel, None exactly outside of the window.
    pub(crate) fn colour_at(&self, x: u32, y: u32) -> Option<Colour>
        ensures { result ≡ (if nat_lt x self.now.place.w && nat_lt y self.now.place.h then Some (colour_of self.now (record { x = pos x; y = pos y })) else None) }
    {
        if x >= self.place.w || y >= self.place.h {
            return None;
        }
        let mut one = [0];
        self.read_row(x, y, &mut one);
        Some(Colour(one[0]))
    }
}
