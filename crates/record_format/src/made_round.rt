// The items of one round of a made record.
ghost use Rattle.std.specs.Prelude.{◌≡◌, ◌≤◌, ◌++◌, length, OnOk, OnErr};
ghost use Rattle.io_ports.specs.Content.{Grows, GrowsPart};
ghost use Rattle.io_ports.specs.Counts.{HasCause};
ghost use Rattle.desk_laws.specs.Items.{FitsItem};
ghost use Rattle.record_format.specs.ItemSpellings.{item_spelling, fed_spelling, items_spelling};
ghost use Rattle.record_format.specs.MadeRecord.{next_seed, draw_of, store_item, move_item, click_items, key_items, kind_items, draw_items, snap_after};

use crate::item_out::put_item;
use crate::made_pieces::{place_bytes, report_bytes};
use desk_laws::Item;
use io_ports::{Failed, Sink};

// How many rounds come to a picture.
const ROUNDS_TO_A_SNAP: u32 = 1000;

// The seed behind another one.
pub(crate) fn next_seed(seed: u64) -> u64
    ensures { result ≡ next_seed seed }
{
    seed.wrapping_mul(6_364_136_223_846_793_005)
        .wrapping_add(1_442_695_040_888_963_407)
}

// What is drawn of a seed: its upper 31 bits.
pub(crate) fn draw_of(seed: u64) -> u32
    ensures { result ≡ draw_of seed }
{
    (seed / (1 << 33)) as u32
}

// A change of a word of a guest's frames.
fn put_store<K: Sink>(guest: u32, u: u32, draw: u32, out: &mut K) -> Result<(), Failed>
    requires { guest ≤ 3 }
    ensures ok { OnOk result (Grows (K.written out.old) (fed_spelling (store_item guest u draw)) (K.written out.new)) }
    ensures err { OnErr result (GrowsPart (K.written out.old) (fed_spelling (store_item guest u draw)) (K.written out.new)) }
    ensures keeps { K.keeps out.old out.new }
    ensures cause { HasCause (K.faults out.old) (K.faults out.new) result }
{
    let item = Item::Store {
        guest,
        delay: 0,
        page: u % 8,
        offset: 4 * (u / 8 % 1024),
    };
    put_item(&item, &draw.to_le_bytes(), out)
}

// A move of the pointer.
fn put_move<K: Sink>(u: u32, out: &mut K) -> Result<(), Failed>
    ensures ok { OnOk result (Grows (K.written out.old) (fed_spelling (move_item u)) (K.written out.new)) }
    ensures err { OnErr result (GrowsPart (K.written out.old) (fed_spelling (move_item u)) (K.written out.new)) }
    ensures keeps { K.keeps out.old out.new }
    ensures cause { HasCause (K.faults out.old) (K.faults out.new) result }
{
    let item = Item::Move {
        x: (u % 640) as i32,
        y: (u / 640 % 480) as i32,
        state: 0,
    };
    put_item(&item, &[], out)
}

// The left button, down or up.
fn put_press<K: Sink>(down: bool, out: &mut K) -> Result<(), Failed>
    ensures ok { OnOk result (Grows (K.written out.old) (item_spelling (Item.Press down 1 0) 0) (K.written out.new)) }
    ensures err { OnErr result (GrowsPart (K.written out.old) (item_spelling (Item.Press down 1 0) 0) (K.written out.new)) }
    ensures keeps { K.keeps out.old out.new }
    ensures cause { HasCause (K.faults out.old) (K.faults out.new) result }
{
    let item = Item::Press {
        down,
        button: 1,
        state: 0,
    };
    put_item(&item, &[], out)
}

// The left button, down and up again.
fn put_click<K: Sink>(out: &mut K) -> Result<(), Failed>
    ensures ok { OnOk result (Grows (K.written out.old) (items_spelling click_items) (K.written out.new)) }
    ensures err { OnErr result (GrowsPart (K.written out.old) (items_spelling click_items) (K.written out.new)) }
    ensures keeps { K.keeps out.old out.new }
    ensures cause { HasCause (K.faults out.old) (K.faults out.new) result }
{
    match put_press(true, out) {
        Ok(()) => put_press(false, out),
        Err(e) => Err(e),
    }
}

// The key, down or up.
fn put_key<K: Sink>(down: bool, out: &mut K) -> Result<(), Failed>
    ensures ok { OnOk result (Grows (K.written out.old) (item_spelling (Item.Key down 38 0) 0) (K.written out.new)) }
    ensures err { OnErr result (GrowsPart (K.written out.old) (item_spelling (Item.Key down 38 0) 0) (K.written out.new)) }
    ensures keeps { K.keeps out.old out.new }
    ensures cause { HasCause (K.faults out.old) (K.faults out.new) result }
{
    let item = Item::Key {
        down,
        code: 38,
        state: 0,
    };
    put_item(&item, &[], out)
}

// The key, down and up again.
fn put_stroke<K: Sink>(out: &mut K) -> Result<(), Failed>
    ensures ok { OnOk result (Grows (K.written out.old) (items_spelling key_items) (K.written out.new)) }
    ensures err { OnErr result (GrowsPart (K.written out.old) (items_spelling key_items) (K.written out.new)) }
    ensures keeps { K.keeps out.old out.new }
    ensures cause { HasCause (K.faults out.old) (K.faults out.new) result }
{
    match put_key(true, out) {
        Ok(()) => put_key(false, out),
        Err(e) => Err(e),
    }
}

// The items of a kind.
fn put_kind<K: Sink>(kind: u32, guest: u32, u: u32, draw: u32, out: &mut K) -> Result<(), Failed>
    requires { guest ≤ 3 }
    ensures ok { OnOk result (Grows (K.written out.old) (items_spelling (kind_items kind guest u draw)) (K.written out.new)) }
    ensures err { OnErr result (GrowsPart (K.written out.old) (items_spelling (kind_items kind guest u draw)) (K.written out.new)) }
    ensures keeps { K.keeps out.old out.new }
    ensures cause { HasCause (K.faults out.old) (K.faults out.new) result }
{
    match kind {
        0 => put_store(guest, u, draw, out),
        1 => put_item(&Item::Bytes { guest }, &report_bytes(u), out),
        2 => put_item(&Item::Bytes { guest }, &place_bytes(u), out),
        3 => put_move(u, out),
        4 => put_click(out),
        _ => put_stroke(out),
    }
}

// The items of a draw.
fn put_draw<K: Sink>(draw: u32, out: &mut K) -> Result<(), Failed>
    ensures ok { OnOk result (Grows (K.written out.old) (items_spelling (draw_items draw)) (K.written out.new)) }
    ensures err { OnErr result (GrowsPart (K.written out.old) (items_spelling (draw_items draw)) (K.written out.new)) }
    ensures keeps { K.keeps out.old out.new }
    ensures cause { HasCause (K.faults out.old) (K.faults out.new) result }
{
    put_kind(draw / 4 % 6, draw % 4, draw / 24, draw, out)
}

// A picture, where a round comes to one.
fn put_snap_after<K: Sink>(n: u32, out: &mut K) -> Result<(), Failed>
    ensures ok { OnOk result (Grows (K.written out.old) (items_spelling (snap_after n)) (K.written out.new)) }
    ensures err { OnErr result (GrowsPart (K.written out.old) (items_spelling (snap_after n)) (K.written out.new)) }
    ensures keeps { K.keeps out.old out.new }
    ensures cause { HasCause (K.faults out.old) (K.faults out.new) result }
{
    if n % ROUNDS_TO_A_SNAP != 0 {
        return Ok(());
    }
    put_item(&Item::Snap, &[], out)
}

// The items of a round with this number and this draw.
pub(crate) fn put_round<K: Sink>(n: u32, draw: u32, out: &mut K) -> Result<(), Failed>
    ensures ok { OnOk result (Grows (K.written out.old) (items_spelling (draw_items draw ++ snap_after n)) (K.written out.new)) }
    ensures err { OnErr result (GrowsPart (K.written out.old) (items_spelling (draw_items draw ++ snap_after n)) (K.written out.new)) }
    ensures keeps { K.keeps out.old out.new }
    ensures cause { HasCause (K.faults out.old) (K.faults out.new) result }
{
    match put_draw(draw, out) {
        Ok(()) => put_snap_after(n, out),
        Err(e) => Err(e),
    }
}
