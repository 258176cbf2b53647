// Spells items: the kind byte and the fixed fields of each.
ghost use Rattle.std.specs.Prelude.{◌≡◌, ◌≤◌, ◌++◌, length, drop, OnOk, OnErr};
ghost use Rattle.io_ports.specs.Content.{Grows, GrowsPart};
ghost use Rattle.io_ports.specs.Counts.{HasCause};
ghost use Rattle.desk_laws.specs.Items.{FitsItem};
ghost use Rattle.record_format.specs.ItemSpellings.{flag, command, item_spelling, fed_spelling, HasWidths};

use desk_laws::{Item, MAX_GUESTS, MAX_PAGES};
use io_ports::{Failed, Sink, put_all};

// The most bytes that an item has in front of its piece.
const MOST_FIELDS: usize = 16;

// Writes bytes to the front of `out`, and answers how many they are.
fn put_front(bytes: &[u8], out: &mut [u8]) -> usize
    requires { length bytes.now ≤ length out.old }
    ensures out { out.new ≡ bytes.now ++ drop (length bytes.now) out.old }
    ensures len { result ≡ length bytes.now }
{
    let len = bytes.len();
    out[..len].copy_from_slice(bytes);
    len
}

fn piece_bytes(guest: u8, len: u32) -> [u8; 6]
    ensures { result ≡ item_spelling (Item.Bytes guest) len }
{
    let l = len.to_le_bytes();
    [2, guest, l[0], l[1], l[2], l[3]]
}

fn store_bytes(guest: u8, delay: u16, page: u32, offset: u32, len: u32) -> [u8; 16]
    ensures { result ≡ item_spelling (Item.Store guest delay page offset) len }
{
    let d = delay.to_le_bytes();
    let p = page.to_le_bytes();
    let o = offset.to_le_bytes();
    let l = len.to_le_bytes();
    [
        4, guest, d[0], d[1], p[0], p[1], p[2], p[3], o[0], o[1], o[2], o[3], l[0], l[1], l[2],
        l[3],
    ]
}

fn flag(down: bool) -> u8
    ensures { result ≡ flag down }
{
    if down { 1 } else { 0 }
}

fn key_bytes(down: bool, code: u8, state: u16) -> [u8; 5]
    ensures { result ≡ item_spelling (Item.Key down code state) 0 }
{
    let s = state.to_le_bytes();
    [5, flag(down), code, s[0], s[1]]
}

fn move_bytes(x: i32, y: i32, state: u16) -> [u8; 11]
    ensures { result ≡ item_spelling (Item.Move x y state) 0 }
{
    let a = x.cast_unsigned().to_le_bytes();
    let b = y.cast_unsigned().to_le_bytes();
    let s = state.to_le_bytes();
    [
        6, a[0], a[1], a[2], a[3], b[0], b[1], b[2], b[3], s[0], s[1],
    ]
}

fn press_bytes(down: bool, button: u8, state: u16) -> [u8; 5]
    ensures { result ≡ item_spelling (Item.Press down button state) 0 }
{
    let s = state.to_le_bytes();
    [7, flag(down), button, s[0], s[1]]
}

fn command_bytes(code: u8, a: i32, b: i32) -> [u8; 10]
    ensures { result ≡ command code a b }
{
    let a = a.cast_unsigned().to_le_bytes();
    let b = b.cast_unsigned().to_le_bytes();
    [8, code, a[0], a[1], a[2], a[3], b[0], b[1], b[2], b[3]]
}

/// Writes the kind byte of an item and its fixed fields to the front of `out`, for a piece of
/// `piece_len` bytes, and answers how many bytes that are; the rest of `out` stays. The piece itself is
/// to follow them. The item has the ranges of a record, for at most 16 guests and 16,384 pages, and
/// isn't Idle, which no record has.
pub fn spell_item(item: &Item, piece_len: usize, out: &mut [u8]) -> usize
    requires spelled { item.now ≡ Item.Idle → ⊥ }
    requires range { FitsItem MAX_GUESTS MAX_PAGES item.now piece_len }
    requires room { length (item_spelling item.now piece_len) ≤ length out.old }
    ensures out { out.new ≡ item_spelling item.now piece_len ++ drop (length (item_spelling item.now piece_len)) out.old }
    ensures len { result ≡ length (item_spelling item.now piece_len) }
    ensures widths { HasWidths item.now }
{
    match *item {
        Item::Bytes { guest } => put_front(&piece_bytes(guest as u8, piece_len as u32), out),
        Item::Closed { guest } => put_front(&[3, guest as u8], out),
        Item::Store {
            guest,
            delay,
            page,
            offset,
        } => {
            let bytes = store_bytes(guest as u8, delay, page, offset, piece_len as u32);
            put_front(&bytes, out)
        }
        Item::Key { down, code, state } => put_front(&key_bytes(down, code, state), out),
        Item::Move { x, y, state } => put_front(&move_bytes(x, y, state), out),
        Item::Press {
            down,
            button,
            state,
        } => put_front(&press_bytes(down, button, state), out),
        Item::Close => put_front(&command_bytes(1, 0, 0), out),
        Item::Next => put_front(&command_bytes(2, 0, 0), out),
        Item::Restore => put_front(&command_bytes(3, 0, 0), out),
        Item::MoveTo { x, y } => put_front(&command_bytes(4, x, y), out),
        Item::SizeTo { w, h } => put_front(&command_bytes(5, w, h), out),
        Item::Snap => put_front(&[9], out),
        Item::End => put_front(&[10], out),
        Item::Lost { guest } => put_front(&[11, guest as u8], out),
        Item::Idle => 0,
    }
}

/// Writes an item and the piece that comes with it, as `spell_item` spells it. Failed only where the sink's count of faults
/// rose; a prefix was then written. The item has the ranges of a record, for at most 16 guests and 16,384 pages,
/// and isn't Idle, which no record has.
pub fn put_item<K: Sink>(item: &Item, piece: &[u8], out: &mut K) -> Result<(), Failed>
    requires spelled { item.now ≡ Item.Idle → ⊥ }
    requires range { FitsItem MAX_GUESTS MAX_PAGES item.now (length piece.now) }
    ensures ok { OnOk result (Grows (K.written out.old) (fed_spelling (record { item = item.now; piece = piece.now })) (K.written out.new)) }
    ensures err { OnErr result (GrowsPart (K.written out.old) (fed_spelling (record { item = item.now; piece = piece.now })) (K.written out.new)) }
    ensures widths { HasWidths item.now }
    ensures keeps { K.keeps out.old out.new }
    ensures cause { HasCause (K.faults out.old) (K.faults out.new) result }
{
    let mut fields = [0u8; MOST_FIELDS];
    let len = spell_item(item, piece.len(), &mut fields);
    match put_all(out, &fields[..len]) {
        Ok(()) => put_all(out, piece),
        Err(e) => Err(e),
    }
}
