// Reads items: the kind byte and the fixed fields of each.
ghost use Rattle.std.specs.Prelude.{◌≡◌, ◌≤◌, ◌+◌, ◌-◌, ◌++◌, ℕ, List, length, slice_index, Some, IfSome};
ghost use Rattle.desk_laws.specs.declared.item.Item.{Item as AnyItem};
ghost use Rattle.record_format.specs.ItemSpellings.{item_spelling, HasWidths, FitsRecord};
ghost use Rattle.record_format.specs.ItemFields.{fields_len, HasFields, half_at, if_right, is_change, piece_read, guest_read, store_read, key_read, move_read, press_read, plain_read, command_read, item_read, IsSpelledBy};

use crate::config::{number_at, signed_at};
use desk_laws::{Item, MAX_PIECE, PAGE_BYTES, Setup};

/// How many bytes the fixed fields of an item have behind its kind byte, at most 15: `None` exactly for a
/// kind that no item has, and for Config. The format is this project's own.
#[tactic(auto, using(crate::proofs::ItemSpellingLemmas::fields_are))]
pub fn fixed_len(kind: u8) -> Option<usize>
    ensures table { result ≡ fields_len kind }
    ensures small { IfSome result (λ n. n ≤ 15) }
    // so many bytes follow the kind byte of each item that has it
    ensures fields { (item : AnyItem) (len : ℕ) → HasWidths item → slice_index (item_spelling item len) 0 ≡ kind →
        result ≡ Some (length (item_spelling item len) - 1) }
{
    match kind {
        2 => Some(5),
        3 | 11 => Some(1),
        4 => Some(15),
        5 | 7 => Some(4),
        6 => Some(10),
        8 => Some(9),
        9 | 10 => Some(0),
        _ => None,
    }
}

// The number of the two bytes from this place on, the lowest first.
fn half_at(bytes: &[u8], place: usize) -> u16
    requires { place + 2 ≤ length bytes.now }
    ensures { result ≡ half_at place bytes.now }
{
    u16::from_le_bytes([bytes[place], bytes[place + 1]])
}

// An item, where its fields are right.
fn if_right(right: bool, item: Item, len: usize) -> Option<(Item, usize)>
    ensures { result ≡ if_right right item len }
{
    if right { Some((item, len)) } else { None }
}

fn piece_of(bytes: &[u8], guests: usize) -> Option<(Item, usize)>
    requires { 6 ≤ length bytes.now }
    ensures { result ≡ piece_read guests bytes.now }
{
    let len = number_at(bytes, 2) as usize;
    let right = (bytes[1] as usize) < guests && (1 <= len && len <= MAX_PIECE as usize);
    if_right(
        right,
        Item::Bytes {
            guest: bytes[1] as u32,
        },
        len,
    )
}

fn closed_of(bytes: &[u8], guests: usize) -> Option<(Item, usize)>
    requires { 2 ≤ length bytes.now }
    ensures { result ≡ guest_read Item.Closed guests bytes.now }
{
    if_right(
        (bytes[1] as usize) < guests,
        Item::Closed {
            guest: bytes[1] as u32,
        },
        0,
    )
}

fn lost_of(bytes: &[u8], guests: usize) -> Option<(Item, usize)>
    requires { 2 ≤ length bytes.now }
    ensures { result ≡ guest_read Item.Lost guests bytes.now }
{
    if_right(
        (bytes[1] as usize) < guests,
        Item::Lost {
            guest: bytes[1] as u32,
        },
        0,
    )
}

// Whether this is a change of whole words within one of so many pages: the offset and the length are in
// bytes, multiples of 4, the length at least 4, and the change ends within the page.
fn is_change(pages: u32, page: u32, offset: u32, len: u32) -> bool
    ensures { result ≡ is_change pages page offset len }
{
    page < pages
        && (offset % 4 == 0
            && (len % 4 == 0 && ((4 <= len && len <= PAGE_BYTES) && offset <= PAGE_BYTES - len)))
}

fn store_of(bytes: &[u8], guests: usize, pages: u32) -> Option<(Item, usize)>
    requires { 16 ≤ length bytes.now }
    ensures { result ≡ store_read guests pages bytes.now }
{
    let page = number_at(bytes, 4);
    let offset = number_at(bytes, 8);
    let len = number_at(bytes, 12);
    let right = (bytes[1] as usize) < guests && is_change(pages, page, offset, len);
    let item = Item::Store {
        guest: bytes[1] as u32,
        delay: half_at(bytes, 2),
        page,
        offset,
    };
    if_right(right, item, len as usize)
}

fn key_of(bytes: &[u8]) -> Option<(Item, usize)>
    requires { 5 ≤ length bytes.now }
    ensures { result ≡ key_read bytes.now }
{
    let state = half_at(bytes, 3);
    let item = Item::Key {
        down: bytes[1] == 1,
        code: bytes[2],
        state,
    };
    if_right(bytes[1] <= 1 && state <= 8191, item, 0)
}

fn move_of(bytes: &[u8]) -> Option<(Item, usize)>
    requires { 11 ≤ length bytes.now }
    ensures { result ≡ move_read bytes.now }
{
    let state = half_at(bytes, 9);
    let item = Item::Move {
        x: signed_at(bytes, 1),
        y: signed_at(bytes, 5),
        state,
    };
    if_right(state <= 8191, item, 0)
}

fn press_of(bytes: &[u8]) -> Option<(Item, usize)>
    requires { 5 ≤ length bytes.now }
    ensures { result ≡ press_read bytes.now }
{
    let button = bytes[2];
    let state = half_at(bytes, 3);
    let item = Item::Press {
        down: bytes[1] == 1,
        button,
        state,
    };
    let right = bytes[1] <= 1 && ((1 <= button && button <= 15) && state <= 8191);
    if_right(right, item, 0)
}

// A command that has no values.
fn plain_of(bytes: &[u8], item: Item) -> Option<(Item, usize)>
    requires { 10 ≤ length bytes.now }
    ensures { result ≡ plain_read item bytes.now }
{
    if_right(
        number_at(bytes, 2) == 0 && number_at(bytes, 6) == 0,
        item,
        0,
    )
}

fn command_of(bytes: &[u8]) -> Option<(Item, usize)>
    requires { 10 ≤ length bytes.now }
    ensures { result ≡ command_read bytes.now }
{
    match bytes[1] {
        1 => plain_of(bytes, Item::Close),
        2 => plain_of(bytes, Item::Next),
        3 => plain_of(bytes, Item::Restore),
        4 => Some((
            Item::MoveTo {
                x: signed_at(bytes, 2),
                y: signed_at(bytes, 6),
            },
            0,
        )),
        5 => Some((
            Item::SizeTo {
                w: signed_at(bytes, 2),
                h: signed_at(bytes, 6),
            },
            0,
        )),
        _ => None,
    }
}

// What a kind byte and its fixed fields say.
fn read_fields(bytes: &[u8], guests: usize, pages: u32) -> Option<(Item, usize)>
    requires { HasFields bytes.now }
    ensures { result ≡ item_read guests pages bytes.now }
{
    match bytes[0] {
        2 => piece_of(bytes, guests),
        3 => closed_of(bytes, guests),
        4 => store_of(bytes, guests, pages),
        5 => key_of(bytes),
        6 => move_of(bytes),
        7 => press_of(bytes),
        8 => command_of(bytes),
        9 => Some((Item::Snap, 0)),
        10 => Some((Item::End, 0)),
        11 => lost_of(bytes, guests),
        _ => None,
    }
}

/// What a kind byte and the fixed fields behind it say in a record of so many guests and pages: the item,
/// and how many bytes come with it, at most 65,536, which are to follow them. `None` exactly where a field
/// is out of its range: the guest is one of the record's, a piece has 1 to 65,536 bytes, a store has whole
/// words within one of the pages, a flag is 0 or 1, a button 1 to 15, a state at most 8191, and a command
/// one of the five, without values where it has none. `fixed_len` of the kind isn't `None`, and so many
/// bytes stand behind it. The format is this project's own.
pub fn item_within(bytes: &[u8], guests: usize, pages: u32) -> Option<(Item, usize)>
    requires { HasFields bytes.now }
    ensures reads { result ≡ item_read guests pages bytes.now }
    // each item's spelling is read, whatever follows it
    ensures known { (item : AnyItem) (len : ℕ) (rest : List ℕ) → FitsRecord guests pages item len →
        bytes.now ≡ item_spelling item len ++ rest → result ≡ Some (item, len) }
    // what is read was spelled
    ensures spelled { IfSome result (λ found. IsSpelledBy guests pages bytes.now found) }
    ensures small { IfSome result (λ found. found.1 ≤ MAX_PIECE) }
{
    read_fields(bytes, guests, pages)
}

/// The same as `item_within` in a record of this setup, with its numbers of guests and pages.
pub fn item_of(bytes: &[u8], setup: &Setup) -> Option<(Item, usize)>
    requires { HasFields bytes.now }
    ensures reads { result ≡ item_read (length setup.now.guests) setup.now.pages bytes.now }
    // each item's spelling is read, whatever follows it
    ensures known { (item : AnyItem) (len : ℕ) (rest : List ℕ) → FitsRecord (length setup.now.guests) setup.now.pages item len →
        bytes.now ≡ item_spelling item len ++ rest → result ≡ Some (item, len) }
    // what is read was spelled
    ensures spelled { IfSome result (λ found. IsSpelledBy (length setup.now.guests) setup.now.pages bytes.now found) }
{
    item_within(bytes, setup.guests.items().len(), setup.pages)
}
