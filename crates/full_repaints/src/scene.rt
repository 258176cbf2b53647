// The scene: windows of four guests, few and large or many and small, some of which overlap, and some of
// which lie partly off the desktop, and what the guests do to show them.
ghost use Rattle.std.specs.Prelude.{◌≡◌, ◌<◌, ◌≤◌, ◌*◌, None, length, vec_len, true, pos, IfOk};
ghost use Rattle.std.specs.List.{list_all};
ghost use Rattle.desk_laws.specs.Rules.{within, is_output, share_none, first_broken};

use byteorder::{ByteOrder, LittleEndian};
use desk_laws::{GuestSetup, Guests, Name, Outputs, PAGE_WORDS, Pairs, Setup};
use gui_num::{Colour, NoMemory, Rect};
use std::alloc::Global;

// The columns and rows of the desktop.
const WIDTH: u32 = 1920;

const HEIGHT: u32 = 1080;

// How many guests there are.
pub(crate) const GUESTS: u32 = 4;

// How many windows there are at most.
pub(crate) const MOST_WINDOWS: u32 = 1024;

// How many windows there are at most where they are large.
const FEW_WINDOWS: u32 = 20;

// How many of its pages each guest writes and shows.
pub(crate) const PAGES: u32 = 64;

// The first bytes of each guest: the version 1.7, as a number whose lowest byte comes first.
pub(crate) const VERSION: [u8; 4] = [7, 0, 1, 0];

// By how much the words of a guest go on, before they are cut to colours.
const COLOUR_STEP: u32 = 2654435761;

// The types of messages, as `qubes-gui-protocol.h` numbers them.
const CREATE: u32 = 130;

const MAP: u32 = 132;

const SHMIMAGE: u32 = 136;

const WINDOW_DUMP: u32 = 147;

// The desktop with two outputs, or with one, and its guests.
pub(crate) fn setup(alloc: Global, outputs: u32) -> Result<Setup, NoMemory>
    ensures rules { IfOk result (λ setup. first_broken setup ≡ None) }
    ensures guests { IfOk result (λ setup. length setup.guests ≡ 4) }
    ensures pages { IfOk result (λ setup. setup.pages ≡ 4096) }
{
    let mut guests = Guests::new(alloc);
    guests.push(guest(0xcc0000, b"red"))?;
    guests.push(guest(0x3465a4, b"blue"))?;
    guests.push(guest(0x73d216, b"green"))?;
    guests.push(guest(0xedd400, b"yellow"))?;
    Ok(Setup {
        width: WIDTH,
        height: HEIGHT,
        border: 2,
        pages: 4096,
        tiles: 4096,
        percent: 90,
        background: Colour(0x202830),
        guests,
        outputs: shown_parts(alloc, outputs)?,
        clip: 1,
        denied: Pairs::new(alloc),
    })
}

// The halves of the desktop side by side where two outputs are asked for, and else the whole of it.
fn shown_parts(alloc: Global, outputs: u32) -> Result<Outputs, NoMemory>
    ensures count { IfOk result (λ parts. within 1 8 (length parts) ≡ true) }
    ensures inside { IfOk result (λ parts. list_all (is_output 1920 1080) parts ≡ true) }
    ensures apart { IfOk result (λ parts. share_none parts ≡ true) }
{
    let mut parts = Outputs::new(alloc);
    if outputs == 2 {
        parts.push(part(0, WIDTH / 2))?;
        parts.push(part(WIDTH / 2, WIDTH / 2))?;
    } else {
        parts.push(part(0, WIDTH))?;
    }
    Ok(parts)
}

// So many columns of the desktop from the column `x` on.
fn part(x: u32, columns: u32) -> Rect
    requires { x ≤ 8192 }
    ensures { result ≡ record { x = pos x; y = pos 0; w = columns; h = 1080 } }
{
    Rect {
        x: x as i32,
        y: 0,
        w: columns,
        h: HEIGHT,
    }
}

// A guest with this label colour and name.
fn guest(colour: u32, name: &[u8]) -> GuestSetup
    requires { length name.now ≤ 255 }
    ensures colour { result.colour.0 ≡ colour }
    ensures name { result.name ≡ name.now }
{
    GuestSetup {
        colour: Colour(colour),
        name: Name::new(name),
    }
}

// The guest of the k-th window from the top.
pub(crate) fn guest_of(k: u32) -> u32
    ensures { result < 4 }
{
    k % GUESTS
}

// Where the k-th window from the top is, among so many.
fn place_of(k: u32, windows: u32) -> Rect
    requires { k < 1024 }
    ensures width { result.w ≤ 4096 }
    ensures height { result.h ≤ 4096 }
{
    let (w, h) = size_of(k, windows);
    Rect {
        x: (k * 397 % 2100) as i32 - 160,
        y: (k * 251 % 1200) as i32 - 120,
        w,
        h,
    }
}

// The columns and rows of the k-th window from the top: hundreds where there are few, and dozens where
// there are many.
fn size_of(k: u32, windows: u32) -> (u32, u32)
    requires { k < 1024 }
    ensures width { result.0 ≤ 4096 }
    ensures height { result.1 ≤ 4096 }
{
    if windows <= FEW_WINDOWS {
        (320 + k * 173 % 700, 240 + k * 131 % 500)
    } else {
        (24 + k * 173 % 128, 24 + k * 131 % 64)
    }
}

// The bytes of a page, whose words are the colours of pixels.
pub(crate) fn page_bytes(alloc: Global, guest: u32, page: u32) -> Result<Vec<u8>, NoMemory>
    requires guest { guest < 4 }
    requires page { page < 64 }
    ensures { IfOk result (λ bytes. vec_len bytes ≡ 4096) }
{
    let mut words = vec![in alloc; 0u32; PAGE_WORDS as usize]?;
    put_colours(&mut words, (guest * PAGES + page) * PAGE_WORDS);
    spelled(alloc, &words)
}

// Gives each word a colour of its own, which goes by the number of the first one.
fn put_colours(words: &mut [u32], first: u32) {
    let mut colour = first.wrapping_mul(COLOUR_STEP);
    for i in 0..words.len() {
        words[i] = colour & 0xffffff;
        colour = colour.wrapping_add(COLOUR_STEP);
    }
}

// The messages by which the k-th window from the top, of so many, is made, is given its pages, is mapped,
// and is read as a whole.
pub(crate) fn window_bytes(alloc: Global, k: u32, windows: u32) -> Result<Vec<u8>, NoMemory>
    requires { k < 1024 }
{
    let window = k + 1;
    let Rect { x, y, w, h } = place_of(k, windows);
    let refs = (w * h).div_ceil(PAGE_WORDS);
    let mut words = Vec::new(alloc);
    let (left, top) = (x.cast_unsigned(), y.cast_unsigned());
    words.extend_from_slice(&[CREATE, window, 24, left, top, w, h, 0, 0])?;
    words.extend_from_slice(&[WINDOW_DUMP, window, 16 + 4 * refs, 0, w, h, 32])?;
    for n in 0..refs {
        words.push(n % PAGES)?;
    }
    words.extend_from_slice(&[MAP, window, 8, 0, 0])?;
    words.extend_from_slice(&[SHMIMAGE, window, 16, 0, 0, w, h])?;
    spelled(alloc, &words)
}

// Words as a message has them.
fn spelled(alloc: Global, words: &[u32]) -> Result<Vec<u8>, NoMemory>
    ensures { IfOk result (λ bytes. vec_len bytes ≡ 4 * length words.now) }
{
    let mut bytes = vec![in alloc; 0u8; 4 * words.len()]?;
    LittleEndian::write_u32_into(words, &mut bytes);
    Ok(bytes)
}
