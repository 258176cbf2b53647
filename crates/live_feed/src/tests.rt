// Bytes that wait and changes of frames, worked by hand.
use crate::{MAX_WAITING, Outbox, PageRead, page_of};
use gui_num::NoMemory;

// Whether these bytes wait.
fn waits(outbox: &mut Outbox, bytes: &[u8]) -> bool {
    outbox.front() == bytes
}

// Whether just so many bytes wait, first so many sevens and then eights.
fn waits_sevens_and_eights(outbox: &mut Outbox, sevens: usize, len: usize) -> bool {
    let front = outbox.front();
    front.len() == len
        && front.iter().take(sevens).all(|b| *b == 7)
        && front.iter().skip(sevens).all(|b| *b == 8)
}

// Takes off the first n bytes, or all where there are no more.
fn take_off(outbox: &mut Outbox, n: usize) {
    let waiting = outbox.front().len();
    outbox.drop_front(n.min(waiting));
}

#[test]
fn keeps_bytes_until_they_are_taken_off(rt: HostRuntime) -> Result<(), NoMemory> {
    let mut outbox = Outbox::new(rt.alloc())?;
    assert!(rt; waits(&mut outbox, b""));
    assert!(rt; outbox.post(b"abc"));
    assert!(rt; waits(&mut outbox, b"abc"));
    assert!(rt; outbox.post(b"de") && outbox.post(b""));
    assert!(rt; waits(&mut outbox, b"abcde"));
    take_off(&mut outbox, 4);
    assert!(rt; outbox.post(b"f"));
    assert!(rt; waits(&mut outbox, b"ef"));
    take_off(&mut outbox, 2);
    assert!(rt; waits(&mut outbox, b""));
    Ok(())
}

#[test]
fn holds_just_so_many(rt: HostRuntime) -> Result<(), NoMemory> {
    let mut outbox = Outbox::new(rt.alloc())?;
    let sevens = vec![in rt.alloc(); 7u8; 600_000]?;
    let eights = vec![in rt.alloc(); 8u8; 448_576]?;
    assert!(rt; outbox.post(&sevens));
    assert!(rt; !outbox.post(&sevens));
    assert!(rt; outbox.post(&eights));
    assert!(rt; !outbox.post(b"9") && outbox.post(b""));
    assert!(rt; waits_sevens_and_eights(&mut outbox, 600_000, MAX_WAITING));
    take_off(&mut outbox, 500_000);
    assert!(rt; !outbox.post(&sevens) && outbox.post(&eights));
    assert!(rt; waits_sevens_and_eights(&mut outbox, 100_000, 997_152));
    Ok(())
}

// Twelve bytes of three numbers, of which each is below 256 or a multiple of 256 below 65536.
fn numbers(page: u8, offset: [u8; 2], len: [u8; 2]) -> [u8; 12] {
    [
        page, 0, 0, 0, offset[0], offset[1], 0, 0, len[0], len[1], 0, 0,
    ]
}

#[test]
fn reads_a_change_of_a_frame(rt: HostRuntime) {
    let change = PageRead::Whole {
        page: 3,
        offset: 8,
        len: 4,
    };
    assert!(rt; page_of(&numbers(3, [8, 0], [4, 0]), 4) == change);
    assert!(rt; page_of(&[3, 0, 0, 0, 8, 0, 0, 0, 4, 0, 0, 0, 9, 9], 4) == change);
    let page = PageRead::Whole {
        page: 0,
        offset: 0,
        len: 4096,
    };
    assert!(rt; page_of(&numbers(0, [0, 0], [0, 16]), 1) == page);
}

#[test]
fn needs_all_three_numbers(rt: HostRuntime) {
    assert!(rt; page_of(b"", 4) == PageRead::Need { more: 12 });
    assert!(rt; page_of(&[255; 11], 4) == PageRead::Need { more: 1 });
}

#[test]
fn refuses_no_change_within_a_page(rt: HostRuntime) {
    assert!(rt; page_of(&numbers(4, [8, 0], [4, 0]), 4) == PageRead::Bad);
    assert!(rt; page_of(&numbers(3, [6, 0], [4, 0]), 4) == PageRead::Bad);
    assert!(rt; page_of(&numbers(3, [8, 0], [6, 0]), 4) == PageRead::Bad);
    assert!(rt; page_of(&numbers(3, [8, 0], [0, 0]), 4) == PageRead::Bad);
    assert!(rt; page_of(&numbers(3, [4, 0], [0, 16]), 4) == PageRead::Bad);
    assert!(rt; page_of(&[255; 12], 4) == PageRead::Bad);
}
