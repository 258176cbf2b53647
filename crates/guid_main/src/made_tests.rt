// Records made from numbers, and replayed.

use crate::run::run;
use crate::status::Status;
use crate::tests::{replayed, words};
use io_ports::{MemSink, MemSource};
use record_format::{Post, post_of};
use std::alloc::Global;
use std::process::Abort;
use std::test::Fail;

// The status of these words, and the bytes that are written for them.
fn made(alloc: Global, given: &[&str]) -> Result<(Status, Vec<u8>), Fail> {
    let mut input = MemSource::new(alloc, &[1, 2, 3], &[1])?;
    let mut out = MemSink::new(alloc, &[])?;
    let status = run(alloc, &words(alloc, given)?, &mut input, &mut out);
    Ok((status, out.bytes().to_vec(alloc)?))
}

// How many pictures and endings an output has, and the items, messages and glances of its summary.
fn counts(output: &[u8]) -> (u32, u32, Option<(u64, u64, u64)>) {
    let mut pictures = 0;
    let mut endings = 0;
    let mut at = 0;
    for _ in 0..output.len() {
        match post_of(&output[at.min(output.len())..]) {
            Some(
                (
                    Post::Summary {
                        items,
                        messages,
                        glances,
                        ..
                    },
                    _,
                ),
            ) => return (pictures, endings, Some((items, messages, glances))),
            Some((Post::Picture { .. }, len)) => {
                pictures = u32::saturating_add(pictures, 1);
                at = usize::saturating_add(at, len);
            }
            Some((Post::Ended { .. }, len)) => {
                endings = u32::saturating_add(endings, 1);
                at = usize::saturating_add(at, len);
            }
            Some((Post::Reply { .. }, len)) => at = usize::saturating_add(at, len),
            None => return (pictures, endings, None),
        }
    }
    (pictures, endings, None)
}

// The replay of the record of so many rounds is Done, and has these counts.
fn goes(
    rt: &impl Abort,
    alloc: Global,
    rounds: &str,
    wanted: (u32, u32, Option<(u64, u64, u64)>),
) -> Result<(), Fail> {
    let (status, record) = made(alloc, &["make", rounds])?;
    assert_eq!(rt; status, Status::Done);
    let (status, output) = replayed(alloc, &record, &[], &[])?;
    assert_eq!(rt; status, Status::Done);
    assert!(rt; counts(&output) == wanted);
    let (_, again) = replayed(alloc, &record, &[], &[])?;
    assert!(rt; again == output);
    Ok(())
}

// The record of no rounds: four windows, a picture and the end.
#[test]
fn no_rounds(rt: HostRuntime) -> Result<(), Fail> {
    let (_, record) = made(rt.alloc(), &["make", "0"])?;
    assert_eq!(rt; record.len(), 564);
    goes(&rt, rt.alloc(), "0", (1, 0, Some((6, 12, 0))))
}

// Five thousand rounds. The counts were worked out from the format alone, by a program apart: two items for
// a click or a key and one for any other kind, a message for each report and each move of a window, and
// for each report the pixels of its 16 by 16 that lie in the window.
#[test]
fn five_thousand_rounds(rt: HostRuntime) -> Result<(), Fail> {
    goes(&rt, rt.alloc(), "5000", (6, 0, Some((6666, 1701, 178_839))))
}

// Words that have none of the forms.
#[test]
fn words_of_no_form(rt: HostRuntime) -> Result<(), Fail> {
    let wrong: [&[&str]; 8] = [
        &[],
        &["replay", "x"],
        &["make"],
        &["make", "1000001"],
        &["make", "00000000"],
        &["make", "+5"],
        &["make", ""],
        &["make", "5", "5"],
    ];
    for given in wrong {
        let (status, written) = made(rt.alloc(), given)?;
        assert_eq!(rt; status, Status::Usage);
        assert!(rt; written.is_empty());
    }
    let (status, record) = made(rt.alloc(), &["make", "0000000"])?;
    assert_eq!(rt; (status, record.len()), (Status::Done, 564));
    Ok(())
}
