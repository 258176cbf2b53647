// Several outputs, through whole runs over memory. What they have to write was worked by hand.

use crate::guest_tests::{first, greeted, summary_of};
use crate::message_tests::spelled;
use crate::status::Status;
use crate::tests::{FOCUSED, gives, joined, picture_behind, replayed};
use crate::user_tests::{moved, told};
use std::alloc::Global;
use std::process::Abort;
use std::test::Fail;

// A black plane of this width and height with borders of one pixel and the guest `red`, and behind that
// outputs: how many there are, and of each its corner and its size.
pub(crate) fn plane(
    alloc: Global,
    width: u32,
    height: u32,
    count: u8,
    outputs: &[u32],
) -> Result<Vec<u8>, Fail> {
    let sizes = spelled(alloc, &[width, height, 1, 8192, 4096, 90, 0])?;
    let rects = spelled(alloc, outputs)?;
    joined(
        alloc,
        &[
            b"QGR2",
            &[1],
            &sizes,
            &[1, 0, 0, 255, 0, 3],
            b"red",
            &[count],
            &rects,
        ],
    )
}

// A Picture record of 5 by 6 pixels.
fn narrow_picture(alloc: Global, map: &[u8]) -> Result<Vec<u8>, Fail> {
    picture_behind(alloc, &[3, 101, 0, 0, 0], b"P6\n5 6\n255\n", map)
}

// A window across two outputs and the gap between them is on both pictures. The pointer comes to a pixel of
// the gap, which nobody is told, and then to one of the first output.
#[test]
fn a_picture_of_each_output(rt: HostRuntime) -> Result<(), Fail> {
    let alloc = rt.alloc();
    let config = plane(alloc, 12, 6, 2, &[0, 0, 5, 6, 7, 0, 5, 6])?;
    let window = first(alloc, 0, &[130, 1, 24, 2, 2, 8, 2, 0, 0, 132, 1, 8, 0, 0])?;
    let greeting = greeted(alloc, 0, &[12, 6, 24, 1])?;
    let left = narrow_picture(
        alloc,
        b".....\
          .RRRR\
          .R---\
          .R---\
          .RRRR\
          .....",
    )?;
    let right = narrow_picture(
        alloc,
        b".....\
          RRRR.\
          ---R.\
          ---R.\
          RRRR.\
          .....",
    )?;
    let enter = told(alloc, 0, &[127, 1, 28, 7, 2, 0, 0, 0, 3, 1])?;
    gives(
        &rt,
        alloc,
        &[
            &config,
            &window,
            &[9],
            &moved(5, 2),
            &moved(4, 2),
            &moved(6, 2),
            &[10],
        ],
        &[
            &greeting,
            &FOCUSED,
            &left,
            &right,
            &enter,
            &summary_of(6, 2, 60),
        ],
    )
}

// An override window is moved into the output that has its corner, or into the first one where none has it.
#[test]
fn override_windows_stay_in_their_output(rt: HostRuntime) -> Result<(), Fail> {
    let alloc = rt.alloc();
    let config = plane(alloc, 40, 10, 2, &[0, 0, 20, 10, 20, 0, 20, 10])?;
    let windows = first(
        alloc,
        0,
        &[
            130,
            1,
            24,
            38,
            8,
            4,
            2,
            0,
            1,
            132,
            1,
            8,
            0,
            1,
            130,
            2,
            24,
            38,
            0xffff_fffd,
            4,
            2,
            0,
            1,
            132,
            2,
            8,
            0,
            1,
        ],
    )?;
    let greeting = greeted(alloc, 0, &[40, 10, 24, 2])?;
    let second = told(alloc, 0, &[134, 1, 20, 35, 7, 4, 2, 1])?;
    let none = told(alloc, 0, &[134, 2, 20, 15, 1, 4, 2, 1])?;
    gives(
        &rt,
        alloc,
        &[&config, &windows, &[10]],
        &[&greeting, &second, &none, &summary_of(2, 4, 0)],
    )
}

// A window on the second output that goes full-screen gets that output less the border.
#[test]
fn full_screen_on_its_output(rt: HostRuntime) -> Result<(), Fail> {
    let alloc = rt.alloc();
    let config = plane(alloc, 40, 10, 2, &[0, 0, 20, 10, 20, 0, 20, 10])?;
    let window = first(
        alloc,
        0,
        &[
            130, 1, 24, 22, 2, 4, 4, 0, 0, 132, 1, 8, 0, 0, 145, 1, 8, 1, 0,
        ],
    )?;
    let greeting = greeted(alloc, 0, &[40, 10, 24, 2])?;
    let full = told(alloc, 0, &[134, 1, 20, 21, 1, 18, 8, 0])?;
    gives(
        &rt,
        alloc,
        &[&config, &window, &[10]],
        &[&greeting, &FOCUSED, &full, &summary_of(2, 3, 0)],
    )
}

// A record that begins like this has the status, and nothing is written.
pub(crate) fn refuses(
    rt: &impl Abort,
    alloc: Global,
    config: &[u8],
    wanted: Status,
) -> Result<(), Fail> {
    let record = joined(alloc, &[config, &[10]])?;
    let (status, output) = replayed(alloc, &record, &[], &[])?;
    assert_eq!(rt; status, wanted);
    assert_eq!(rt; output.len(), 0);
    Ok(())
}

#[test]
fn outputs_that_break_a_rule(rt: HostRuntime) -> Result<(), Fail> {
    let alloc = rt.alloc();
    let none = plane(alloc, 12, 6, 0, &[])?;
    refuses(&rt, alloc, &none, Status::BadConfig { rule: 17 })?;
    let wide = plane(alloc, 12, 6, 1, &[0, 0, 13, 6])?;
    refuses(&rt, alloc, &wide, Status::BadConfig { rule: 18 })?;
    let shared = plane(alloc, 12, 6, 2, &[0, 0, 5, 6, 4, 0, 5, 6])?;
    refuses(&rt, alloc, &shared, Status::BadConfig { rule: 19 })
}
