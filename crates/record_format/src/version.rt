// The versions of a record: the four bytes that tell them, and the lowest one that has a setup.
ghost use Rattle.std.specs.Prelude.{◌≡◌};
ghost use Rattle.record_format.specs.Config.{magic, version_at, is_plane, is_one, no_pair, version_of, same_version};

use desk_laws::{Pair, Setup};
use gui_num::Rect;

/// The versions of a record. The first spells no outputs and no clipboard, the second no clipboard.
#[derive(Clone, Copy, Debug, PartialEq, Eq)]
pub(crate) enum Version {
    First,
    Second,
    Third,
}

// The four bytes that a record of a version begins with.
pub(crate) fn magic(version: Version) -> [u8; 4]
    ensures { result ≡ magic version }
{
    match version {
        Version::First => [81, 71, 82, 49],
        Version::Second => [81, 71, 82, 50],
        Version::Third => [81, 71, 82, 51],
    }
}

// The version whose four bytes these are.
pub(crate) fn version_at(four: &[u8]) -> Option<Version>
    ensures { result ≡ version_at four.now }
{
    if four == magic(Version::First).as_slice() {
        return Some(Version::First);
    }
    if four == magic(Version::Second).as_slice() {
        return Some(Version::Second);
    }
    if four == magic(Version::Third).as_slice() {
        return Some(Version::Third);
    }
    None
}

pub(crate) fn is_same(one: Version, other: Version) -> bool
    ensures { result ≡ same_version one other }
{
    match (one, other) {
        (Version::First, Version::First) => true,
        (Version::Second, Version::Second) => true,
        (Version::Third, Version::Third) => true,
        _ => false,
    }
}

// Whether an output is the whole plane.
fn is_plane(output: Rect, width: u32, height: u32) -> bool
    ensures { result ≡ is_plane width height output }
{
    (output.x == 0 && output.y == 0) && (output.w == width && output.h == height)
}

// Whether the plane is the one output.
fn is_one(outputs: &[Rect], width: u32, height: u32) -> bool
    ensures { result ≡ is_one width height outputs.now }
{
    match outputs {
        [output] => is_plane(*output, width, height),
        _ => false,
    }
}

fn no_pair(pairs: &[Pair]) -> bool
    ensures { result ≡ no_pair pairs.now }
{
    pairs.is_empty()
}

// The lowest version that has a setup.
pub(crate) fn version_of(setup: &Setup) -> Version
    ensures { result ≡ version_of setup.now }
{
    if setup.clip != 1 || !no_pair(setup.denied.items()) {
        return Version::Third;
    }
    if is_one(setup.outputs.items(), setup.width, setup.height) {
        return Version::First;
    }
    Version::Second
}
