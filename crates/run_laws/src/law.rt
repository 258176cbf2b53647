// What is known of all steps and runs.
ghost use Rattle.desk_laws.specs.Endings.{EndsLeaveNothing, EndedDoesNothing};
ghost use Rattle.desk_laws.specs.Others.{OthersStay};
ghost use Rattle.desk_laws.specs.Sound.{OpeningIsSound, StepsKeepSound, RunsAreSound};
ghost use Rattle.run_laws.specs.ClipboardLaw.{PastesToTheFocus, PastesNothingElse, StrangersLeaveIt, DataIsHeld, LongDataIsLost, LongDataIsAlike};
ghost use Rattle.run_laws.specs.GrantedContent.{GrantsCarryNoMore};
ghost use Rattle.run_laws.specs.OthersHear.{EndsStayAtHome, OthersHearNews};
ghost use Rattle.run_laws.specs.Pastes.{BytesStayInTheClipboard, PastesAreExact};
ghost use Rattle.run_laws.specs.Pieces.{PiecesJoin};

/// Does nothing. Its contract says that it doesn't matter in which pieces a guest's bytes come: two
/// pieces have the posts, inputs, readings and end state of the one piece that is both, but for the
/// count of items. This holds also where the session ends within the first piece, or had ended.
pub fn law_of_pieces()
    ensures { PiecesJoin }
{}

/// Does nothing. Its contract says that the item at which a guest's session ends leaves no window and
/// no bytes of the guest, and that the guest's later bytes, ends and changes of frames are counted
/// as items and do nothing else.
pub fn law_ended_session()
    ensures gone { EndsLeaveNothing }
    ensures over { EndedDoesNothing }
{}

/// Does nothing. Its contract says that an item of one guest (its bytes, whatever they are, their end,
/// a change of its frames, its lost link) leaves of every other guest the windows with all that is
/// kept of them, the session with its end and the bytes that wait, and the frames, as they were. So
/// another guest's end changes nobody else's windows. No item ends the session of another guest than its
/// own: a malformed message ends its guest alone. All that an item of one guest makes another hear is that a
/// window of its own gained or lost focus or hover, and the keyboard's state.
pub fn law_of_others()
    ensures stay { OthersStay }
    ensures ends { EndsStayAtHome }
    ensures news { OthersHearNews }
{}

/// Does nothing. Its contract says of every state that a run of any items reaches: no two windows on
/// the desktop have one guest and number, the lists of the layers have exactly the mapped windows,
/// each once, a guest whose session has ended has no window, each mapped override window lies on the
/// desktop with its border, and those of one guest have together at most the setup's percent of the
/// desktop's area.
pub fn law_of_sound_states()
    ensures opening { OpeningIsSound }
    ensures step { StepsKeepSound }
    ensures run { RunsAreSound }
{}

/// Does nothing. Its contract says of each input that an item grants a guest, whatever else is on the
/// desktop: a window that it names is one of this guest and is there, and the input carries nothing
/// but what the user did and what the window may know of itself. A key has the item's code, direction
/// and state, and goes to the focus, as the request to close does. A button and a motion have what the
/// item says and the pointer's pixel from the corner of the window's place; a crossing has this pixel
/// and whether the window has the focus. A new place has the two numbers of the item, in range, and
/// the window's own other two. Pasted bytes are those of the clipboard, come at a paste chord alone, and
/// never go between two guests that the setup denies.
pub fn law_granted()
    ensures { GrantsCarryNoMore }
{}

/// Does nothing. Its contract says of the clipboard: at the paste chord what is held goes to the focus,
/// to nobody else, and is then held no longer; without a focus, with nothing held, or where the pair of
/// its source and the focused guest is denied, nothing is granted and the clipboard stays as it is. No
/// item of a guest that wasn't asked changes it. Data of the guest that was asked is held up to the
/// limit; longer data leaves nothing held, whichever bytes it has.
pub fn law_of_clipboard()
    ensures pasted { PastesToTheFocus }
    ensures nothing { PastesNothingElse }
    ensures strangers { StrangersLeaveIt }
    ensures held { DataIsHeld }
    ensures lost { LongDataIsLost }
    ensures alike { LongDataIsAlike }
{}

/// Does nothing. Its contract says that the clipboard's bytes are handed out exactly at a paste chord while
/// there are a focus, a content and no denied pair, to the focus. Two states that differ in those bytes alone
/// give the same posts, inputs and readings at every item that doesn't hand them out, and differ afterwards
/// in those bytes at most.
pub fn law_clip_bytes()
    ensures pastes { PastesAreExact }
    ensures bytes { BytesStayInTheClipboard }
{}
