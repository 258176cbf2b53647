// Small runs that the definitions have to give.
ghost use Rattle.run_laws.specs.WorkedRows.{EmptyDesktop, OneWindow, WindowOffTheCorner, WindowCreatedTwice};
ghost use Rattle.run_laws.specs.WorkedStreams.{OneByteAtATime, WidthOutOfRange, WidthBroughtIntoRange, ReferencePastThePages, DumpAcknowledged, DumpOfAnOldAgent, DumpOfSixteenBits, WrongVersion, EarlyEnd, ClipboardTooLong, WindowLimit};
ghost use Rattle.run_laws.specs.WorkedFrames.{FrameChangesBetweenLoads, LoadedOnce, ContentsShown, ReportOutsideTheDump, NothingLoadedOutside, ReportOutOfRange, CutAndGrown, TooFewTiles};
ghost use Rattle.run_laws.specs.WorkedGuests.{TwoWindows, OneGuestEnds, OverrideAreaLimit, OverrideAreasTogether, OverrideMovedInside, FullScreenTold, FullScreenStays, MinimizedIsHidden};
ghost use Rattle.run_laws.specs.WorkedMessages.{Unmapped, UnmappedTwice, NamesKept, Destroyed, UnknownNames, TitleCut, TitleWhole, ClassAndName, HintsKept, Docked, CursorKept, SetAfterUnset, ThreeFlags, DumpKept, BroughtIntoRange};
ghost use Rattle.run_laws.specs.WorkedCauses.{LinkLost, TypeNotTaken, LengthOfDestroy, LengthOfDump, OneReferenceMore, NoSuchWindow, RangeBeforeWindow, ClipboardOfNoWindow, NotCreated, DumpOutOfRange, FivePagesOfFour, ReferenceBeforeBudget, VersionTold};
ghost use Rattle.run_laws.specs.WorkedInput.{ClickRaises, GrabAcrossWindows, ReleaseAfterFocusChange, NextWindow, Restored, AskedToClose, Resized, OutsideTheDesktop, ChordsAreKept};
ghost use Rattle.run_laws.specs.WorkedOutputs.{PicturesOfOutputs, PointerBetweenOutputs, OverrideInTheSecond, OverrideInNone, FullScreenInTheSecond, ShareOfAnOutput, OutputsBreakRules, ClipboardBreaksRules, NoRuleBroken};
ghost use Rattle.run_laws.specs.WorkedClipboard.{CopiedAndPasted, DataOfAnother, EndedAfterItsAnswer, EndedBeforeItsAnswer, AskedAgain, DeniedPair, OtherWayRound, LimitOfRevisions};

/// The definitions give these hand-computed runs. It does nothing.
pub fn worked_rows()
    ensures empty_desktop { EmptyDesktop }
    ensures one_window { OneWindow }
    ensures window_off_the_corner { WindowOffTheCorner }
    ensures window_created_twice { WindowCreatedTwice }
{}

/// The definitions give these hand-computed streams of one guest. It does nothing.
pub fn worked_streams()
    ensures one_byte_at_a_time { OneByteAtATime }
    ensures width_out_of_range { WidthOutOfRange }
    ensures width_brought_into_range { WidthBroughtIntoRange }
    ensures reference_past_the_pages { ReferencePastThePages }
    ensures dump_acknowledged { DumpAcknowledged }
    ensures dump_of_an_old_agent { DumpOfAnOldAgent }
    ensures dump_of_sixteen_bits { DumpOfSixteenBits }
    ensures wrong_version { WrongVersion }
    ensures early_end { EarlyEnd }
    ensures clipboard_too_long { ClipboardTooLong }
    ensures window_limit { WindowLimit }
{}

/// The definitions give these hand-computed runs with frames. It does nothing.
pub fn worked_frames()
    ensures frame_changes_between_loads { FrameChangesBetweenLoads }
    ensures loaded_once { LoadedOnce }
    ensures contents_shown { ContentsShown }
    ensures report_outside_the_dump { ReportOutsideTheDump }
    ensures nothing_loaded_outside { NothingLoadedOutside }
    ensures report_out_of_range { ReportOutOfRange }
    ensures cut_and_grown { CutAndGrown }
    ensures too_few_tiles { TooFewTiles }
{}

/// The definitions give these hand-computed runs of several guests, and of override and full-screen
/// windows. It does nothing.
pub fn worked_guests()
    ensures two_windows { TwoWindows }
    ensures one_guest_ends { OneGuestEnds }
    ensures override_area_limit { OverrideAreaLimit }
    ensures override_areas_together { OverrideAreasTogether }
    ensures override_moved_inside { OverrideMovedInside }
    ensures full_screen_told { FullScreenTold }
    ensures full_screen_stays { FullScreenStays }
    ensures minimized_is_hidden { MinimizedIsHidden }
{}

/// The definitions give what single messages leave of a window, hand-computed. It does nothing.
pub fn worked_messages()
    ensures unmapped { Unmapped }
    ensures unmapped_twice { UnmappedTwice }
    ensures names_kept { NamesKept }
    ensures destroyed { Destroyed }
    ensures unknown_names { UnknownNames }
    ensures title_cut { TitleCut }
    ensures title_whole { TitleWhole }
    ensures class_and_name { ClassAndName }
    ensures hints_kept { HintsKept }
    ensures docked { Docked }
    ensures cursor_kept { CursorKept }
    ensures set_after_unset { SetAfterUnset }
    ensures three_flags { ThreeFlags }
    ensures dump_kept { DumpKept }
    ensures brought_into_range { BroughtIntoRange }
{}

/// The definitions give these hand-computed ends of sessions, one for each cause. It does nothing.
pub fn worked_causes()
    ensures link_lost { LinkLost }
    ensures type_not_taken { TypeNotTaken }
    ensures length_of_destroy { LengthOfDestroy }
    ensures length_of_dump { LengthOfDump }
    ensures one_reference_more { OneReferenceMore }
    ensures no_such_window { NoSuchWindow }
    ensures range_before_window { RangeBeforeWindow }
    ensures clipboard_of_no_window { ClipboardOfNoWindow }
    ensures not_created { NotCreated }
    ensures dump_out_of_range { DumpOutOfRange }
    ensures five_pages_of_four { FivePagesOfFour }
    ensures reference_before_budget { ReferenceBeforeBudget }
    ensures version_told { VersionTold }
{}

/// The definitions give these hand-computed runs of what the user does with the pointer, the keys and
/// the window manager's commands. It does nothing.
pub fn worked_input()
    ensures click_raises { ClickRaises }
    ensures grab_across_windows { GrabAcrossWindows }
    ensures release_after_focus_change { ReleaseAfterFocusChange }
    ensures next_window { NextWindow }
    ensures restored { Restored }
    ensures asked_to_close { AskedToClose }
    ensures resized { Resized }
    ensures outside_the_desktop { OutsideTheDesktop }
    ensures chords_are_kept { ChordsAreKept }
{}

/// The definitions give these hand-computed runs over several outputs, and tell which rule of the
/// outputs or of the clipboard a setup breaks. It does nothing.
pub fn worked_outputs()
    ensures pictures_of_outputs { PicturesOfOutputs }
    ensures pointer_between_outputs { PointerBetweenOutputs }
    ensures override_in_the_second { OverrideInTheSecond }
    ensures override_in_none { OverrideInNone }
    ensures full_screen_in_the_second { FullScreenInTheSecond }
    ensures share_of_an_output { ShareOfAnOutput }
    ensures outputs_break_rules { OutputsBreakRules }
    ensures clipboard_breaks_rules { ClipboardBreaksRules }
    ensures no_rule_broken { NoRuleBroken }
{}

/// The definitions give these hand-computed runs of what is copied and pasted, also where no paste may
/// go from one guest to the other. It does nothing.
pub fn worked_clipboard()
    ensures copied_and_pasted { CopiedAndPasted }
    ensures data_of_another { DataOfAnother }
    ensures ended_after_its_answer { EndedAfterItsAnswer }
    ensures ended_before_its_answer { EndedBeforeItsAnswer }
    ensures asked_again { AskedAgain }
    ensures denied_pair { DeniedPair }
    ensures other_way_round { OtherWayRound }
    ensures limit_of_revisions { LimitOfRevisions }
{}
