// What is known of each guest.
ghost use Rattle.isolation_laws.specs.Isolation.{OpenedRunsAreAlone, RunsAreAlone, StepsAreAlone, TwoWorlds};
ghost use Rattle.isolation_laws.specs.Masks.{MaskedStepsAreAlike, RunsKeepAlike, StepsKeepAlike};

/// Does nothing. Its contract says of each guest and each item that the guest's windows, end, minor
/// version and posts after the step are those of the guest alone, from its part of the state before, over
/// the inputs of this step that reached it, with the words that were read of its frames as tape. The same
/// holds of whole runs, and from the opening state on the guest alone is one that was never heard of.
pub fn law_guest_alone()
    ensures step { StepsAreAlone }
    ensures run { RunsAreAlone }
    ensures opened { OpenedRunsAreAlone }
{}

/// Does nothing. Its contract says that two runs, over setups that agree but for names, colours and denied
/// pairs, in which a guest has equal inputs and readings, have equal posts of this guest, and equal windows
/// of it with their contents. All else may differ, the other guests' sessions included.
pub fn law_two_worlds()
    ensures { TwoWorlds }
{}

/// Does nothing. Its contract says that a step or a run from the mask of a state, its pieces masked too,
/// gives the inputs and the posts of the state's own, but for the colours of pictures, and leads to a state
/// with the same mask. So what a guest drew and how it named its windows reaches no later reply to any guest.
pub fn law_mask()
    ensures masked { MaskedStepsAreAlike }
    ensures step { StepsKeepAlike }
    ensures run { RunsKeepAlike }
{}
