// What is known of all spellings.
ghost use Rattle.gui_wire.specs.Laws.{AgentSpellingsDiffer, DaemonSpellingsDiffer};

/// Does nothing. Its contract says that spellings can be told apart, those of messages from an agent
/// among themselves and those of messages to one among themselves: different pairs of window and
/// message have different spellings, and none is a proper prefix of another.
pub fn law_spelling()
    ensures agent { AgentSpellingsDiffer }
    ensures daemon { DaemonSpellingsDiffer }
{}
