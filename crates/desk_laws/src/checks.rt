// What is checked of a message is what ends a session.
ghost use Rattle.desk_laws.specs.Checks.{FirstCauseIsTheVerdicts, FirstCauseAsksLittle};

/// The first cause of a message that is checked by itself and by its guest's rows is the one that
/// ends the session; of the rows it asks which windows there are, how many, and how many references
/// they have. It does nothing.
pub fn law_first_cause()
    ensures verdict { FirstCauseIsTheVerdicts }
    ensures rows { FirstCauseAsksLittle }
{}
