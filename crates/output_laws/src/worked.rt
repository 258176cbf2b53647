// A small run whose records are known.
ghost use Rattle.output_laws.specs.WorkedRecords.{GreetedInRecords, EndedInRecords, NobodyInRecords};

/// The bytes of this hand-computed run have these records. It does nothing. The records come by the law, so
/// there is a run that meets all that the law asks for.
pub fn worked_records()
    ensures greeted { GreetedInRecords }
    ensures ended { EndedInRecords }
    ensures nobody { NobodyInRecords }
{}
