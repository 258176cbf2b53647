// What is known of the output of each run.
ghost use Rattle.output_laws.specs.Isolated.{RunsAreIsolated};
ghost use Rattle.output_laws.specs.RunRecords.{RunsHaveRecords, GuestsRecordsAreAlone};

/// Does nothing. Its contract speaks of each run of items that fit a setup which breaks no rule, from the
/// opening state on, where the summary's count of drawn pixels is below 2^64 and the values of each cause
/// are below 2^32. Every post of such a run has a record: its guest and the number of its cause have 8
/// bits, its length 32, and the counts 64. So by `law_of_posts` of `record_format` the run's bytes are read
/// again as its posts; and the Reply and Ended records of each guest in them are the posts of the guest
/// alone, over the inputs that the run gives it and with the words that the run reads of its frames.
/// At each Snap the pictures stand among the records, each pixel from scratch, and a pixel that shows
/// the content of a guest's window has the colour that the window has in what the guest alone drew; and what an
/// item grants a guest carries nothing but what the user did and what the window may know of itself.
pub fn law_of_outputs()
    ensures records { RunsHaveRecords }
    ensures guests { GuestsRecordsAreAlone }
    ensures isolated { RunsAreIsolated }
{}
