// What is known of the grammars.
ghost use Rattle.record_format.specs.RecordLaws.{ItemsAreRead, WholeRecordsAreRead, CutRecordsAreShort, ReadRecordsWereSpelled, ReadItemsFit};
ghost use Rattle.record_format.specs.MadeLaws.{MadeRecordsAreRead, HaveLengths, TenRounds, FirstPicture};
ghost use Rattle.record_format.specs.OutputRecords.{PostsAreRead, GuestRecordsAreRead, ReadPostsWereSpelled};

/// Does nothing. Its contract says that a record is read as it was spelled: a setup that breaks no rule
/// and items that fit it are read as exactly these, and then what stands behind them; with End behind
/// them they are the whole record, whatever follows; with nothing behind them the record is too short,
/// at its end. And the other way: a setup and items that are read of bytes are spelled by them, up to
/// End, or to the offset of a fault, where no item stands; and each of these items fits the setup.
pub fn law_of_records()
    ensures read { ItemsAreRead }
    ensures whole { WholeRecordsAreRead }
    ensures short { CutRecordsAreShort }
    ensures spelled { ReadRecordsWereSpelled }
    ensures fits { ReadItemsFit }
{}

/// Does nothing. Its contract says that the bytes of posts are read again as these posts, one record after
/// another, where the numbers have the widths of their fields; so the replies and endings of a guest in an
/// output are a function of the output's bytes, and are the posts for this guest, in their order. And the
/// other way: the records that are read of bytes are spelled by them.
pub fn law_of_posts()
    ensures read { PostsAreRead }
    ensures guest { GuestRecordsAreRead }
    ensures spelled { ReadPostsWereSpelled }
{}

/// Does nothing. Its contract says of the record that `put_made` writes for a number, whatever the number: it is
/// a whole record, and is read as the setup and the items that it was made of. And it says what a small one is, as it
/// was worked out by hand: its length, the items of ten rounds, and where the first picture comes.
pub fn law_of_made_records()
    ensures read { MadeRecordsAreRead }
    ensures lengths { HaveLengths }
    ensures ten { TenRounds }
    ensures picture { FirstPicture }
{}
