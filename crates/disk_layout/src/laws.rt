//! Laws of the layout.

ghost use Rattle.disk_layout.specs.rules.Contents.{HoldsWhatIsWritten};
ghost use Rattle.disk_layout.specs.laws.Examples.{LayoutExamples};
ghost use Rattle.disk_layout.specs.laws.RecordExamples.{RecordExamples, JournalExamples};
ghost use Rattle.disk_layout.specs.laws.RecordExamples.{JournalsHaveRoom};
ghost use Rattle.disk_layout.specs.laws.SectorExamples.{SectorExamples};
ghost use Rattle.disk_layout.specs.laws.Heads.{WrittenIsComplete, HeadExamples};
ghost use Rattle.disk_layout.specs.laws.Numbers.{LayoutNumbers};
ghost use Rattle.disk_layout.specs.laws.Laws.{ShowsEarlier, NeverNewer, ReadsFieldsBack};
ghost use Rattle.disk_layout.specs.laws.Reading.{OneSpelling, OneAnswer, ReadsWhatIsWritten};

/// Worked examples: sizes, the bytes of a super and of a head, records, a torn stamp, and journals
/// that are scanned.
pub fn worked_examples()
    ensures layout { LayoutExamples }
    ensures sectors { SectorExamples }
    ensures records { RecordExamples }
    ensures journals { JournalExamples }
{}

/// What each number of the layout is, and each mark.
pub fn layout_numbers_are()
    ensures { LayoutNumbers }
{}

/// A journal that takes the records of a version has room for the longest one.
pub fn journals_have_room()
    ensures { JournalsHaveRoom }
{}

/// What a sector shows where a write of a later generation over it is torn.
pub fn torn_stamps()
    ensures earlier { ShowsEarlier }
    ensures never_newer { NeverNewer }
{}

/// A head that is written is complete. Worked examples of heads, and of images that they name.
pub fn heads_are_complete()
    ensures complete { WrittenIsComplete }
    ensures examples { HeadExamples }
{}

/// The fields that are read of stamps, heads and supers are those that were written.
pub fn fields_are_read_back()
    ensures { ReadsFieldsBack }
{}

/// Once configuration and module are written in their sectors, the disk holds them.
pub fn contents_are_held()
    ensures { HoldsWhatIsWritten }
{}

// Laws of configuration and module on a disk.

/// The bytes of a configuration are those of no other.
pub fn one_spelling()
    ensures { OneSpelling }
{}

/// Of a disk at most one answer is right, apart from out of memory and a fault of the disk.
pub fn one_answer()
    ensures { OneAnswer }
{}

/// Where configuration and module were written with their super, the answer is these.
pub fn what_is_written_is_read()
    ensures { ReadsWhatIsWritten }
{}
