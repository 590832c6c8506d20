//! Laws of the disk model. The functions do nothing: what they ensure is the law.

ghost use Rattle.sector_disk.specs.laws.Sizes.{SectorSizeNumber};
ghost use Rattle.sector_disk.specs.laws.Examples.{DiskImageExamples, RunExamples, CountExamples};
ghost use Rattle.sector_disk.specs.laws.Examples.{CallExamples, FolderExamples};

/// How many bytes a sector has.
pub fn sector_size_is()
    ensures { SectorSizeNumber }
{}

/// Worked examples: images, runs of writes, what is counted, which calls there were, and folders.
pub fn worked_examples()
    ensures images { DiskImageExamples }
    ensures runs { RunExamples }
    ensures counts { CountExamples }
    ensures calls { CallExamples }
    ensures folders { FolderExamples }
{}
