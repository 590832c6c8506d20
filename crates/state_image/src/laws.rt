//! Laws of the image. The functions do nothing: what they ensure is the law.

ghost use Rattle.state_image.specs.laws.Examples.{FreshProcessImageSize};
ghost use Rattle.state_image.specs.laws.ProcessImageExamples.{ProcessImagesOnExamples};
ghost use Rattle.wasi_abi.specs.rules.Configs.{Settings};
ghost use Rattle.state_image.specs.laws.Refusals.{RefusesCounts, RefusesStreams, RefusesMachines};
ghost use Rattle.state_image.specs.laws.Refusals.{RefusesFiles, RefusesDescriptors};
ghost use Rattle.state_image.specs.laws.WellTypedExamples.{HelloBeginsWellTyped};
ghost use Rattle.state_image.specs.laws.WellTypedExamples.{HelloIsWellTypedInTwo};
ghost use Rattle.state_image.specs.laws.Reading.{NodesAreRead, DescriptorsAreRead};
ghost use Rattle.state_image.specs.laws.Reading.{PartsAreOfProcesses};
ghost use Rattle.state_image.specs.laws.ProcessImageOrder.{ProcessImagesAreInOrder, IsReadBack};
ghost use Rattle.state_image.specs.laws.ProcessImageOrder.{IsPartReadBack};
ghost use Rattle.wasi_abi.specs.rules.Layouts.{u32_bytes, u64_bytes};
ghost use Rattle.state_image.specs.rules.ProcessImage.{process_image_mark, counts_bytes};
ghost use Rattle.state_image.specs.rules.ProcessImage.{phase_bytes, streams_bytes, items_bytes};
ghost use Rattle.state_image.specs.rules.ProcessImage.{place_bytes, memory_bytes, entry_bytes};
ghost use Rattle.state_image.specs.rules.Ranges.{IsIn, AreWords, FitsCounts, FitsCode, FitsStreams};
ghost use Rattle.state_image.specs.rules.Ranges.{IsPlaceIn, IsWhole, IsEntryIn};
ghost use Rattle.state_image.specs.rules.Parts.{counts_of, read_end_of, streams_of};
ghost use Rattle.state_image.specs.rules.Fronts.{front_bytes, IsFrontIn};
ghost use Rattle.state_image.specs.rules.RawDescriptors.{raw_bytes, IsRawIn};
ghost use Rattle.state_image.specs.laws.Laws.{ProcessImagesAreDistinct, ProcessImagesHaveRoom};
ghost use Rattle.state_image.specs.laws.Laws.{ProcessImagesAreBytes, SavesWhatIsShown};
ghost use Rattle.state_image.specs.laws.Laws.{ReachedIsWellTyped, SavedIsWellTyped};
ghost use Rattle.state_image.specs.laws.Laws.{RestoredShowsReached};

/// The image of a well-typed process is that of no other one.
pub fn process_images_are_distinct()
    ensures { ProcessImagesAreDistinct }
{}

/// It is of bytes. It has a mebibyte at most, and what memory and files may have.
pub fn process_images_have_room()
    ensures room { ProcessImagesHaveRoom }
    ensures bytes { ProcessImagesAreBytes }
{}

/// The size of the image of a process that has just begun.
pub fn a_fresh_image_has_its_size()
    ensures { FreshProcessImageSize }
{}

/// The whole image of a small process, and phases and codes of others.
pub fn process_images_on_examples()
    ensures { ProcessImagesOnExamples }
{}

/// The process that `hello` begins as is well typed, in version 2 too. There it may have as many
/// unread bytes as a request has.
pub fn hello_begins_well_typed()
    ensures first { HelloBeginsWellTyped }
    ensures widened { HelloIsWellTypedInTwo }
{}

/// What no well-typed process has, clause by clause.
pub fn others_are_refused()
    ensures counts { (config : Settings) → RefusesCounts config }
    ensures streams { (config : Settings) → RefusesStreams config }
    ensures machines { (config : Settings) → RefusesMachines config }
    ensures files { (config : Settings) → RefusesFiles config }
    ensures descriptors { (config : Settings) → RefusesDescriptors config }
{}

/// What is saved of a process shows what the process shows.
pub fn saves_what_is_shown()
    ensures { SavesWhatIsShown }
{}

/// Every process that an accepted module reaches is well typed, and so is what is saved of the
/// code's process that shows it.
pub fn reached_processes_are_well_typed()
    ensures reached { ReachedIsWellTyped }
    ensures saved { SavedIsWellTyped }
{}

/// Take the image of a process that an accepted module has reached. A process that was made again
/// of it has what was saved of that one, and shows it.
pub fn restored_processes_are_the_saved()
    ensures { RestoredShowsReached }
{}

/// What is read of a node and of a descriptor, in steps, are their bytes. Any part that is read of
/// a process is that of one.
pub fn what_is_read_in_steps()
    ensures nodes { NodesAreRead }
    ensures descriptors { DescriptorsAreRead }
    ensures parts { PartsAreOfProcesses }
{}

/// Bytes that begin with those of a field lead its reader to this field, and to what is after it.
pub fn image_fields_are_read_back()
    ensures mark { IsReadBack process_image_mark (λ version. Unit {0}) }
    ensures counts { IsPartReadBack counts_of counts_bytes FitsCounts }
    ensures phase { IsPartReadBack read_end_of phase_bytes FitsCode }
    ensures streams { IsPartReadBack streams_of streams_bytes FitsStreams }
    ensures count { IsReadBack u32_bytes (IsIn 4) }
    ensures number { IsReadBack u64_bytes (IsIn 8) }
    ensures words { IsReadBack (items_bytes u64_bytes) AreWords }
    ensures frame { IsReadBack place_bytes IsPlaceIn }
    ensures memory { IsReadBack memory_bytes IsWhole }
    ensures front { IsReadBack front_bytes IsFrontIn }
    ensures entry { IsReadBack entry_bytes IsEntryIn }
    ensures descriptor { IsReadBack raw_bytes IsRawIn }
{}

/// Bytes are an image where its fields are in their order, and only there.
pub fn process_images_are_in_order()
    ensures { ProcessImagesAreInOrder }
{}
