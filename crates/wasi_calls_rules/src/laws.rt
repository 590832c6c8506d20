//! Laws of the rules of the calls. The functions do nothing: what they ensure is the law.

ghost use Rattle.wasi_calls_rules.specs.laws.Examples.{OpeningExamples, MovingExamples};
ghost use Rattle.wasi_calls_rules.specs.laws.Examples.{WritingExamples, SmallExamples};
ghost use Rattle.wasi_calls_rules.specs.laws.Examples.{DirectoryExamples};
ghost use Rattle.wasi_calls_rules.specs.laws.PlainExamples.{ErrorNumbers, TextExamples};
ghost use Rattle.wasi_calls_rules.specs.laws.PlainExamples.{ClockExamples, RandomExamples};
ghost use Rattle.wasi_calls_rules.specs.laws.PlainExamples.{ProcessExamples};
ghost use Rattle.wasi_calls_rules.specs.laws.DescriptorExamples.{CloseExamples, SyncExamples};
ghost use Rattle.wasi_calls_rules.specs.laws.DescriptorExamples.{StatusExamples, FlagExamples};
ghost use Rattle.wasi_calls_rules.specs.laws.DescriptorExamples.{FileStatusExamples};
ghost use Rattle.wasi_calls_rules.specs.laws.DescriptorExamples.{SizeExamples, PrestatExamples};
ghost use Rattle.wasi_calls_rules.specs.laws.DescriptorExamples.{SeekExamples, TellExamples};
ghost use Rattle.wasi_calls_rules.specs.laws.TransferExamples.{InputExamples, FileReadExamples};
ghost use Rattle.wasi_calls_rules.specs.laws.TransferExamples.{PlaceReadExamples};
ghost use Rattle.wasi_calls_rules.specs.laws.TransferExamples.{FileWriteExamples};
ghost use Rattle.wasi_calls_rules.specs.laws.TransferExamples.{PlaceWriteExamples, MovedExamples};
ghost use Rattle.wasi_calls_rules.specs.laws.TransferExamples.{LineExamples};
ghost use Rattle.wasi_calls_rules.specs.laws.PathExamples.{ListingExamples, FormExamples};
ghost use Rattle.wasi_calls_rules.specs.laws.PathExamples.{WalkExamples, PathStatusExamples};
ghost use Rattle.wasi_calls_rules.specs.laws.PathExamples.{MakingExamples, RemovalExamples};
ghost use Rattle.wasi_calls_rules.specs.laws.PathExamples.{RenameExamples};
ghost use Rattle.wasi_calls_rules.specs.laws.OpenExamples.{OpenedExamples, OpenRefusedExamples};
ghost use Rattle.wasi_calls_rules.specs.laws.OpenExamples.{OpenRightExamples, OpenLimitExamples};
ghost use Rattle.wasi_calls_rules.specs.laws.StoryExamples.{RenameStory, UnlinkStory, SizeStory};
ghost use Rattle.wasi_calls_rules.specs.laws.StoryExamples.{AnswerStory, PageStory};
ghost use Rattle.wasi_calls_rules.specs.laws.CallLimits.{CallLimitNumbers};
ghost use Rattle.wasi_calls_rules.specs.laws.Laws.{CallRulesKeepMemory, CallRulesKeepBytes};
ghost use Rattle.wasi_calls_rules.specs.laws.Laws.{CallRulesEmit, CallRulesKeepConfigurations};
ghost use Rattle.wasi_calls_rules.specs.laws.Laws.{CallRulesKeepStatesOfBytes};
ghost use Rattle.wasi_calls_rules.specs.laws.Laws.{CallRulesKeepVersions, FirstsAreWasiStates};
ghost use Rattle.wasi_calls_rules.specs.laws.Laws.{CallRulesKeepWasiStates};
ghost use Rattle.wasi_calls_rules.specs.laws.Laws.{CallRulesMakeOneNodeAtMost};
ghost use Rattle.wasi_calls_rules.specs.laws.Laws.{CallRulesKeepInputShort, CallRulesKeepTimes};
ghost use Rattle.wasi_calls_rules.specs.laws.Laws.{LastTimesAreTold, TestsTellWhatFits};
ghost use Rattle.wasi_calls_rules.specs.laws.Laws.{FewCallRulesAsk, CallRulesAskOnce};
ghost use Rattle.wasi_calls_rules.specs.laws.Laws.{ExitAloneEnds};

/// The rules give on examples what the profile gives.
pub fn worked_examples()
    ensures opening { OpeningExamples }
    ensures moving { MovingExamples }
    ensures writing { WritingExamples }
    ensures small { SmallExamples }
    ensures directories { DirectoryExamples }
{}

/// Each error has its number.
pub fn errors_have_their_numbers()
    ensures { ErrorNumbers }
{}

/// Arguments, clocks, random bytes and the process on examples, each limit from both sides.
pub fn plain_calls_on_examples()
    ensures texts { TextExamples }
    ensures clocks { ClockExamples }
    ensures random { RandomExamples }
    ensures process { ProcessExamples }
{}

/// Closing and syncing a descriptor, and what it is told to be, on examples.
pub fn descriptors_on_examples()
    ensures closing { CloseExamples }
    ensures syncing { SyncExamples }
    ensures status { StatusExamples }
    ensures flags { FlagExamples }
    ensures file_status { FileStatusExamples }
    ensures first_directory { PrestatExamples }
{}

/// Sizes and offsets of a file on examples, each limit from both sides.
pub fn sizes_and_offsets_on_examples()
    ensures sizes { SizeExamples }
    ensures seeking { SeekExamples }
    ensures telling { TellExamples }
{}

/// Reads of input and of files on examples.
pub fn reads_on_examples()
    ensures input { InputExamples }
    ensures files { FileReadExamples }
    ensures places { PlaceReadExamples }
    ensures moved { MovedExamples }
{}

/// Writes to files and lines on examples, each limit from both sides.
pub fn writes_on_examples()
    ensures files { FileWriteExamples }
    ensures places { PlaceWriteExamples }
    ensures lines { LineExamples }
{}

/// The form of paths and walks along them on examples, each limit from both sides.
pub fn paths_on_examples()
    ensures form { FormExamples }
    ensures walks { WalkExamples }
    ensures status { PathStatusExamples }
{}

/// Directories that are listed, made and removed, and renames, on examples.
pub fn directories_on_examples()
    ensures listing { ListingExamples }
    ensures making { MakingExamples }
    ensures removal { RemovalExamples }
    ensures renaming { RenameExamples }
{}

/// Files and directories that are opened on examples: flags, rights and limits.
pub fn opening_on_examples()
    ensures opened { OpenedExamples }
    ensures refused { OpenRefusedExamples }
    ensures rights { OpenRightExamples }
    ensures limits { OpenLimitExamples }
{}

/// Calls one after another: a file that moves, one that is unlinked while it is open, sizes,
/// answers and long lines.
pub fn calls_in_turn_on_examples()
    ensures renaming { RenameStory }
    ensures unlinking { UnlinkStory }
    ensures sizes { SizeStory }
    ensures answers { AnswerStory }
    ensures pages { PageStory }
{}

/// No call that is done makes memory longer or shorter, or puts anything but bytes into it.
pub fn calls_keep_memory()
    ensures length { CallRulesKeepMemory }
    ensures bytes { CallRulesKeepBytes }
{}

/// No call that is done takes back a line.
pub fn calls_emit_lines()
    ensures { CallRulesEmit }
{}

/// A call that is done makes one node at most, and gives no number twice.
pub fn calls_make_one_node_at_most()
    ensures { CallRulesMakeOneNodeAtMost }
{}

/// At most one request's text and its newline wait to be read. A call that is done leaves no more.
pub fn calls_keep_input_short()
    ensures { CallRulesKeepInputShort }
{}

/// A guest never sees a monotonic clock fall: it is told the last time that was seen, and no call
/// lowers that.
pub fn monotonic_clocks_never_fall()
    ensures kept { CallRulesKeepTimes }
    ensures told { LastTimesAreTold }
{}

/// A process begins with a host. What a call that is done leaves of a host is one, where memory
/// holds bytes.
pub fn calls_keep_hosts()
    ensures first { FirstsAreWasiStates }
    ensures kept { CallRulesKeepWasiStates }
{}

/// Where memory and the host hold bytes, the host holds bytes after a call that is done.
pub fn calls_keep_hosts_of_bytes()
    ensures { CallRulesKeepStatesOfBytes }
{}

/// No call that is done changes what the host was configured with.
pub fn calls_keep_configurations()
    ensures configured { CallRulesKeepConfigurations }
    ensures version { CallRulesKeepVersions }
{}

/// The rules take an answer exactly where it fits what is asked for.
pub fn answers_are_taken_that_fit()
    ensures { TestsTellWhatFits }
{}

/// Three calls may want an answer from outside. A call wants none once it has one that fits.
pub fn few_calls_ask_and_once()
    ensures few { FewCallRulesAsk }
    ensures once { CallRulesAskOnce }
{}

/// No call but `proc_exit` ends the process.
pub fn one_call_ends()
    ensures { ExitAloneEnds }
{}

/// What each limit of the calls is.
pub fn call_limits_are()
    ensures { CallLimitNumbers }
{}
