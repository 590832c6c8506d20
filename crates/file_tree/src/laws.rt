//! Laws of the file system model. The functions do nothing: what they ensure is the law.

ghost use Rattle.file_tree.specs.laws.FileLimits.{FileLimitNumbers};
ghost use Rattle.file_tree.specs.laws.Laws.{RenameMovesASubtree};
ghost use Rattle.file_tree.specs.laws.Rebuilding.{EntriesTellPaths, EntriesTellFiles};
ghost use Rattle.file_tree.specs.laws.Rebuilding.{HangingAddsAnEntry, OthersKeepEntries};
ghost use Rattle.file_tree.specs.laws.Rebuilding.{EntriesComeInOrder, EntriesDiffer};
ghost use Rattle.file_tree.specs.laws.Rebuilding.{ChildrenAreListed, FilledFiles};

/// Renaming moves a whole subtree and nothing else.
pub fn renaming_moves_a_subtree()
    ensures { RenameMovesASubtree }
{}

/// What each limit of the file system is.
pub fn file_limits_are()
    ensures { FileLimitNumbers }
{}

/// Each node but the root that has a path is an entry of one directory. Its path is that of the
/// directory with the name after it.
pub fn entries_tell_paths()
    ensures { EntriesTellPaths }
{}

/// A file system is another one if it has the same nodes, and those of its directories that have a
/// path have the same entries.
pub fn entries_tell_files()
    ensures { EntriesTellFiles }
{}

/// A node that is hung is one entry more of its directory, and all others stay.
pub fn hanging_adds_an_entry()
    ensures { HangingAddsAnEntry }
{}

/// A new node without a path, a higher next number and other bytes leave all entries.
pub fn others_keep_entries()
    ensures { OthersKeepEntries }
{}

/// Entries that are put in one after the other by their names are after each other.
pub fn entries_come_in_order()
    ensures { EntriesComeInOrder }
{}

/// A new file that is filled with bytes is a new file of these bytes.
pub fn filled_files()
    ensures { FilledFiles }
{}

/// A name leads to the node that its directory lists under it.
pub fn children_are_listed()
    ensures { ChildrenAreListed }
{}

/// No two entries of a directory have one name, nor are they of one node.
pub fn entries_differ()
    ensures { EntriesDiffer }
{}
