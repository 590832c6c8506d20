//! The folder that has a path's entry.
ghost use Rattle.std.specs.Prelude.{◌≡◌};
ghost use Rattle.sector_disk.specs.rules.Folder.{folder_of};

/// The folder that has the entry of a path.
pub(crate) fn folder_of(path: &str) -> &str
    ensures { result.now ≡ folder_of path.now }
{
    match path.rsplit_once('/') {
        None => ".",
        Some(("", _)) => "/",
        Some((folder, _)) => folder,
    }
}
