//! Nodes of a host that move.

ghost use Rattle.std.specs.Prelude.{◌≡◌, ◌++◌, ◌∷◌, []};
ghost use Rattle.file_tree.specs.rules.Files.{renamed};
ghost use Rattle.file_tree.specs.rules.Changes.{CanMove, path_at};
ghost use Rattle.wasi_calls_rules.specs.Entries.{is_within_node};

use crate::host::WasiState;
use file_tree::ByteList;

impl WasiState {
    /// Whether a directory is a node, or lies below it.
    pub(crate) fn is_within(&self, node: u64, directory: u64) -> bool
        ensures { result ≡ is_within_node self.now.host.files node directory }
    {
        self.tree.is_within(node, directory)
    }

    /// Moves a node, with all that lies below it, to a free name in a directory.
    pub(crate) fn rename(&mut self, node: u64, directory: u64, name: ByteList)
        requires { CanMove self.old.host.files node directory name }
        ensures { self.new ≡ record self.old {
          host = record self.old.host {
            files = renamed (path_at self.old.host.files node)
                (path_at self.old.host.files directory ++ name ∷ []) self.old.host.files;
          };
        } }
    {
        self.tree.rename(node, directory, name);
    }
}
