//! Removed nodes of a tree.

ghost use Rattle.std.specs.Prelude.{◌≡◌};
ghost use Rattle.file_tree.specs.rules.Files.{only_named};

use crate::tree::Tree;

impl Tree {
    /// Drops each node that was removed, with its bytes. Their numbers aren't used again. It takes
    /// no memory.
    pub fn forget_removed(&mut self)
        ensures { self.new ≡ only_named self.old }
    {
        for place in (0..self.len()).rev() {
            let Some(number) = self.number_at(place) else {
                continue;
            };
            if !self.has_path(number) {
                self.forget(number);
            }
        }
    }
}
