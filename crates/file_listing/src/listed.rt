//! A node of a list.

ghost use Rattle.std.specs.Prelude.{◌≡◌};

use wasm_syntax::ItemList;

/// A node that has a path.
#[derive(Debug, Drop)]
pub struct ListedNode {
    pub number: u64,
    pub is_directory: bool,
    /// How many bytes a file has; a directory has none.
    pub size: u64,
    /// Its names from the root on, with a `/` between each two.
    pub path: ItemList<u8>,
}

impl ListedNode {
    ghost use Rattle.file_listing.specs.rules.Listed.{IsPathText};

    /// The path as text.
    pub fn path_text(&self) -> &str
        requires { IsPathText self.now.path }
        ensures { result.now ≡ self.now.path }
    {
        match str::from_utf8(self.path.as_slice()) {
            Ok(text) => text,
            Err(_) => unreachable!(),
        }
    }
}
