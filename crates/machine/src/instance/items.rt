//! Items by their indices.

ghost use Rattle.std.specs.Prelude.{◌≡◌, slice_get, option_copied};

/// The item at an index of the module.
pub fn at<T>(items: &[T], index: u32) -> Option<&T>
    ensures { option_copied result ≡ slice_get items.now index }
{
    items.get(index as usize)
}
