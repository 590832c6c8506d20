//! What is on a file as it is opened. Only clauses read a first image. The type has no size and
//! takes no memory, and its functions do nothing at run time.
//!
//! **A file has a first image, which no code knows.** The log alone would fit every image. Of a
//! file that was just opened nothing could be said then, and no law about lives would have had an
//! instance for it. The image comes from the call that measures the file (`DiskFile::measure`), so
//! no body that opens a file can choose it.
ghost use Rattle.std.specs.Prelude.{◌≡◌};
ghost use Rattle.std.specs.Borrow.{ftrue};
ghost use Rattle.sector_disk.specs.rules.DiskImage.{DiskImage, IsDiskImage};

use std::marker::{Model, PhantomData};

/// An image that code can't read, so it changes no result.
#[derive(Drop)]
pub struct FirstImage {
    mark: PhantomData<()>,
    pub(crate) ghost image: { DiskImage },
}

// With it the check leaves the function below to a proof by hand, which names the image.
impl Model for FirstImage {
    ghost also_owns = { λ _. ftrue };
}

impl FirstImage {
    /// An image of so many sectors, whichever a clause names.
    pub(crate) fn of(sectors: u64) -> FirstImage
        ghost first: { DiskImage }
        requires { IsDiskImage sectors first }
        ensures whole { IsDiskImage sectors result.image }
        ensures same { result.image ≡ first }
    {
        let _ = sectors;
        FirstImage::new()
    }

    fn new() -> FirstImage
        ghost first: { DiskImage }
        ensures { result.image ≡ first }
    {
        FirstImage { mark: PhantomData }
    }
}
