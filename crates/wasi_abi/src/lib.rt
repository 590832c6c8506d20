//! Numbers, layouts and calls of WASI preview 1, as the witx files of `wasi_snapshot_preview1` have
//! them. Outside answers, configurations and the sets of rights are this project's own.
//!
//! # Example
//!
//! ```text
//! let config = Config::new(pages, files, journal, arguments, environment)?;
//! if let Some(call) = Call::named("fd_write") {
//!     let types = call.parameters();
//! }
//! let number = Errno::Noent.number();
//! let taken = fits(Version::One.text_limit(), Question::Request, &answer);
//! ```
//!
//! # Promises
//!
//! - `Errno`, `FileType`, `Rights`, `OpenFlags`, `DescriptorFlags` and `Whence` have the numbers of
//!   the definitions. `Rights::has` and `is_within` test what `are_within` says (`all`, `one`), and
//!   `has` of flags what `has_flag` says.
//! - `Call::named` finds the call with a name (`found`, `none`). `name`, `parameters` and `results`
//!   are those of the definitions.
//! - `Fdstat`, `Filestat`, `Dirent`, `Prestat`, `Iovec` are written byte by byte as defined. What
//!   is read is what the bytes hold (`fields`), and so what was written (`written`).
//! - `fits` is true exactly where an answer is one to what was asked (`Fits`).
//! - `Config::new` answers Ok exactly within the limits (`ok`), and else `C1 Range` (`range`) or
//!   `C2 Text` (`text`). A `Config` is within its limits by its type (`within`).
//! - A `Version` has its number, the limit of its texts, the bytes of a length, and the answers
//!   that nobody gave (`Version`).
//! - Ten calls that do nothing ensure laws, as `sets_have_their_rights` and `numbers_end_is`.
//!   Numbers and names are each of one thing, and layouts and limits have their sizes.
//!
//! # Definitions to read
//!
//! In `specs/rules/`: `errno_number`, the rights and sets of rights (`Numbers.antt`);
//! `fdstat_bytes` and its kin (`Layouts.antt`); `name_of`, `parameters_of`, `result_types`
//! (`Calls.antt`); `Fits` (`Answers.antt`); `text_limit` and its kin (`Versions.antt`); `Settings`,
//! `AreSettingsWithinLimits` (`Configs.antt`).
//!
//! # Who may touch what
//!
//! Only this crate knows at which byte of a layout a field lies, and keeps a configuration's
//! limits. Nearly every crate of the host's side uses it. No memory is taken. The one error is
//! `ConfigFault`.
#![tactic(auto)]

mod answer;
mod call;
mod config;
mod errno;
mod file_type;
mod flags;
mod laws;
mod layout;
mod numbers;
mod rights;
mod version;

pub use answer::{Answer, Question, fits};
pub use call::{Call, MODULE_NAME};
pub use config::{Config, ConfigFault, MOST_TEXTS};
pub use errno::Errno;
pub use file_type::FileType;
pub use flags::{
    ALL_DESCRIPTOR_FLAGS, ALL_LOOKUP_FLAGS, ALL_OPEN_FLAGS, DescriptorFlags, OpenFlags, Whence,
};
pub use laws::{
    bytes_spell_numbers, calls_differ, configuration_limits_are, errors_are_no_success,
    layouts_have_their_sizes, numbers_end_is, rights_have_their_bits, sets_have_their_rights,
    versions_have_room, worked_directory,
};
pub use layout::{
    DIRENT_BYTES, Dirent, FDSTAT_BYTES, FILESTAT_BYTES, Fdstat, Filestat, IOVEC_BYTES, Iovec,
    PRESTAT_BYTES, Prestat,
};
pub use numbers::NUMBERS_END;
pub use rights::Rights;
pub use version::Version;
