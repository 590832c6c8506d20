//! What disagrees on a damaged disk.
use std::alloc::AllocError;
use thiserror::Error;

/// The first thing that disagrees, in the order in which a disk is read. So all that comes before
/// it is right. The words are those of `docs/FORMATS.md`.
#[derive(Clone, Copy, Debug, PartialEq, Eq, Error)]
pub enum Damage {
    /// The sectors of configuration and module aren't those that their lengths take.
    #[error("super, sector 0: m, the sectors of configuration and module, isn't c + w rounded up")]
    ModuleSectors,
    /// Configuration and module have another digest than the super's.
    #[error("super, sector 0: the SHA-256 isn't that of configuration and module")]
    ContentsDigest,
    /// They have the digest, and the first bytes spell no configuration within its limits.
    #[error("configuration, from sector 3 on: the first c bytes are no configuration")]
    Configuration,
    /// The sectors of an area aren't those of the configuration.
    #[error("super, sector 0: a, the sectors of an area, isn't as the configuration says")]
    AreaSectors,
    /// The sectors of the journal aren't those of the configuration.
    #[error("super, sector 0: j, the sectors of the journal, isn't as the configuration says")]
    JournalSectors,
    /// The journal doesn't take the longest record of the newest head's version.
    #[error("super, sector 0: j is below 133, and the version in the newest head is 2")]
    ShortJournal,
    /// The newest image, in this area, begins with the mark of another version than its head's.
    #[error("area {0}: the image has the mark of another version than its head")]
    OtherMark(u64),
    /// The first sector of the journal shows a later generation than the newest head.
    #[error("journal, first sector: the generation is above that of the newest head")]
    LaterGeneration,
}
