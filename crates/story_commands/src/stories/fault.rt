//! Why a script isn't read.

ghost use Rattle.std.specs.Prelude.{◌≡◌};
ghost use Rattle.story_commands.specs.declared.stories.fault.ScriptFault.TheVariants.{Memory};

use std::alloc::AllocError;
use thiserror::Error;

/// Why a line of a script may not be where it is.
#[derive(Clone, Copy, Debug, PartialEq, Eq)]
pub enum LineCause {
    /// It has no bytes.
    Empty,
    /// No line begins with its first word.
    UnknownWord,
    /// Something follows a word that stands alone.
    WordStandsAlone,
    /// Nothing follows a word behind which there must be more.
    WordLacksMore,
    /// Other bytes than digits are where a number has to be, or none.
    NotANumber,
    /// A number is 2^64 or more.
    NumberTooLarge,
    /// A number is 0 that is from 1 on.
    NumberIsZero,
    /// One number stands where two have to be.
    SecondNumberMissing,
    /// A front is more than a sector.
    FrontTooLarge,
    /// Random bytes aren't hexadecimal digits, two for each.
    NotHexadecimal,
    /// Tears aren't fronts with one space between each two.
    NotFronts,
    /// No life is begun before it.
    NoLifeBegun,
    /// Its life has a stop already.
    SecondStop,
    /// Its life has a call that fails already.
    SecondFail,
    /// Its life has a refused line already.
    SecondRefuse,
    /// Its life has tears already.
    SecondTears,
    /// It is a stop, a fail, a refuse or tears, in the script of a sweep.
    NotSwept,
}

#[derive(Clone, Copy, Debug, PartialEq, Eq, Error)]
pub enum ScriptFault {
    /// This line, counted from 1, has another form, or may not be where it is.
    #[error("failed script line {number}")]
    Line { number: u64, cause: LineCause },
    #[error("failed N4 Memory")]
    Memory,
}

impl From<AllocError> for ScriptFault {
    ghost from_gives = { λ _ e. e ≡ Memory };

    fn from(_fault: AllocError) -> ScriptFault {
        ScriptFault::Memory
    }
}
