//! Laws of the definitions that the contracts of this crate cite.

ghost use Rattle.std.specs.Prelude.{◌≡◌, [], ◌∷◌, bit_or, map};
ghost use Rattle.wasi_abi.specs.rules.Calls.{module_name};
ghost use Rattle.wasi_abi.specs.laws.ConfigLimits.{ConfigLimitNumbers};
ghost use Rattle.wasi_abi.specs.laws.NumbersEnd.{NumbersEndThere};
ghost use Rattle.wasi_abi.specs.laws.Laws.{ErrorsAreNoSuccess, right_masks, CallsDiffer};
ghost use Rattle.wasi_abi.specs.laws.Laws.{LayoutSizes, BytesSpellNumbers, WorkedDirectory};
ghost use Rattle.wasi_abi.specs.laws.Laws.{VersionsHaveRoom};
ghost use Rattle.wasi_abi.specs.rules.Numbers.{rights_number, file_rights, directory_rights};
ghost use Rattle.wasi_abi.specs.rules.Numbers.{all_rights, input_rights, output_rights};

use crate::call::MODULE_NAME;
use crate::rights::Rights;

/// Every error has a number above that of success.
pub fn errors_are_no_success()
    ensures { ErrorsAreNoSuccess }
{}

/// Each right has its bit.
pub fn rights_have_their_bits()
    ensures { map rights_number (Rights.FD_DATASYNC ∷ Rights.FD_READ ∷ Rights.FD_SEEK
        ∷ Rights.FD_FDSTAT_SET_FLAGS ∷
        Rights.FD_SYNC ∷ Rights.FD_TELL ∷ Rights.FD_WRITE ∷ Rights.FD_ADVISE ∷
        Rights.FD_ALLOCATE ∷ Rights.PATH_CREATE_DIRECTORY ∷ Rights.PATH_CREATE_FILE ∷
        Rights.PATH_LINK_SOURCE ∷ Rights.PATH_LINK_TARGET ∷ Rights.PATH_OPEN ∷ Rights.FD_READDIR ∷
        Rights.PATH_READLINK ∷ Rights.PATH_RENAME_SOURCE ∷ Rights.PATH_RENAME_TARGET ∷
        Rights.PATH_FILESTAT_GET ∷ Rights.PATH_FILESTAT_SET_SIZE ∷
        Rights.PATH_FILESTAT_SET_TIMES ∷ Rights.FD_FILESTAT_GET ∷ Rights.FD_FILESTAT_SET_SIZE ∷
        Rights.FD_FILESTAT_SET_TIMES ∷ Rights.PATH_SYMLINK ∷ Rights.PATH_REMOVE_DIRECTORY ∷
        Rights.PATH_UNLINK_FILE ∷ Rights.POLL_FD_READWRITE ∷ Rights.SOCK_SHUTDOWN ∷ [])
        ≡ right_masks }
{}

/// The sets of rights have the numbers of the profile, and `ALL` is `FILE` and `DIRECTORY`
/// together.
pub fn sets_have_their_rights()
    ensures file { rights_number Rights.FILE ≡ file_rights }
    ensures directory { rights_number Rights.DIRECTORY ≡ directory_rights }
    ensures all { rights_number Rights.ALL ≡ all_rights }
    ensures input { rights_number Rights.INPUT ≡ input_rights }
    ensures output { rights_number Rights.OUTPUT ≡ output_rights }
    ensures together { all_rights ≡ bit_or file_rights directory_rights }
{}

/// There are 31 calls of the module, each with a name of its own.
pub fn calls_differ()
    ensures calls { CallsDiffer }
    ensures module { MODULE_NAME.now ≡ module_name }
{}

/// Each layout has its number of bytes, whatever its fields are.
pub fn layouts_have_their_sizes()
    ensures { LayoutSizes }
{}

/// What the fields of a layout hold is read back, and what is read is what the bytes spell.
pub fn bytes_spell_numbers()
    ensures { BytesSpellNumbers }
{}

/// Entries of a directory, byte by byte.
pub fn worked_directory()
    ensures { WorkedDirectory }
{}

/// Where the numbers of steps, lines and generations end.
pub fn numbers_end_is()
    ensures { NumbersEndThere }
{}

/// What a configuration may have at most and has at least.
pub fn configuration_limits_are()
    ensures { ConfigLimitNumbers }
{}

/// A version has a number of its own, and lengths with room in their bytes.
pub fn versions_have_room()
    ensures { VersionsHaveRoom }
{}
