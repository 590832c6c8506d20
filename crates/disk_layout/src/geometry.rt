//! Where a worker's things lie on its disk.

ghost use Rattle.std.specs.Prelude.{◌≡◌, ◌≤◌, ◌+◌, ◌*◌, ◌^◌, length};
ghost use Rattle.std.specs.List.{AllByRecursion};
ghost use Rattle.wasi_abi.specs.declared.config.TheConstants.{MOST_TEXTS};
ghost use Rattle.wasi_abi.specs.rules.Configs.{IsShortText};
ghost use Rattle.disk_layout.specs.rules.Places.{geometry_of, texts_bytes, rounded_up, head_place};
ghost use Rattle.disk_layout.specs.rules.Places.{area_place, journal_place, total_sectors};

use crate::configuration::CONFIG_HEAD_BYTES;
use sector_disk::SECTOR_SIZE;
use wasi_abi::Config;
use wasm_syntax::ItemList;

/// Sectors of an area for all but memory and files.
const AREA_REST_SECTORS: u32 = 2048;

/// Sectors of an area for a page of memory, or for a unit of files.
const UNIT_SECTORS: u32 = 128;

/// The first sector of configuration and module. Before it are the super and the two heads.
pub const MODULE_PLACE: u64 = 3;

/// The lengths of configuration and module in bytes, and of their part of the disk, of an area and
/// of the journal in sectors.
#[derive(Clone, Copy, Debug, PartialEq, Eq)]
pub struct Geometry {
    pub config: u32,
    pub wasm: u32,
    pub module_sectors: u32,
    pub area_sectors: u32,
    pub journal_sectors: u32,
}

impl Geometry {
    /// Of this configuration and a module of so many bytes.
    pub fn of(config: &Config, module_len: u32) -> Geometry
        ensures { result ≡ geometry_of config.now module_len }
    {
        let arguments = texts_len(config.arguments().as_slice());
        let environment = texts_len(config.environment().as_slice());
        let config_len = CONFIG_HEAD_BYTES as u64 + arguments + environment;
        Geometry {
            config: config_len as u32,
            wasm: module_len,
            module_sectors: sectors_of(config_len + u64::from(module_len)) as u32,
            area_sectors: AREA_REST_SECTORS + UNIT_SECTORS * (config.pages() + config.files()),
            journal_sectors: config.journal(),
        }
    }

    /// The sector of the head of this generation.
    pub fn head_place(generation: u64) -> u64
        ensures { result ≡ head_place generation }
    {
        1 + generation % 2
    }

    /// The first sector of the area of this generation.
    pub fn area_place(&self, generation: u64) -> u64
        ensures { result ≡ area_place self.now generation }
    {
        MODULE_PLACE
            + u64::from(self.module_sectors)
            + generation % 2 * u64::from(self.area_sectors)
    }

    /// The first sector of the journal.
    pub fn journal_place(&self) -> u64
        ensures { result ≡ journal_place self.now }
    {
        MODULE_PLACE + u64::from(self.module_sectors) + 2 * u64::from(self.area_sectors)
    }

    /// How many sectors the disk needs.
    pub fn total_sectors(&self) -> u64
        ensures { result ≡ total_sectors self.now }
    {
        self.journal_place() + u64::from(self.journal_sectors)
    }
}

/// How many sectors so many bytes take.
pub(crate) fn sectors_of(bytes: u64) -> u64
    requires { bytes ≤ 2 ^ 63 }
    ensures { result ≡ rounded_up bytes }
{
    bytes.div_ceil(SECTOR_SIZE as u64)
}

/// How many bytes these texts take with their lengths and their number.
fn texts_len(texts: &[ItemList<u8>]) -> u64
    requires few { length texts.now ≤ MOST_TEXTS }
    requires short { AllByRecursion IsShortText texts.now }
    ensures length { result ≡ length (texts_bytes texts.now) }
    ensures within { result ≤ 4 + 64 * 1026 }
{
    let mut len = 4;
    for text in texts {
        len += 2 + text.len() as u64;
    }
    len
}
