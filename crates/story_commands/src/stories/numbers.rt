//! Numbers of a script.

ghost use Rattle.std.specs.Prelude.{◌≡◌};
ghost use Rattle.std.specs.List.{list_all};
ghost use Rattle.std.specs.Char.{is_ascii_digit};
ghost use Rattle.story_commands.specs.rules.Scripts.{number_spelled, count_spelled, front_spelled};
ghost use Rattle.story_commands.specs.rules.Scripts.{batch_spelled, point_spelled};

use command_words::split_once;
use sector_disk::FaultPoint;
use worker::story::PlannedAct;

/// The number of bytes of a sector.
const SECTOR_BYTES: u64 = 512;

pub(super) fn all_digits(bytes: &[u8]) -> bool
    ensures { result ≡ list_all is_ascii_digit bytes.now }
{
    bytes.iter().all(|byte| byte.is_ascii_digit())
}

/// The number that decimal digits spell, zeros in front or not, without a sign.
pub(super) fn read_number(digits: &[u8]) -> Option<u64>
    ensures { result ≡ number_spelled digits.now }
{
    if !all_digits(digits) {
        return None;
    }
    match std::str::from_utf8(digits) {
        Ok(text) => text.parse().ok(),
        Err(_) => None,
    }
}

/// A number from 1 on.
pub(super) fn read_count(digits: &[u8]) -> Option<u64>
    ensures { result ≡ count_spelled digits.now }
{
    let number = read_number(digits)?;
    if number == 0 {
        return None;
    }
    Some(number)
}

/// So many bytes of a write.
pub(super) fn read_front(digits: &[u8]) -> Option<u16>
    ensures { result ≡ front_spelled digits.now }
{
    let number = read_number(digits)?;
    if number > SECTOR_BYTES {
        return None;
    }
    Some(number as u16)
}

/// A call, from 1 on, a space and the front that it leaves.
pub(super) fn read_point(text: &[u8]) -> Option<FaultPoint>
    ensures { result ≡ point_spelled text.now }
{
    let (digits, behind) = split_once(text, b' ');
    let call = read_number(digits)?;
    let front = read_front(behind?)?;
    if call == 0 {
        return None;
    }
    Some(FaultPoint { call, front })
}

/// The steps of a batch, a space and its `most`, from 1 on: fewer lines may wait where it asks.
pub(super) fn read_batch(text: &[u8]) -> Option<PlannedAct>
    ensures { result ≡ batch_spelled text.now }
{
    let (digits, behind) = split_once(text, b' ');
    let fuel = read_number(digits)?;
    let most = read_count(behind?)?;
    Some(PlannedAct::Batch { fuel, most })
}
