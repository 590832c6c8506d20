//! Which life is swept, and what its cuts leave.

ghost use Rattle.std.specs.Prelude.{◌≡◌, ℕ, IfNone, IfOk, IfSome, Some};
ghost use Rattle.std.specs.Option.{option_map_or};
ghost use Rattle.story_commands.specs.rules.Scripts.{fronts_between};
ghost use Rattle.story_commands.specs.rules.Sweeps.{IsSweptLife, default_fronts};

use crate::stories::read_fronts;
use command_words::Obstacle;
use std::alloc::Global;
use worker::story::PlannedLife;

/// What a cut leaves of a write, where nothing is said of that.
const FRONTS: &str = "0,1,256,511,512";

/// The fronts that a text spells with commas between them, or those that are taken without one.
pub fn fronts_of(alloc: Global, said: Option<&str>) -> Result<Vec<u16>, Obstacle>
    ensures { IfOk result (λ fronts. fronts_between 44
        (option_map_or (λ text. text.now) said.entry default_fronts) ≡ Some fronts.items) }
{
    let text = said.unwrap_or(FRONTS);
    match read_fronts(alloc, text.as_bytes(), b',') {
        Ok(Some(fronts)) => Ok(fronts.into_vec()),
        Ok(None) => Err(Obstacle::NoFronts),
        Err(_) => Err(Obstacle::Memory),
    }
}

/// The place of the life of this number from 1 on, or of the last one, if there is one.
pub(super) fn swept_place(lives: &[PlannedLife], number: Option<u64>) -> Option<usize>
    ensures found { IfSome result (IsSweptLife lives.now number) }
    ensures none { IfNone result ((place : ℕ) → IsSweptLife lives.now number place → ⊥) }
{
    let count = lives.len();
    let number = number.unwrap_or(count as u64);
    if number == 0 || number > count as u64 {
        return None;
    }
    Some(number as usize - 1)
}
