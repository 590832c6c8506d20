//! Laws of parts of a call, one after another. The functions do nothing: what they ensure is the
//! law.

ghost use Rattle.worker_store.specs.laws.Turns.{ToldStillHolds, AskedStillHolds, EndedStillHolds};
ghost use Rattle.worker_store.specs.laws.Turns.{PartsLeaveBegun, TurnsJoin, TurnsCarry, RestsGoOn};
ghost use Rattle.worker_store.specs.laws.Turns.{LinesCarry};

use sector_disk::Disk;

/// An image that held what was promised holds it still, while answers are kept and lines are told.
pub fn disk_images_hold_still()
    ensures told { ToldStillHolds }
    ensures asked { AskedStillHolds }
    ensures ended { EndedStillHolds }
{}

/// What is promised grows, and a worker that has opened stays so.
pub fn parts_leave_begun()
    ensures { PartsLeaveBegun }
{}

/// Parts of a call, each of which leaves what holds what was promised when it began, are one.
pub fn turns_join<D: Disk>()
    ensures joined { TurnsJoin D.medium }
    ensures carried { TurnsCarry D.medium }
    ensures rests { RestsGoOn D.medium }
    ensures lines { LinesCarry D.medium }
{}
