//! The lives of a cut.

ghost use Rattle.std.specs.Prelude.{◌≡◌, ◌++◌, ◌∷◌, [], ◌-◌, IfOk, OnOk, drop, take, max};
ghost use Rattle.std.specs.List.{flat_map, list_any};
ghost use Rattle.story_commands.specs.rules.Sweeps.{acts_of, and_idle, calm_life, cut_at};
ghost use Rattle.story_commands.specs.rules.Sweeps.{done_again, first_stopped, given_at, idle_life};
ghost use Rattle.story_commands.specs.rules.Sweeps.{is_upgrade, lives_after, stopped_at};
ghost use Rattle.story_commands.specs.rules.Sweeps.{upgrade_first, upgrading_life};

use crate::sweeping::giving::{answers_kept, behind, copy_answers, front_of, given_at};
use sector_disk::FaultPoint;
use std::alloc::{AllocError, Global};
use wasi_abi::Answer;
use wasm_syntax::ItemList;
use worker::story::{LifeReport, PlannedAct, PlannedLife};

/// How many steps a worker may take up to its question before it is upgraded again.
pub(super) const TO_QUESTION: u64 = 10_000_000;

/// What is swept.
#[derive(Clone, Copy)]
pub(super) struct SweptPart<'a> {
    /// The lives before the swept one.
    pub(super) earlier: &'a [PlannedLife],
    /// What was told of them without a cut.
    pub(super) told_before: &'a [LifeReport],
    /// The swept one, and those after it.
    pub(super) swept: &'a [PlannedLife],
    /// What was told of these without a cut.
    pub(super) told: &'a [LifeReport],
    /// How many of their answers come before an upgrade that is done again.
    pub(super) before: u64,
}

/// A life that nothing befalls.
fn calm_life(alloc: Global, answers: ItemList<Answer>, acts: ItemList<PlannedAct>) -> PlannedLife
    ensures { result ≡ calm_life answers acts }
{
    PlannedLife {
        answers,
        acts,
        stop: None,
        fail: None,
        refuse: None,
        tears: ItemList::new(alloc),
    }
}

/// A life that is only opened.
fn idle_life(alloc: Global) -> PlannedLife
    ensures { result ≡ idle_life }
{
    calm_life(alloc, ItemList::new(alloc), ItemList::new(alloc))
}

/// A life that upgrades a recovered worker behind these answers.
fn upgrading_life(alloc: Global, answers: &[Answer]) -> Result<PlannedLife, AllocError>
    ensures { IfOk result (λ life. life ≡ upgrading_life answers.now) }
{
    let mut acts = ItemList::new(alloc);
    acts.push(PlannedAct::Slice { fuel: TO_QUESTION })?;
    acts.push(PlannedAct::Upgrade)?;
    Ok(calm_life(alloc, copy_answers(alloc, answers)?, acts))
}

/// Whether an act is to upgrade.
fn is_upgrade(act: PlannedAct) -> bool
    ensures { result ≡ is_upgrade act }
{
    match act {
        PlannedAct::Upgrade => true,
        PlannedAct::Slice { .. } | PlannedAct::Batch { .. } | PlannedAct::Checkpoint => false,
    }
}

/// Whether one of these acts is to upgrade.
pub(super) fn have_upgrade(acts: &[PlannedAct]) -> bool
    ensures { result ≡ list_any is_upgrade acts.now }
{
    for act in acts {
        if is_upgrade(*act) {
            return true;
        }
    }
    false
}

/// All that these lives were told to do.
pub(super) fn acts_of(
    alloc: Global,
    lives: &[PlannedLife],
) -> Result<ItemList<PlannedAct>, AllocError>
    ensures { IfOk result (λ acts. acts ≡ flat_map acts_of lives.now) }
{
    let mut acts = Vec::new(alloc);
    for life in lives {
        acts.extend_from_slice(life.acts.as_slice())?;
    }
    Ok(ItemList::from_vec(acts))
}

/// Puts the life behind a list that upgrades a worker again, where an act is to upgrade.
fn push_upgrade(
    alloc: Global,
    list: &mut ItemList<PlannedLife>,
    acts: &[PlannedAct],
    answers: &[Answer],
) -> Result<(), AllocError>
    ensures { OnOk result (list.new ≡ list.old ++ upgrade_first acts.now answers.now) }
{
    if have_upgrade(acts) {
        let life = upgrading_life(alloc, answers)?;
        list.push(life)?;
    }
    Ok(())
}

/// Puts what is done again after a cut behind a list: of these acts, with all answers that were
/// kept, by a worker that has so many of them.
fn push_again(
    alloc: Global,
    list: &mut ItemList<PlannedLife>,
    kept: &[Answer],
    acts: ItemList<PlannedAct>,
    before: u64,
    has: u64,
) -> Result<(), AllocError>
    ensures { OnOk result (list.new ≡ list.old ++ done_again kept.now acts before has) }
{
    let first = behind(front_of(kept, before), has);
    push_upgrade(alloc, list, acts.as_slice(), first)?;
    let last = copy_answers(alloc, behind(kept, has.max(before)))?;
    list.push(calm_life(alloc, last, acts))?;
    Ok(())
}

/// Puts the lives after a cut behind a list, of a worker that was given so many answers in all.
fn push_after(
    alloc: Global,
    list: &mut ItemList<PlannedLife>,
    part: &SweptPart<'_>,
    given: u64,
) -> Result<(), AllocError>
    ensures { OnOk result (list.new ≡ list.old
        ++ lives_after part.now.swept.now part.now.told.now part.now.before given) }
{
    let kept = answers_kept(alloc, part.swept, part.told)?;
    let acts = acts_of(alloc, part.swept)?;
    let has = given.saturating_sub(given_at(part.told, 0));
    push_again(alloc, list, kept.as_slice(), acts, part.before, has)
}

/// The same life, in memory of its own.
pub(super) fn copy_life(alloc: Global, life: &PlannedLife) -> Result<PlannedLife, AllocError>
    ensures { IfOk result (λ copy. copy ≡ life.now) }
{
    Ok(PlannedLife {
        answers: copy_answers(alloc, life.answers.as_slice())?,
        acts: ItemList::from_vec(Vec::from_slice(alloc, life.acts.as_slice())?),
        stop: life.stop,
        fail: life.fail,
        refuse: life.refuse,
        tears: ItemList::from_vec(Vec::from_slice(alloc, life.tears.as_slice())?),
    })
}

/// The same life, with the power cut at this point.
fn stopped_at(
    alloc: Global,
    life: &PlannedLife,
    point: FaultPoint,
) -> Result<PlannedLife, AllocError>
    ensures { IfOk result (λ stopped. stopped ≡ stopped_at point life.now) }
{
    let mut stopped = copy_life(alloc, life)?;
    stopped.stop = Some(point);
    Ok(stopped)
}

/// The same lives, in memory of their own.
pub(super) fn copy_lives(
    alloc: Global,
    lives: &[PlannedLife],
) -> Result<ItemList<PlannedLife>, AllocError>
    ensures { IfOk result (λ copies. copies ≡ lives.now) }
{
    let mut copies = ItemList::new(alloc);
    for life in lives {
        let copy = copy_life(alloc, life)?;
        copies.push(copy)?;
    }
    Ok(copies)
}

/// These lives, and one more that is only opened.
pub(super) fn and_idle(
    alloc: Global,
    lives: &[PlannedLife],
) -> Result<ItemList<PlannedLife>, AllocError>
    ensures { IfOk result (λ all. all ≡ and_idle lives.now) }
{
    let mut all = copy_lives(alloc, lives)?;
    all.push(idle_life(alloc))?;
    Ok(all)
}

/// Puts the first of these lives behind a list, with the power cut at this point.
fn push_stopped(
    alloc: Global,
    list: &mut ItemList<PlannedLife>,
    lives: &[PlannedLife],
    point: FaultPoint,
) -> Result<(), AllocError>
    ensures { OnOk result (list.new ≡ list.old ++ first_stopped point lives.now) }
{
    if let Some(life) = lives.first() {
        let stopped = stopped_at(alloc, life, point)?;
        list.push(stopped)?;
    }
    Ok(())
}

/// Puts the lives of a cut behind a list, from the swept one on. After it the worker was given so
/// many answers in all.
fn push_cut(
    alloc: Global,
    list: &mut ItemList<PlannedLife>,
    part: &SweptPart<'_>,
    point: FaultPoint,
    given: u64,
) -> Result<(), AllocError>
    ensures { OnOk result (list.new ≡ cut_at list.old part.now.swept.now part.now.told.now point
        part.now.before given) }
{
    push_stopped(alloc, list, part.swept, point)?;
    push_after(alloc, list, part, given)
}

/// The lives of a cut, after which the worker was given so many answers in all.
pub(super) fn plan_cut(
    alloc: Global,
    part: &SweptPart<'_>,
    point: FaultPoint,
    given: u64,
) -> Result<ItemList<PlannedLife>, AllocError>
    ensures { IfOk result (λ lives. lives ≡ cut_at part.now.earlier.now part.now.swept.now
        part.now.told.now point part.now.before given) }
{
    let mut lives = copy_lives(alloc, part.earlier)?;
    push_cut(alloc, &mut lives, part, point, given)?;
    Ok(lives)
}

/// The same lives from the swept one on.
pub(super) fn plan_rest(
    alloc: Global,
    part: &SweptPart<'_>,
    point: FaultPoint,
    given: u64,
) -> Result<ItemList<PlannedLife>, AllocError>
    ensures { IfOk result (λ lives. lives ≡ cut_at [] part.now.swept.now part.now.told.now point
        part.now.before given) }
{
    let mut lives = ItemList::new(alloc);
    push_cut(alloc, &mut lives, part, point, given)?;
    Ok(lives)
}

/// The lives of a run in which the swept life does nothing, and all is done again after it.
pub(super) fn plan_again(
    alloc: Global,
    part: &SweptPart<'_>,
) -> Result<ItemList<PlannedLife>, AllocError>
    ensures { IfOk result (λ lives. lives ≡ and_idle part.now.earlier.now
        ++ lives_after part.now.swept.now part.now.told.now part.now.before
        (given_at 0 part.now.told.now)) }
{
    let mut lives = and_idle(alloc, part.earlier)?;
    push_after(alloc, &mut lives, part, given_at(part.told, 0))?;
    Ok(lives)
}

/// The acts up to the first upgrade, and that one.
fn acts_to_upgrade(alloc: Global, acts: &[PlannedAct]) -> Result<ItemList<PlannedAct>, AllocError> {
    let mut list = ItemList::new(alloc);
    for act in acts {
        list.push(*act)?;
        if is_upgrade(*act) {
            break;
        }
    }
    Ok(list)
}

/// These lives up to the first upgrade of the later ones, and one more that is only opened.
pub(super) fn plan_upgrade(
    alloc: Global,
    earlier: &[PlannedLife],
    swept: &[PlannedLife],
) -> Result<ItemList<PlannedLife>, AllocError> {
    let mut lives = copy_lives(alloc, earlier)?;
    for life in swept {
        let mut copy = copy_life(alloc, life)?;
        copy.acts = acts_to_upgrade(alloc, life.acts.as_slice())?;
        lives.push(copy)?;
        if have_upgrade(life.acts.as_slice()) {
            break;
        }
    }
    lives.push(idle_life(alloc))?;
    Ok(lives)
}
