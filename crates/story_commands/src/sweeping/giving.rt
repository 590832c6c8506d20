//! How many answers a worker was given, and which of them were kept.

ghost use Rattle.std.specs.Prelude.{◌≡◌, ◌++◌, IfOk, OnOk, drop, take};
ghost use Rattle.story_commands.specs.rules.Sweeps.{answers_kept, given_at, given_to};
ghost use Rattle.story_commands.specs.rules.Sweeps.{given_when_opened, kept_in, marked_version};

use record_replay::copy_answer;
use std::alloc::{AllocError, Global};
use wasi_abi::Answer;
use wasm_syntax::ItemList;
use worker::story::{LifeReport, Opening, PlannedLife};

/// Where the mark of an image has the digit of its version.
const DIGIT: usize = 7;

/// The version of a process, by the mark of its image.
fn marked_version(process_image: &[u8]) -> u64
    ensures { result ≡ marked_version process_image.now }
{
    match process_image.get(DIGIT) {
        Some(digit) => u64::from(*digit).saturating_sub(48),
        None => 1,
    }
}

/// How many answers a worker was given by the time that a life has opened it, if it is opened. It
/// counts its upgrade as one more.
fn given_when_opened(opened: &Opening) -> Option<u64>
    ensures { result ≡ given_when_opened opened.now }
{
    match opened {
        Opening::Created { .. } => Some(0),
        Opening::Recovered {
            answers,
            process_image,
            ..
        } => {
            let upgrades = marked_version(process_image.as_slice()).saturating_sub(1);
            Some(answers.saturating_sub(upgrades))
        }
        Opening::Unopened => None,
    }
}

/// The same of the life at this place.
pub(super) fn given_to(told: &[LifeReport], place: usize) -> Option<u64>
    ensures { result ≡ given_to place told.now }
{
    match told.get(place) {
        Some(report) => given_when_opened(&report.opened),
        None => None,
    }
}

/// The same, or 0.
pub(super) fn given_at(told: &[LifeReport], place: usize) -> u64
    ensures { result ≡ given_at place told.now }
{
    given_to(told, place).unwrap_or(0)
}

/// The first of these answers, at most so many.
pub(super) fn front_of(answers: &[Answer], count: u64) -> &[Answer]
    ensures { result.now ≡ take count answers.now }
{
    let count = (count as usize).min(answers.len());
    &answers[..count]
}

/// The others.
pub(super) fn behind(answers: &[Answer], count: u64) -> &[Answer]
    ensures { result.now ≡ drop count answers.now }
{
    let count = (count as usize).min(answers.len());
    &answers[count..]
}

/// What the first of these lives was given and kept, as the next one's opening says.
fn kept_in<'a>(told: &[LifeReport], answers: &'a [Answer]) -> &'a [Answer]
    ensures { result.now ≡ kept_in told.now answers.entry.now }
{
    front_of(answers, given_at(told, 1).saturating_sub(given_at(told, 0)))
}

/// What was told of all lives but the first.
fn without_first(told: &[LifeReport]) -> &[LifeReport]
    ensures { result.now ≡ drop 1 told.now }
{
    if told.is_empty() { told } else { &told[1..] }
}

/// Copies answers behind those of a list.
fn push_answers(
    alloc: Global,
    list: &mut ItemList<Answer>,
    answers: &[Answer],
) -> Result<(), AllocError>
    ensures { OnOk result (list.new ≡ list.old ++ answers.now) }
{
    for answer in answers {
        let copy = copy_answer(alloc, answer)?;
        list.push(copy)?;
    }
    Ok(())
}

/// The same answers, in memory of their own.
pub(super) fn copy_answers(
    alloc: Global,
    answers: &[Answer],
) -> Result<ItemList<Answer>, AllocError>
    ensures { IfOk result (λ copies. copies ≡ answers.now) }
{
    let mut copies = ItemList::new(alloc);
    push_answers(alloc, &mut copies, answers)?;
    Ok(copies)
}

/// What these lives were given and kept, of which this was told.
pub(super) fn answers_kept(
    alloc: Global,
    lives: &[PlannedLife],
    told: &[LifeReport],
) -> Result<ItemList<Answer>, AllocError>
    ensures { IfOk result (λ answers. answers ≡ answers_kept lives.now told.now) }
{
    let mut list = ItemList::new(alloc);
    let mut later = told;
    for life in lives {
        push_answers(alloc, &mut list, kept_in(later, life.answers.as_slice()))?;
        later = without_first(later);
    }
    Ok(list)
}
