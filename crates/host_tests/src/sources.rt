//! Sources hand out their answers in order, and outlets take lines.

ghost use Rattle.std.specs.Prelude.{⊤, List, Option, IfOk, OnOk, IsErr, map};
ghost use Rattle.wasi_abi.specs.declared.answer.Answer.{Answer};
ghost use Rattle.wasi_calls_rules.specs.declared.output_stream.OutputStream.TheVariants.{Stdout};
ghost use Rattle.record_replay.specs.rules.Calls.{Releases, all_taken};
ghost use Rattle.record_replay.specs.rules.Lists.{HandsOut};

use crate::rows::assert_row;
use record_replay::{
    AnswerList, AnyOutlet, AnySource, LineList, NumberedLine, Outlet, OutletFault, RefusingOutlet,
    Source, SourceFault,
};
use std::alloc::{AllocError, Global};
use std::cell::Cell;
use std::rc::Rc;
use wasi_abi::{Answer, Question};
use wasi_calls_rules::OutputStream;
use wasm_syntax::ItemList;

/// What a list of answers says first, through a box.
fn ask_first(
    alloc: Global,
    answers: AnswerList,
    question: Question,
) -> Result<Result<Option<Answer>, SourceFault>, AllocError>
    ensures { IfOk result (λ said. (answers_left : List Answer)
        × HandsOut answers said answers_left) }
{
    let mut any = AnySource(Box::new(alloc, answers)?);
    Ok(any.answer(question))
}

/// What an outlet that refuses the first line says of it, through a box.
fn release_first(alloc: Global) -> Result<Result<(), OutletFault>, AllocError>
    ensures { IfOk result IsErr }
{
    let refusing = RefusingOutlet::new(LineList::new(alloc), 1);
    let mut any = AnyOutlet(Box::new(alloc, refusing)?);
    Ok(any.release(1, OutputStream::Stderr, b"line"))
}

/// Asks for the time, and then for a request.
fn ask_twice<S: Source>(source: &mut S) -> Result<Option<Answer>, SourceFault>
    ensures { IfOk result (λ second. (between : S) × (first : Option Answer)
        × S.gives source.old Question.Realtime (Ok first) between
        × S.gives between Question.Request (Ok second) source.new) }
{
    let _first = source.answer(Question::Realtime)?;
    source.answer(Question::Request)
}

/// Releases these texts on stdout, each once and in order, with the numbers from 1 on. At a fault
/// it stops.
fn tell_all<O: Outlet>(outlet: &mut O, texts: &[ItemList<u8>]) -> Result<(), OutletFault>
    ensures { OnOk result
        (Releases O.takes outlet.old (all_taken 1 (map (λ text. record {
          stream = Stdout;
          text = text;
        }) texts.now)) outlet.new) }
{
    for (i, text) in texts.iter().enumerate() {
        outlet.release(i as u64 + 1, OutputStream::Stdout, text.as_slice())?;
    }
    Ok(())
}

fn request(alloc: Global, text: &[u8]) -> Result<Answer, AllocError> {
    let text = ItemList::from_vec(text.to_vec(alloc)?);
    Ok(Answer::Request { text })
}

fn clock_and_request(alloc: Global) -> Result<AnswerList, AllocError> {
    let mut answers = Vec::new(alloc);
    answers.push(Answer::Realtime { nanoseconds: 7 })?;
    answers.push(request(alloc, b"hello")?)?;
    Ok(AnswerList::new(answers))
}

/// What a source says: the time 7, the request `hello`, or nothing.
enum Said {
    Seven,
    Hello,
    Nothing,
}

fn is_said(said: &Result<Option<Answer>, SourceFault>, want: &Said) -> bool {
    match (said, want) {
        (Ok(Some(Answer::Realtime { nanoseconds })), Said::Seven) => *nanoseconds == 7,
        (Ok(Some(Answer::Request { text })), Said::Hello) => {
            text.as_slice() == b"hello".as_slice()
        }
        (Ok(None), Said::Nothing) => true,
        _ => false,
    }
}

fn says<S: Source>(source: &mut S, question: Question, want: &Said) -> bool {
    let said = source.answer(question);
    let is_so = is_said(&said, want);
    drop(said);
    is_so
}

fn is_in_order<S: Source>(source: &mut S) -> bool {
    says(source, Question::Monotonic, &Said::Seven)
        && says(source, Question::Random { length: 3 }, &Said::Hello)
        && says(source, Question::Request, &Said::Nothing)
        && says(source, Question::Request, &Said::Nothing)
}

fn are_in_order(alloc: Global) -> Result<bool, AllocError> {
    let mut source = clock_and_request(alloc)?;
    let is_so = is_in_order(&mut source);
    drop(source);
    Ok(is_so)
}

/// `scripts/runs/refused-allocations` refuses each allocation in turn, and then this ends in that.
#[test]
fn answers_are_handed_out_in_order(rt: HostRuntime) -> Result<(), AllocError> {
    assert_row(&rt, are_in_order(rt.alloc())?, &"a clock and a request");
    Ok(())
}

fn is_first_in_box(alloc: Global) -> Result<bool, AllocError> {
    let said = ask_first(alloc, clock_and_request(alloc)?, Question::Realtime)?;
    let is_so = is_said(&said, &Said::Seven);
    drop(said);
    Ok(is_so)
}

/// Whether a source says `hello` second, and nothing more.
fn is_second<S: Source>(source: &mut S) -> bool {
    let said = ask_twice(source);
    let is_so = is_said(&said, &Said::Hello);
    drop(said);
    is_so && says(source, Question::Request, &Said::Nothing)
}

fn is_second_in_box(alloc: Global) -> Result<bool, AllocError> {
    let answers = clock_and_request(alloc)?;
    let mut any = AnySource(Box::new(alloc, answers)?);
    let is_so = is_second(&mut any);
    drop(any);
    Ok(is_so)
}

fn is_second_of_list(alloc: Global) -> Result<bool, AllocError> {
    let mut answers = clock_and_request(alloc)?;
    let is_so = is_second(&mut answers);
    drop(answers);
    Ok(is_so)
}

fn is_line(line: &NumberedLine, number: u64, stream: OutputStream, text: &[u8]) -> bool {
    (line.number, line.stream) == (number, stream) && line.text.as_slice() == text
}

/// Releases two lines, the second one empty.
fn release_two(outlet: &mut LineList) -> Result<(), OutletFault> {
    outlet.release(1, OutputStream::Stdout, b"hello")?;
    outlet.release(2, OutputStream::Stderr, b"")
}

fn are_two(lines: &[NumberedLine]) -> bool {
    lines.len() == 2
        && is_line(&lines[0], 1, OutputStream::Stdout, b"hello")
        && is_line(&lines[1], 2, OutputStream::Stderr, b"")
}

fn are_two_kept(alloc: Global) -> bool {
    let mut outlet = LineList::new(alloc);
    let are_kept = release_two(&mut outlet) == Ok(()) && are_two(outlet.lines());
    drop(outlet);
    are_kept
}

fn three_texts(alloc: Global) -> Result<Vec<ItemList<u8>>, AllocError> {
    let mut texts = Vec::new(alloc);
    for text in [b"a", b"b", b"c"] {
        texts.push(ItemList::from_vec(text.to_vec(alloc)?))?;
    }
    Ok(texts)
}

/// How many lines were handed on.
fn count_of(outlet: RefusingOutlet<LineList>) -> usize {
    let told = outlet.into_inner();
    let count = told.lines().len();
    drop(told);
    count
}

/// Whether three lines are told to their end where none is refused, and so many are handed on.
fn are_told_so(alloc: Global, refused: u64, count: usize) -> Result<bool, AllocError> {
    let texts = three_texts(alloc)?;
    let mut outlet = RefusingOutlet::new(LineList::new(alloc), refused);
    let said = tell_all(&mut outlet, texts.as_slice());
    drop(texts);
    Ok(said.is_ok() == (refused == 0) && count_of(outlet) == count)
}

fn release_three<O: Outlet>(outlet: &mut O) -> [bool; 3] {
    let stream = OutputStream::Stdout;
    let first = outlet.release(1, stream, b"line").is_ok();
    let second = outlet.release(2, stream, b"line").is_ok();
    [first, second, outlet.release(3, stream, b"line").is_ok()]
}

/// Whether three releases are answered so, and each of them is handed on.
fn are_answered_so(alloc: Global, refused: u64, wanted: &[bool; 3]) -> bool {
    let mut outlet = RefusingOutlet::new(LineList::new(alloc), refused);
    let is_so = release_three(&mut outlet) == *wanted;
    count_of(outlet) == 3 && is_so
}

/// Adds up what is released to it, where its maker sees the sum.
#[derive(Drop)]
struct Sum(Rc<Cell<u64>>);

impl Outlet for Sum {
    ghost takes = { λ _ _ _ _ _. ⊤ };

    fn release(
        &mut self,
        number: u64,
        stream: OutputStream,
        text: &[u8],
    ) -> Result<(), OutletFault> {
        let first = u64::from(text.first().copied().unwrap_or(0));
        let place = match stream {
            OutputStream::Stdout => 1,
            OutputStream::Stderr => 2,
        };
        let all = (number % 10) * 10_000 + place * 1_000 + first;
        self.0.set(self.0.get().wrapping_add(all));
        if number < 10 {
            Ok(())
        } else {
            Err(OutletFault)
        }
    }
}

/// Whether a line is taken once, and one with a great number is refused.
fn adds_up(any: &mut AnyOutlet, sum: &Cell<u64>) -> bool {
    any.release(3, OutputStream::Stderr, b"a") == Ok(())
        && sum.get() == 32_097
        && any.release(10, OutputStream::Stdout, b"") == Err(OutletFault)
        && sum.get() == 33_097
}

fn is_taken_once(alloc: Global) -> Result<bool, AllocError> {
    let sum = Rc::new(alloc, Cell::new(0))?;
    let mut any = AnyOutlet(Box::new(alloc, Sum(sum.clone()?))?);
    let is_so = adds_up(&mut any, &sum);
    drop(any);
    Ok(is_so)
}

fn is_refused_in_box(alloc: Global) -> Result<bool, AllocError> {
    Ok(release_first(alloc)? == Err(OutletFault))
}

/// What is told of sources and outlets.
enum Told {
    FirstInBox,
    SecondInBox,
    SecondOfList,
    /// Two lines are kept in order.
    Kept,
    /// Which release is refused, if any, and how many lines are handed on.
    Until(u64, usize),
    /// Which release is refused, if any, and which of three are answered well.
    Answered(u64, [bool; 3]),
    TakenOnce,
    RefusedInBox,
}

#[rattlefmt::skip]
static TOLD: [(&str, Told); 15] = [
    ("a box says first what is in it", Told::FirstInBox),
    ("a box says second what is in it", Told::SecondInBox),
    ("a list says it second", Told::SecondOfList),
    ("lines are kept in order", Told::Kept),
    ("all lines are told", Told::Until(0, 3)),
    ("lines are told until the first", Told::Until(1, 1)),
    ("lines are told until the second", Told::Until(2, 2)),
    ("lines are told until the third", Told::Until(3, 3)),
    ("no release is a fault", Told::Answered(0, [true, true, true])),
    ("the first is a fault", Told::Answered(1, [false, true, true])),
    ("the second is a fault", Told::Answered(2, [true, false, true])),
    ("the third is a fault", Told::Answered(3, [true, true, false])),
    ("there is no fourth", Told::Answered(4, [true, true, true])),
    ("a box takes each line once", Told::TakenOnce),
    ("a box refuses a line", Told::RefusedInBox),
];

fn is_so(alloc: Global, told: &Told) -> Result<bool, AllocError> {
    match told {
        Told::FirstInBox => is_first_in_box(alloc),
        Told::SecondInBox => is_second_in_box(alloc),
        Told::SecondOfList => is_second_of_list(alloc),
        Told::Kept => Ok(are_two_kept(alloc)),
        Told::Until(refused, count) => are_told_so(alloc, *refused, *count),
        Told::Answered(refused, wanted) => Ok(are_answered_so(alloc, *refused, wanted)),
        Told::TakenOnce => is_taken_once(alloc),
        Told::RefusedInBox => is_refused_in_box(alloc),
    }
}

#[test]
fn boxes_and_outlets_do_what_is_in_them(rt: HostRuntime) -> Result<(), AllocError> {
    for (name, told) in &TOLD {
        assert_row(&rt, is_so(rt.alloc(), told)?, name);
    }
    Ok(())
}
