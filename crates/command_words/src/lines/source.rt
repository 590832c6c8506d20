//! A source of answers: request lines, clocks and the words of a seed.
//!
//! # Promises
//!
//! - `RequestSource` answers requests as the lines of its reader say, in their order (`HandsNext`).
//!   Clocks are answered with the fixed time, or with that of its `RealTime` clock, to the
//!   nanosecond (`IsRealTime`). Questions for random bytes are answered with the next words of its
//!   stream. A refusal has its reason. A failed read is told only of a reader that has failed.
//!   Whether the source would wait for a request is a hint (`Readiness`).
//!
//! # Choices
//!
//! - A source of request lines hands over what a line says; that it fits is proved of the line.
//!   Times come from the clock that `--clock` fixes, or from the machine's, and random bytes from
//!   the seed. Each call for random bytes begins with a word of its own, so the place counts words.
//!   The source reads lines by `fill_buf` and `consume`, since `take` hides what its reader has
//!   left. After a fault it refuses all, since the reader may be within a line.
//! - **One relation says which answers lines give** (`GivesAnswers`): of one call, of all calls of
//!   a source, and of a run.
//! - **Answers of all kinds are in one list, in their order**, and two readings of it are exact.
//!   Its requests (`requests_in`) are those that the lines give. Its times and random bytes come
//!   from the outside (`ComeFrom`), with the place in the seed's stream counted along the list. The
//!   second also holds where the bytes of the lines aren't known, as of the standard input.

ghost use Rattle.std.specs.Prelude.{◌≡◌, ◌+◌, None, IfOk, IfErr, OnOk, OnErr};
ghost use Rattle.wasi_abi.specs.declared.answer.Question.TheVariants as questions;
ghost use Rattle.wasi_abi.specs.declared.answer.Answer.TheVariants as answers;
ghost use Rattle.wasi_abi.specs.declared.version.Version.TheVariants.{One};
ghost use Rattle.wasi_abi.specs.rules.Versions.{text_limit};
ghost use Rattle.command_words.specs.Lines.Answers.{Finds, IsRefusedAt, IsWordless, source_state};
ghost use Rattle.command_words.specs.rules.Outside.{random_stream};
ghost use Rattle.command_words.specs.Outside.{ShowsRealTime};
ghost use Rattle.command_words.specs.rules.Seeds.{seeded_bytes, words_for};

use crate::lines::fault::LineFault;
use crate::lines::numbered::NumberedRequests;
use crate::lines::outside::{Outside, STREAM, random_answer, time_of};
use crate::lines::reader::{LineReader, ReadAhead};
use crate::lines::real_time::RealTime;
use record_replay::{Readiness, Source, SourceFault};
use std::alloc::Global;
use wasi_abi::{Answer, Question, Version};

/// Answers requests with the lines of a reader, clocks with a fixed time or the machine's, and
/// questions for random bytes with the next words of a seed. No answer is there where a request is
/// asked for and the lines have come to their end. After a fault all is refused, since the reader
/// may be within a line.
#[derive(Drop)]
pub struct RequestSource<R: LineReader + Drop, C: RealTime + Drop> {
    alloc: Global,
    requests: NumberedRequests<R>,
    /// The machine's clock.
    clock: C,
    outside: Outside,
    /// The stream of the seed whose words are random bytes.
    stream: u64,
    /// How many words of it were taken.
    place: u64,
    fault: Option<LineFault>,
}

impl<R: LineReader + Drop, C: RealTime + Drop> RequestSource<R, C> {
    /// Behind so many requests of a worker of version 1, and at the first word of the seed.
    pub fn new(alloc: Global, reader: R, clock: C, outside: Outside, taken: u64) -> Self
        ensures reader { result.requests.reader ≡ reader }
        ensures version { result.requests.version ≡ One }
        ensures taken { result.requests.taken ≡ taken }
        ensures outside { result.outside ≡ outside }
        ensures stream { result.stream ≡ random_stream }
        ensures place { result.place ≡ 0 }
        ensures unfailed { result.fault ≡ None }
    {
        RequestSource {
            alloc,
            requests: NumberedRequests::new(alloc, reader, taken),
            clock,
            outside,
            stream: STREAM,
            place: 0,
            fault: None,
        }
    }

    /// As for a worker of this version that has taken so many requests: these are passed over.
    /// Random bytes are those of this stream of the seed, from its first word on, and there is no
    /// fault. It reads on where it is.
    pub fn go_on_behind(&mut self, version: Version, taken: u64, stream: u64)
        ensures reader { self.new.requests.reader ≡ self.old.requests.reader }
        ensures version { self.new.requests.version ≡ version }
        ensures taken { self.new.requests.taken ≡ taken }
        ensures outside { self.new.outside ≡ self.old.outside }
        ensures stream { self.new.stream ≡ stream }
        ensures place { self.new.place ≡ 0 }
        ensures unfailed { self.new.fault ≡ None }
    {
        self.requests.go_on_behind(version, taken);
        self.stream = stream;
        self.place = 0;
        self.fault = None;
    }

    /// The requests, and where their lines are read.
    pub fn requests(&self) -> &NumberedRequests<R>
        ensures { result.now ≡ self.now.requests }
    {
        &self.requests
    }

    /// Why answers are refused.
    pub fn fault(&self) -> Option<LineFault>
        ensures { result ≡ self.now.fault }
    {
        self.fault
    }

    /// The next random bytes.
    fn draw(&mut self, length: u32) -> Result<Answer, LineFault>
        ensures is { IfOk result (λ answer. answer ≡ answers.Random
            (seeded_bytes self.old.outside.seed self.old.stream self.old.place length)) }
        ensures drawn { OnOk result (self.new ≡ record self.old {
          place = self.old.place + words_for length;
        }) }
        ensures failed { IfErr result (IsWordless self.old.place length) }
        ensures kept { OnErr result (self.new ≡ self.old) }
    {
        let Some(place) = self.place.checked_add(u64::from(length).div_ceil(4)) else {
            return Err(LineFault::Words);
        };
        let seed = self.outside.seed;
        let answer = random_answer(self.alloc, seed, self.stream, self.place, length)?;
        self.place = place;
        Ok(answer)
    }

    /// The answer to a question, or none where the lines have come to their end.
    fn find(&mut self, question: Question) -> Result<Option<Answer>, LineFault>
        ensures found { IfOk result (λ found. Finds question
            (source_state self.old.outside (text_limit self.old.requests.version) self.old.stream
            self.old.requests.taken self.old.place (R.unread self.old.requests.reader)
            (R.has_failed self.old.requests.reader) None)
            found
            (source_state self.new.outside (text_limit self.new.requests.version) self.new.stream
            self.new.requests.taken self.new.place (R.unread self.new.requests.reader)
            (R.has_failed self.new.requests.reader) None)) }
        ensures real { self.old.outside.clock ≡ None → IfOk result
            (ShowsRealTime (C.gives_time self.old.clock)) }
        ensures steady { OnOk result
            (R.has_failed self.new.requests.reader ≡ R.has_failed self.old.requests.reader) }
        ensures failed { IfErr result (IsRefusedAt question
            (source_state self.old.outside (text_limit self.old.requests.version) self.old.stream
            self.old.requests.taken self.old.place (R.unread self.old.requests.reader)
            (R.has_failed self.old.requests.reader) None)
            (R.has_failed self.new.requests.reader)) }
        ensures taken { OnErr result (self.new.requests.taken ≡ self.old.requests.taken) }
        ensures place { OnErr result (self.new.place ≡ self.old.place) }
        ensures outside { self.new.outside ≡ self.old.outside }
        ensures stream { self.new.stream ≡ self.old.stream }
        ensures limit { text_limit self.new.requests.version
            ≡ text_limit self.old.requests.version }
        ensures fault { self.new.fault ≡ self.old.fault }
    {
        match question {
            Question::Request => self.requests.next_request(),
            Question::Realtime => {
                let nanoseconds = time_of(self.outside, &self.clock)?;
                Ok(Some(Answer::Realtime { nanoseconds }))
            }
            Question::Monotonic => {
                let nanoseconds = time_of(self.outside, &self.clock)?;
                Ok(Some(Answer::Monotonic { nanoseconds }))
            }
            Question::Random { length } => {
                let answer = self.draw(length)?;
                Ok(Some(answer))
            }
        }
    }
}

impl<R: LineReader + Drop, C: RealTime + Drop> Source for RequestSource<R, C> {
    ghost use Rattle.wasi_abi.specs.rules.Versions.{text_limit};
    ghost use Rattle.command_words.specs.Lines.Answers.{HandsNext, source_state};

    ghost gives = { λ old question said new. HandsNext question
        (source_state old.outside (text_limit old.requests.version) old.stream old.requests.taken
        old.place (R.unread old.requests.reader) (R.has_failed old.requests.reader) old.fault)
        said
        (source_state new.outside (text_limit new.requests.version) new.stream new.requests.taken
        new.place (R.unread new.requests.reader) (R.has_failed new.requests.reader) new.fault) };

    fn answer(&mut self, question: Question) -> Result<Option<Answer>, SourceFault> {
        if self.fault.is_some() {
            return Err(SourceFault);
        }
        match self.find(question) {
            Ok(answer) => Ok(answer),
            Err(fault) => {
                self.fault = Some(fault);
                Err(SourceFault)
            }
        }
    }
}

/// Clocks and random bytes never wait. A request is at hand where its line was read ahead.
impl<R: LineReader + ReadAhead + Drop, C: RealTime + Drop> Readiness for RequestSource<R, C> {
    fn is_ready(&self, question: Question) -> bool {
        match question {
            Question::Request => self.requests.has_next(),
            Question::Realtime | Question::Monotonic | Question::Random { .. } => true,
        }
    }
}
