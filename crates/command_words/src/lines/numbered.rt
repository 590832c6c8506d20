//! Requests by their numbers.

ghost use Rattle.std.specs.Prelude.{◌≡◌, ◌<◌, ◌^◌, ℕ, [], IfOk, IfErr, OnOk, OnErr};
ghost use Rattle.std.specs.List.{AllByRecursion};
ghost use Rattle.wasi_abi.specs.declared.answer.Question.TheVariants as questions;
ghost use Rattle.wasi_abi.specs.declared.answer.Answer.TheVariants as answers;
ghost use Rattle.wasi_abi.specs.rules.Answers.{AreBytes, Fits, IsNoNewline};
ghost use Rattle.wasi_abi.specs.declared.version.Version.TheVariants.{One};
ghost use Rattle.wasi_abi.specs.rules.Versions.{text_limit};
ghost use Rattle.command_words.specs.declared.lines.fault.LineFault.TheVariants.{Memory};
ghost use Rattle.command_words.specs.Lines.Answers.{FindsNext, MissesNext};
ghost use Rattle.command_words.specs.rules.Requests.{answer_in};
ghost use Rattle.command_words.specs.rules.Texts.{IsShortRequest, request_line};

use crate::lines::fault::LineFault;
use crate::lines::later::has_later;
use crate::lines::line::read_line;
use crate::lines::reader::{LineReader, ReadAhead};
use crate::lines::request::{Request, read_request};
use std::alloc::Global;
use wasi_abi::{Answer, Version};
use wasm_syntax::ItemList;

/// The requests that the lines of a reader give: the next number's text or end. A line with a
/// number that was taken is passed over, and a later one is refused.
#[derive(Drop)]
pub struct NumberedRequests<R: LineReader + Drop> {
    alloc: Global,
    reader: R,
    /// The worker's version, which says how long a text may be.
    version: Version,
    /// How many requests were answered.
    taken: u64,
    /// How many lines were passed over.
    skipped: u64,
    line: Vec<u8>,
}

/// The answer with this text.
fn text_answer(alloc: Global, text: &[u8]) -> Result<Answer, LineFault>
    ensures is { IfOk result (λ answer. answer ≡ answers.Request text.now) }
    ensures bytes { AreBytes text.now }
    ensures failed { IfErr result (λ fault. fault ≡ Memory) }
{
    let Ok(text) = text.to_vec(alloc) else {
        return Err(LineFault::Memory);
    };
    let text = ItemList::from_vec(text);
    Ok(Answer::Request { text })
}

impl<R: LineReader + Drop> NumberedRequests<R> {
    /// Behind so many requests of a worker of version 1.
    pub(crate) fn new(alloc: Global, reader: R, taken: u64) -> Self
        ensures reader { result.reader ≡ reader }
        ensures version { result.version ≡ One }
        ensures taken { result.taken ≡ taken }
    {
        NumberedRequests {
            alloc,
            reader,
            version: Version::One,
            taken,
            skipped: 0,
            line: Vec::new(alloc),
        }
    }

    /// What the lines are read from.
    pub fn reader(&self) -> &R
        ensures { result.now ≡ self.now.reader }
    {
        &self.reader
    }

    /// The worker's version.
    pub fn version(&self) -> Version
        ensures { result ≡ self.now.version }
    {
        self.version
    }

    /// What was read last, without its newline.
    pub fn line(&self) -> &[u8]
        ensures { result.now ≡ self.now.line.items }
    {
        self.line.as_slice()
    }

    /// How many bytes a text may have.
    pub fn text_limit(&self) -> usize
        ensures { result ≡ text_limit self.now.version }
    {
        self.version.text_limit()
    }

    /// How many requests were taken.
    pub fn taken(&self) -> u64
        ensures { result ≡ self.now.taken }
    {
        self.taken
    }

    /// How many lines were passed over, since their requests were taken before.
    pub fn skipped(&self) -> u64
        ensures { result ≡ self.now.skipped }
    {
        self.skipped
    }

    /// As where so many requests of a worker of this version were taken. It reads on where it is.
    pub(crate) fn go_on_behind(&mut self, version: Version, taken: u64)
        ensures reader { self.new.reader ≡ self.old.reader }
        ensures version { self.new.version ≡ version }
        ensures taken { self.new.taken ≡ taken }
    {
        self.version = version;
        self.taken = taken;
    }

    /// The answer of a request.
    fn answer_of(&self, request: Request<'_>) -> Result<Answer, LineFault>
        ensures is { IfOk result (λ answer. answer ≡ answer_in request.entry) }
        ensures fits { (limit : ℕ) → IsShortRequest limit request.entry
            → AllByRecursion IsNoNewline (request_line request.entry)
            → IfOk result (Fits limit questions.Request) }
        ensures failed { IfErr result (λ fault. fault ≡ Memory) }
    {
        let Request::Text { text, .. } = request else {
            return Ok(Answer::End);
        };
        text_answer(self.alloc, text)
    }

    /// The next request, with a text of at most `limit` bytes, or none at the end of the lines.
    fn find_next(&mut self, limit: usize) -> Result<Option<Answer>, LineFault>
        requires { limit < 2 ^ 32 }
        ensures found { IfOk result (λ found. FindsNext limit self.old.taken
            (R.unread self.old.reader) found self.new.taken (R.unread self.new.reader)) }
        ensures steady { OnOk result (R.has_failed self.new.reader ≡ R.has_failed self.old.reader) }
        ensures failed { IfErr result (MissesNext limit self.old.taken (R.unread self.old.reader) []
            (R.has_failed self.old.reader) (R.has_failed self.new.reader)) }
        ensures version { self.new.version ≡ self.old.version }
        ensures kept { OnErr result (self.new.taken ≡ self.old.taken) }
    {
        let wanted = self.taken.saturating_add(1);
        loop {
            if !read_line(&mut self.reader, limit, &mut self.line)? {
                return Ok(None);
            }
            let Some(request) = read_request(limit, self.line.as_slice()) else {
                return Err(LineFault::Form);
            };
            let given = request.number();
            if given > wanted {
                return Err(LineFault::Number { given, wanted });
            }
            if given == wanted {
                let answer = self.answer_of(request)?;
                self.taken = wanted;
                return Ok(Some(answer));
            }
            self.skipped = self.skipped.saturating_add(1);
        }
    }

    /// The next request, with a text as long as the worker's version has it, or none at the end of
    /// the lines.
    pub(crate) fn next_request(&mut self) -> Result<Option<Answer>, LineFault>
        ensures found { IfOk result (λ found. FindsNext (text_limit self.old.version)
            self.old.taken (R.unread self.old.reader) found self.new.taken
            (R.unread self.new.reader)) }
        ensures steady { OnOk result (R.has_failed self.new.reader ≡ R.has_failed self.old.reader) }
        ensures failed { IfErr result (MissesNext (text_limit self.old.version) self.old.taken
            (R.unread self.old.reader) [] (R.has_failed self.old.reader)
            (R.has_failed self.new.reader)) }
        ensures version { self.new.version ≡ self.old.version }
        ensures kept { OnErr result (self.new.taken ≡ self.old.taken) }
    {
        let limit = self.text_limit();
        self.find_next(limit)
    }
}

impl<R: LineReader + ReadAhead + Drop> NumberedRequests<R> {
    /// Whether the line of a further request was read ahead, as far as is known.
    pub(crate) fn has_next(&self) -> bool {
        has_later(self.text_limit(), self.reader.ahead(), self.taken)
    }
}
