//! Laws of the calls. The functions do nothing: what they ensure is the law.

ghost use Rattle.wasi_calls.specs.laws.Laws.{CallsBeginFew};

/// One call adds no more lines than it may move bytes, unfinished ones counted.
pub fn calls_begin_few_lines()
    ensures { CallsBeginFew }
{}
