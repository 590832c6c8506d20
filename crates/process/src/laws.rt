//! Laws of numbers of lines. The functions do nothing: what they ensure is the law.

ghost use Rattle.process.specs.laws.Laws.{CallsAloneLackNumbers, EndsHaveNumbers};

/// Lines run out of numbers by a call that is done, and by no other step. An end has numbers.
pub fn lines_run_out_by_calls_alone()
    ensures calls { CallsAloneLackNumbers }
    ensures ends { EndsHaveNumbers }
{}
