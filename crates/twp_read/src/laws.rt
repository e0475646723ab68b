//! What holds of the texts that are read, and of those that are refused: each law is a contract, and
//! its function has nothing to do.
ghost use Rattle.twp_read.specs.Laws.{NoStrayInSentence, ClassesDecide, ShortCompletion};
ghost use Rattle.twp_read.specs.Laws.{OneReading, ReadHasNoFault, OneTextFault};

/// No sentence holds an unknown word, a number of more than four digits, or a byte that begins no
/// token.
pub fn no_stray_in_sentence()
    ensures { NoStrayInSentence }
{}

/// Whether tokens are a sentence, or begin one, depends only on their kinds, and not on their
/// numbers, their sides, their letters or their places.
pub fn classes_decide()
    ensures { ClassesDecide }
{}

/// A beginning of a sentence lacks at most seven tokens, whatever they are.
pub fn short_completion()
    ensures { ShortCompletion }
{}

/// A text is read as one list of items.
pub fn one_reading()
    ensures { OneReading }
{}

/// A text that is read as items has no fault.
pub fn read_has_no_fault()
    ensures { ReadHasNoFault }
{}

/// A text has one first fault.
pub fn one_text_fault()
    ensures { OneTextFault }
{}
