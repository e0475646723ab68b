//! Laws of field notes that follow from their definitions. Each law is a contract, and its function
//! does nothing.
ghost use Rattle.twp_notes.specs.Laws.{OneAnswer, WrittenIsRead};

/// The same bytes are always the same notes, or have the same first fault.
pub fn one_answer()
    ensures { OneAnswer }
{}

/// The text written for notes is those notes, so `Notes::read` returns them.
pub fn written_is_read()
    ensures { WrittenIsRead }
{}
