//! What a text with notes is. The functions do nothing: each one's contract is a law.

ghost use Rattle.vtctld_text.specs.Notes.{WithoutNotesIsTextOf, EachNoteIsPrintedOnce};

/// Without notes it is the text of the answers alone.
pub fn without_notes_is_text_of()
    ensures { WithoutNotesIsTextOf }
{}

/// Where the notes are in place, the line of each is printed, once, and in the order in which they are listed.
pub fn each_note_is_printed_once()
    ensures { EachNoteIsPrintedOnce }
{}
