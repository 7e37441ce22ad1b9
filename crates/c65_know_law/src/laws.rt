// What notes say is so, each law the contract of a function that does nothing.
ghost use Rattle.c65_know_law.specs.Laws.{NotesAreHandedOn, NotesAreTrue};

/// What the note before a line says is handed on by each line to the next, and is so at the entry and behind calls.
pub fn notes_are_handed_on()
    ensures { NotesAreHandedOn }
{}

/// At each moment of a run that has not ended, what the note before its line says is so.
pub fn notes_are_true()
    ensures { NotesAreTrue }
{}
