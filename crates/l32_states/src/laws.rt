// The laws. Each function does nothing; its clause is the law.
ghost use Rattle.l32_states.specs.Sentences.{PlacesAreRead, PlacesAreWritten, MachinesAreKept};

/// The law: locals, words, arguments and the data area are read as trees read them.
pub fn places_are_read()
    ensures { PlacesAreRead }
{}

/// The law: locals, free words, arguments and the data area are written, and longwords pushed and popped, as trees do it.
pub fn places_are_written()
    ensures { PlacesAreWritten }
{}

/// The law: registers may hold anything, and the last call's result doesn't matter.
pub fn machines_are_kept()
    ensures { MachinesAreKept }
{}
