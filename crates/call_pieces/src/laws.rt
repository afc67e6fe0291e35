// The law. The function does nothing; its clause is the law.
ghost use Rattle.call_pieces.specs.Laws.{PiecesAreKept};

/// The law: a store into a piece of the stack changes what it writes, and nothing else of what the piece's call has.
pub fn pieces_are_kept()
    ensures { PiecesAreKept }
{}
