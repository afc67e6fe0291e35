// The law. The function does nothing; its clause is the law.
ghost use Rattle.narrow_writes.specs.Laws.{NarrowWritesAreLong};

/// The law: what is put stands there, all else stays, and it is as if a longword were put there.
pub fn narrow_writes_are_long()
    ensures { NarrowWritesAreLong }
{}
