// The laws. Each function does nothing; its clause is the law.
ghost use Rattle.l32_target_spelling.specs.Laws.{AlikeAreEqual, RegistersSpell, WordsSpell, ShapesTouch, HolesAreThemselves};

/// The law: operands that are spelled alike are equal.
pub fn alike_are_equal()
    ensures { AlikeAreEqual }
{}

/// The law: a register's operand spells that register alone.
pub fn registers_spell()
    ensures { RegistersSpell }
{}

/// The law: a slot, what its address names, and a local spell their word alone, an argument no word.
pub fn words_spell()
    ensures { WordsSpell }
{}

/// The law: a shape touches nothing that none of its holes touches.
pub fn shapes_touch()
    ensures { ShapesTouch }
{}

/// The law: a hole alone, of a symbol that is a place, is that place.
pub fn holes_are_themselves()
    ensures { HolesAreThemselves }
{}
