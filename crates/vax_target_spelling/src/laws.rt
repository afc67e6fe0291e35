// The laws. Each function does nothing; its clause is the law.
ghost use Rattle.vax_target_spelling.specs.Laws.{AlikeAreEqual, RegistersSpell, WordsSpell, ShapesTouch, HolesAreThemselves};

/// The law: operands are spelled alike exactly where they are equal.
pub fn alike_are_equal()
    ensures { AlikeAreEqual }
{}

/// The law: the operand of a register spells that register alone.
pub fn registers_spell()
    ensures { RegistersSpell }
{}

/// The law: the operands of slots and locals spell their word of the frame alone, those of arguments none.
pub fn words_spell()
    ensures { WordsSpell }
{}

/// The law: a shape with its holes filled touches no register and no word that none of its holes touches.
pub fn shapes_touch()
    ensures { ShapesTouch }
{}

/// The law: the shape of a hole alone, of a symbol that is a place, is that place.
pub fn holes_are_themselves()
    ensures { HolesAreThemselves }
{}
