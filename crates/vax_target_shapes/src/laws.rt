// The laws. Each function does nothing; its clause is the law.
ghost use Rattle.vax_target_shapes.specs.Laws.{ShapesStand, HomesStay, RegistersStay};

/// The law: the operand that a template gives is read as the value, or names the place or the address, that the template is judged to give.
pub fn shapes_stand()
    ensures { ShapesStand }
{}

/// The law: a shape that is the place of a symbol is that symbol's own operand.
pub fn homes_stay()
    ensures { HomesStay }
{}

/// The law: a register that is given is a symbol's own.
pub fn registers_stay()
    ensures { RegistersStay }
{}
