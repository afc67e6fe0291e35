// The law. The function does nothing; its clause is the law.
ghost use Rattle.l32_target_shapes.specs.Laws.{ShapesStand};

/// The law: a shape reads the value, or names the place or the address, that its rule gives, and its rule's lines change nothing.
pub fn shapes_stand()
    ensures { ShapesStand }
{}
