// Laws of a body with homes. Each function does nothing; its clause is the law.
ghost use Rattle.vax_homes_items.specs.Items.{HomedItemsAreLike, HomedBodiesAreLike, HomedBodiesCanBeWritten};
ghost use Rattle.vax_homes_items.specs.Standing.{HomesStand};

/// The law: an item with homes names what it named, and is a label where it was one.
pub fn homed_items_are_like()
    ensures { HomedItemsAreLike }
{}

/// The law: a body with homes has the labels and the number of items that it had.
pub fn homed_bodies_are_like()
    ensures { HomedBodiesAreLike }
{}

/// The law: where a body can be written, it can be with homes.
pub fn homed_bodies_can_be_written()
    ensures { HomedBodiesCanBeWritten }
{}

/// The law: the homes of a function's body are paired one to one, are some of its locals, and its plain instructions are ready for them.
pub fn homes_stand()
    ensures { HomesStand }
{}
