// The laws. Each function does nothing; its clause is the law.
ghost use Rattle.vax_image_format.specs.Image.{ImageIsOne};
ghost use Rattle.vax_image_format.specs.Places.{SectionsEnd, PiecesServe};

/// The law: a code has one image.
pub fn image_is_one()
    ensures { ImageIsOne }
{}

/// The law: a text section ends where the last of its pieces does, by which branches are measured.
pub fn sections_end()
    ensures { SectionsEnd }
{}

/// The law: the pieces of a code are what the least forms are asked of.
pub fn pieces_serve()
    ensures { PiecesServe }
{}
