// The laws. Each function does nothing; its clause is the law.
ghost use Rattle.vax_image_reading.specs.Decoding.{ImagesAreRead};
ghost use Rattle.vax_image_reading.specs.Taken.{OperandsAreRead, InstrsAreRead, SectionsAreRead};

/// The law: each spelling of an operand is read.
#[tactic(auto, using(crate::proofs::OperandLaws::operand_again))]
pub fn operands_are_read()
    ensures { OperandsAreRead }
{}

/// The law: each spelling of an instruction is read.
#[tactic(auto, using(crate::proofs::InstrLaws::instr_again))]
pub fn instrs_are_read()
    ensures { InstrsAreRead }
{}

/// The law: each text section is read.
#[tactic(auto, using(crate::proofs::SectionLaws::section_again))]
pub fn sections_are_read()
    ensures { SectionsAreRead }
{}

/// The law: the code of each image is read.
#[tactic(auto, using(crate::proofs::ImageLaws::image_again))]
pub fn images_are_read()
    ensures { ImagesAreRead }
{}
