// Worked rows. Each function does nothing; its clause is the row.
ghost use Rattle.vax_image_format.specs.Rows.{HiRow, NearRow, FarRow};

/// The row: the sections of a program that writes two bytes.
#[tactic(auto, using(crate::proofs::RowLaws::hi_row))]
pub fn hi_row()
    ensures { HiRow }
{}

/// The row: a branch over 126 bytes has a byte.
#[tactic(auto, using(crate::proofs::RowLaws::near_row))]
pub fn near_row()
    ensures { NearRow }
{}

/// The row: a branch over 128 bytes has a word.
#[tactic(auto, using(crate::proofs::RowLaws::far_row))]
pub fn far_row()
    ensures { FarRow }
{}
