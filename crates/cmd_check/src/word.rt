// The word of the VAX in descriptions.
use cmd_descriptions::TargetWord;

/// The VAX's word.
#[derive(Drop)]
pub struct VaxWord;

impl TargetWord for VaxWord {
    ghost use Rattle.std.specs.Prelude.{codes};

    ghost target_word = { codes "vax" };

    fn target_word() -> &'static str {
        "vax"
    }
}
