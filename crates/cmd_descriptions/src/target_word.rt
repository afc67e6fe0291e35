// The word of a machine in descriptions.
ghost use Rattle.std.specs.Prelude.{◌≡◌, ℕ, List};

/// The word of a machine's descriptions, which their target line must have. It is a type, so that a form of files may have it.
pub trait TargetWord: Drop + Sized {
    /// That word.
    ghost target_word: { List ℕ };

    /// That word.
    fn target_word() -> &'static str
        ensures { result.now ≡ target_word };
}
