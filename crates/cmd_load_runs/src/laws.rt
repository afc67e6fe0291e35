// The law. The function does nothing; its clause is the law.
ghost use Rattle.std.specs.Prelude.{◌≡◌, ℕ};
ghost use Rattle.gg_base.specs.declared.run.End.TheVariants.{Ended, Spent};
ghost use Rattle.gg_base.specs.Runs.{Runs, Outcome, OneEnd};
ghost use Rattle.gg_base.specs.Follows.{Follows};
ghost use Rattle.gg_load_meaning.specs.Run.{ComesTo};
ghost use Rattle.cmd_load_runs.specs.Sides.{EndsLike};

/// A run with one end that follows one which comes to an end with a value ends like it: where a number is enough for it, with that output
/// and that value, and with no smaller number than the end's own.
pub fn followers_end_alike()
    ensures { (a b : Runs) (o : Outcome) (value : ℕ) → ComesTo a o → o.end ≡ Ended value → ∥ Follows a b ∥₁ → OneEnd b
        → EndsLike b o value }
{}
