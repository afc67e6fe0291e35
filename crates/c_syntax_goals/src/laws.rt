// Laws of the run: each function does nothing, and its clause holds.
ghost use Rattle.std.specs.Prelude.{◌≡◌, ◌↔◌, ℕ, suc, List, ◌∷◌, ◌++◌, length, Bool, Ok, Err};
ghost use Rattle.c_syntax_goals.specs.declared.fault.Fault.TheVariants.{NotHere, TooDeep};
ghost use Rattle.c_tokens.specs.declared.token.Spanned.{Spanned};
ghost use Rattle.c_tokens.specs.Grammar.{IsEnded};
ghost use Rattle.c_phrases.specs.Classes.{Placed};
ghost use Rattle.c_phrases.specs.Phrases.{AnExp, IsAt, after_exp};
ghost use Rattle.c_phrases.specs.Spelling.{onto_exp};
ghost use Rattle.c_phrases.specs.Levels.{LowExp, limit};
ghost use Rattle.c_phrases.specs.Fronts.{Quiet};
ghost use Rattle.c_phrases.specs.Units.{AUnit};
ghost use Rattle.c_phrases.specs.UnitSpelling.{unit_tokens};
ghost use Rattle.c_phrases.specs.Fits.{ExternalsFit};
ghost use Rattle.c_phrases.specs.UnitLevels.{LowExternals};
ghost use Rattle.c_syntax_goals.specs.Goals.{Stack, Want, Done, Expr, Whole};
ghost use Rattle.c_syntax_goals.specs.Machine.{run};
ghost use Rattle.c_syntax_goals.specs.UnitOpenings.{levelled, tokens_of};
ghost use Rattle.c_syntax_goals.specs.Refusals.{IsPlace, NoneDeep, NotHereAt, Stops, TooDeepAt};

/// An expression within the levels is read, whatever is to be read behind it.
#[tactic(auto, using(crate::proofs::Going::law_exp))]
pub fn expression_is_read()
    ensures { (L : ℕ → Bool) (e : AnExp) (κ : AnExp → Stack) (n : ℕ) (w : List Placed) → IsAt 0 e → LowExp L e n → Quiet 0 w
        → run L (Want Expr κ) n (onto_exp e w) ≡ run L (κ e) (after_exp e n) w }
{}

/// A unit within the levels is read to its end, as that unit.
#[tactic(auto, using(crate::proofs::Stating::law_unit))]
pub fn unit_is_read()
    ensures { (L : ℕ → Bool) (u : AUnit) → ExternalsFit u.externals → LowExternals L u.externals
        → run L (Want Whole Done) 0 (unit_tokens u) ≡ Ok u }
{}

/// Two units within the levels with the same tokens are the same.
#[tactic(auto, using(crate::proofs::Prefix::same_unit))]
pub fn units_are_unique()
    ensures { (ts : List Placed) (u v : AUnit) → ExternalsFit u.externals → LowExternals limit u.externals → ts ≡ unit_tokens u
        → ExternalsFit v.externals → LowExternals limit v.externals → ts ≡ unit_tokens v → u ≡ v }
{}

/// No unit, of any level, begins with the tokens up to one that may not stand where it stands.
#[tactic(auto, using(crate::proofs::Prefix::no_unit_begins))]
pub fn not_here()
    ensures { (pre : List Placed) (bad : Placed) (post : List Placed) → run limit (Want Whole Done) 0 (pre ++ bad ∷ post)
        ≡ Err (NotHere (suc (length post))) → (u : AUnit) (w : List Placed) → ExternalsFit u.externals → unit_tokens u ≡ pre
        ++ bad ∷ w → ⊥ }
{}

/// Each unit that begins with the tokens up to one that is too deep opens a level past the limit.
#[tactic(auto, using(crate::proofs::Prefix::too_deep_begins))]
pub fn too_deep()
    ensures { (pre : List Placed) (bad : Placed) (post : List Placed) → run limit (Want Whole Done) 0 (pre ++ bad ∷ post)
        ≡ Err (TooDeep (suc (length post))) → (u : AUnit) (w : List Placed) → ExternalsFit u.externals
        → LowExternals limit u.externals → unit_tokens u ≡ pre ++ bad ∷ w → ⊥ }
{}

/// The levels of a unit's tokens are listed beside these tokens.
#[tactic(auto, using(crate::proofs::Forgetting::forget))]
pub fn levels_are_of_the_tokens()
    ensures { (u : AUnit) → tokens_of (levelled u) ≡ unit_tokens u }
{}

/// No phrase of a unit passes the limit exactly where none of its tokens does.
#[tactic(auto, using(crate::proofs::Lowness::low_both))]
pub fn levels_of_phrases_are_of_tokens()
    ensures { (u : AUnit) → LowExternals limit u.externals ↔ NoneDeep (levelled u) }
{}

/// Where the run refuses a token, no unit begins with the tokens up to it; some unit begins with those before it, and none of those
/// is too deep.
#[tactic(auto, using(crate::proofs::Faults::refused_here))]
pub fn refused_here()
    ensures { (ts : List Spanned) (k place : ℕ) → IsEnded ts → Stops ts (NotHere k) → IsPlace ts k place → NotHereAt ts place }
{}

/// Where the run finds a token too deep, a unit begins with the tokens up to it, and it is the first that is too deep.
#[tactic(auto, using(crate::proofs::Faults::too_deep_there))]
pub fn first_too_deep()
    ensures { (ts : List Spanned) (k place : ℕ) → Stops ts (TooDeep k) → IsPlace ts k place → TooDeepAt ts place }
{}
