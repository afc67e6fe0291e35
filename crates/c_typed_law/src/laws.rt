// What a text is typed as, and which fault is its first.
ghost use Rattle.std.specs.Prelude.{ℕ, List, Result, IfOk, IfErr};
ghost use Rattle.c_phrases.specs.Units.{AnExternal};
ghost use Rattle.c_types.specs.declared.fault.TypeFault.{TypeFault};
ghost use Rattle.c_types.specs.Answers.{Fault, Gives};
ghost use Rattle.c_typed_definition.specs.c_typed_operators.specs.Table.{Means, Refused, OnlyAnswer, OnlyFault};
ghost use Rattle.c_typed_definition.specs.c_program.specs.Programs.{AProgram};
ghost use Rattle.c_typed_definition.specs.Texts.{type_text};
ghost use Rattle.c_typed_law.specs.Texts.{IsText, TextFault};

/// The definition that a reader of whole texts computes answers what the two relations say: exactly the one typed program,
/// or exactly the first fault, in the order of the externals, their parts from left to right, and operands before their operator.
#[tactic(auto, using(crate::proofs::Law::text_means))]
pub fn text_law()
    ensures { (text : List AnExternal) (ends : List ℕ) (end : ℕ)
        → Means (type_text text ends end) (IsText text ends end) (TextFault text ends end) }
{}

/// So does a function that computes the definition, whatever it answers with, unless memory runs out: `view` is what its answer
/// is as plain data.
#[tactic(auto, using(crate::proofs::Answers::text_answers))]
pub fn answer_law<T>()
    ensures found { (view : T → AProgram) (r : Result T TypeFault) (text : List AnExternal) (ends : List ℕ) (end : ℕ)
        → Gives view r (type_text text ends end) → IfOk r (λ x. IsText text ends end (view x)) }
    ensures only { (view : T → AProgram) (r : Result T TypeFault) (text : List AnExternal) (ends : List ℕ) (end : ℕ)
        → Gives view r (type_text text ends end) → (p : AProgram) → IsText text ends end p → OnlyAnswer view r p }
    ensures refused { (view : T → AProgram) (r : Result T TypeFault) (text : List AnExternal) (ends : List ℕ) (end : ℕ)
        → Gives view r (type_text text ends end) → IfErr r (λ e. Refused (TextFault text ends end) e) }
    ensures first { (view : T → AProgram) (r : Result T TypeFault) (text : List AnExternal) (ends : List ℕ) (end : ℕ)
        → Gives view r (type_text text ends end) → (f : Fault) → TextFault text ends end f → OnlyFault r f }
{}
