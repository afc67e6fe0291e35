// How many instructions compiled code takes: a bound by the counted turns and calls of its source.
ghost use Rattle.gg_compile_codes.specs.Bounded.{TypedCodesAreBounded};

/// The law: where the run of a typed program ends with n counted turns and calls, the run of the code that is selected of it ends so within
/// K times (m + 1) instructions, K being one more than the number of the code's items, and m n + Z (n + 1) where the program's declarations
/// set Z zeros. It does nothing.
pub fn typed_codes_are_bounded()
    ensures { TypedCodesAreBounded }
{}
