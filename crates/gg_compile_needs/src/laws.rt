// The laws. The functions do nothing; their clauses are the laws.
ghost use Rattle.gg_compile_needs.specs.Claims.{BodiesNeedLittle, StatementsAddLittle, TextsAddLittle, StringsAreShort};
ghost use Rattle.gg_compile_needs.specs.Claims.{ElementsAreSmall, HeadingsAreShort, FunctionsAreFew, CountsFit};

/// The law: what a function's body is typed as needs at most 4,194,304 longwords, whatever is in scope there.
pub fn bodies_need_little()
    ensures { BodiesNeedLittle }
{}

/// The law: a statement adds at most one automatic local for each of its tokens, and four objects, literals and static locals.
pub fn statements_add_little()
    ensures { StatementsAddLittle }
{}

/// The law: so the data area has at most 4,194,308 objects, literals and static locals behind each external of a unit.
pub fn texts_add_little()
    ensures { TextsAddLittle }
{}

/// The law: a string has at most `SOURCE_LIMIT` bytes in a source that has no more.
pub fn strings_are_short()
    ensures { StringsAreShort }
{}

/// The law: each element of an initialiser writes at most four bytes.
pub fn elements_are_small()
    ensures { ElementsAreSmall }
{}

/// The law: a function of a unit has at most `SOURCE_LIMIT` parameters, before these are counted against their limit.
pub fn headings_are_short()
    ensures { HeadingsAreShort }
{}

/// The law: at most 1,048,578 functions of a unit are known, the two services among them.
pub fn functions_are_few()
    ensures { FunctionsAreFew }
{}

/// The law: the program of a unit of a source has at most `SOURCE_LIMIT` functions and 3,145,728 labels, and each function needs
/// at most 4,194,304 longwords, as many as it has locals and temporaries at most.
pub fn counts_fit()
    ensures { CountsFit }
{}
