// The laws of whole programs. Each function does nothing; its clause is the law.
ghost use Rattle.gg_compile_law.specs.Laws.{StackHasRoom, ReturnsComeBack};
ghost use Rattle.gg_compile_law.specs.Programs.{CompiledFollow};
ghost use Rattle.gg_compile_law.specs.Areas.{BlocksHoldObjects};
ghost use Rattle.gg_compile_law.specs.Assembled.{AssembledFollow, SourceIsFollowed, FramesAreFunctionCodes};
ghost use Rattle.gg_compile_law.specs.Demo.{DemoFollows};
ghost use Rattle.gg_compile_law.specs.Spelling.{AreasAreBlocks};
ghost use Rattle.gg_compile_law.specs.Names.{CodeLabelsDiffer, MainStands};
ghost use Rattle.gg_compile_law.specs.Loaded.{AssembledLoads};
ghost use Rattle.gg_compile_law.specs.Written.{WrittenCodesLoad, WrittenCodesFollow};

/// The law: the stack has room for `ACTIVE_CALL_LIMIT` active calls.
pub fn stack_has_room()
    ensures { StackHasRoom }
{}

/// The law: behind a return the caller goes on, or the run is over.
pub fn returns_come_back()
    ensures { ReturnsComeBack }
{}

/// The law: the run of a code in which each function stands follows the run of the trees.
pub fn compiled_follow()
    ensures { CompiledFollow }
{}

/// The law: a data area of the objects' blocks holds the objects.
pub fn blocks_hold_objects()
    ensures { BlocksHoldObjects }
{}

/// The law: the run of a code that is assembled function by function follows the run of the trees, on every input.
pub fn assembled_follow()
    ensures { AssembledFollow }
{}

/// The law: what the run of the trees follows, as the run of a source, is followed by the run of the code.
pub fn source_is_followed()
    ensures { SourceIsFollowed }
{}

/// The law: the frame round a body that is the code of a function's items is the code of the function.
pub fn frames_are_function_codes()
    ensures { FramesAreFunctionCodes }
{}

/// The law: the code of one program follows it, with no premise left.
pub fn demo_follows()
    ensures { DemoFollows }
{}

/// The law: the data area that is spelled item by item, with a `.long` for each link, is the objects' blocks.
pub fn areas_are_blocks()
    ensures { AreasAreBlocks }
{}

/// The law: no label stands twice in the code of a valid program's functions, and none is a service's name.
pub fn code_labels_differ()
    ensures { CodeLabelsDiffer }
{}

/// The law: the code of a valid program's functions has a label for main.
pub fn main_stands()
    ensures { MainStands }
{}

/// The law: the code of a program loads, where its objects' labels are their own and its instructions name what is there.
pub fn assembled_loads()
    ensures { AssembledLoads }
{}

/// The law: a code that is written of a valid program loads.
pub fn written_codes_load()
    ensures { WrittenCodesLoad }
{}

/// The law: what the run of the trees follows, as the run of a source, is followed by the run of a code that is written of the program.
pub fn written_codes_follow()
    ensures { WrittenCodesFollow }
{}
