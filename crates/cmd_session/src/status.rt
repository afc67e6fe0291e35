// The statuses of the program.

/// How a command ended, with the number that the process exits with.
#[derive(Clone, Copy, Debug, PartialEq, Eq)]
pub enum Status {
    /// The whole command was done.
    Done = 0,
    /// The words are no command.
    Usage = 1,
    /// No memory was left: the one status without a cause.
    NoMemory = 2,
    /// The named file was not read.
    FileFault = 3,
    /// Reading the input failed.
    InputFault = 4,
    /// Writing to an output failed.
    WriteFault = 5,
    /// The named file, or the input, is over its limit.
    TooLong = 6,
    /// The file is no source.
    SourceRefused = 7,
    /// The file is no machine description.
    DescRefused = 8,
    /// The description has more item sets, or its check more summaries, than there may be.
    Full = 9,
    /// The parse of a tree by the description blocks.
    Blocks = 10,
    /// The parse of a tree by the description turns in a circle.
    Loops = 11,
    /// A rule of the description needs more registers than its pool has.
    PoolSmall = 12,
    /// A rule of the description is not shown to do what its pattern says.
    Unshown = 13,
    /// A function needs more words of its frame than there may be.
    FrameFull = 14,
    /// The assembly text is no code's, or its code can't be run.
    AsmRefused = 15,
    /// The run used up its steps and would go on.
    Spent = 16,
    /// The run divided by zero.
    Trapped = 17,
    /// The run of a source touched memory outside its data.
    Wild = 18,
    /// The run of a source nested too many calls.
    Deep = 19,
    /// The run of a code broke.
    Broken = 20,
    /// The file is no code's image.
    ImageRefused = 23,
}
