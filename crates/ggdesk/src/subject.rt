// What rows are about.

/// The subject of the rows of a section.
#[derive(Clone, Copy)]
pub enum Subject {
    /// Sources: the first fault of their tokens or phrases, or their tokens.
    Syntax,
    /// Assembly texts: what they hold or their first wrong line, and whether they are written back byte for byte.
    Assembly,
    /// Binary images: those of texts, and the texts of those that bytes are.
    Images,
    /// Texts on the machine: instructions at their edges, operands, and each way to end.
    Machine,
    /// Lists of passes over assembly texts: what they lead to, and how many changes each has made.
    Passes,
    /// Terms with their normal forms, and rules with the effects of their patterns.
    Terms,
    /// Trees and programs of trees: whether they are well typed or valid, and how they run.
    Trees,
    /// Sources: `ok` or their first fault; layouts and needs of frames.
    Types,
    /// Sources with their trees, or with both their runs.
    Lowering,
    /// Descriptions: their rules and item sets or their first wrong line, and pictures of item sets.
    Tables,
    /// Rules of the VAX with the effect of pattern and template, or the fault in the template.
    Templates,
    /// Descriptions whose tables are checked, with the replay of each tree that refuses one.
    Check,
    /// Calls of the commands, with what fails beside them: statuses, outputs and reports.
    Commands,
    /// Calls of the desk by words, over files of the rows.
    Desk,
}

/// The subjects with their names.
pub static SUBJECTS: [(&str, Subject); 14] = [
    ("syntax", Subject::Syntax),
    ("assembly", Subject::Assembly),
    ("images", Subject::Images),
    ("machine", Subject::Machine),
    ("passes", Subject::Passes),
    ("terms", Subject::Terms),
    ("trees", Subject::Trees),
    ("types", Subject::Types),
    ("lowering", Subject::Lowering),
    ("tables", Subject::Tables),
    ("templates", Subject::Templates),
    ("check", Subject::Check),
    ("commands", Subject::Commands),
    ("desk", Subject::Desk),
];

impl Subject {
    /// The subject of this name.
    pub fn named(name: &str) -> Option<Subject> {
        SUBJECTS
            .iter()
            .find_map(|(other, subject)| (*other == name).then_some(*subject))
    }
}
