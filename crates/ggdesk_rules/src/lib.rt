// Rows about descriptions: terms and the effects of rules, templates, tables with their item sets, and checks with replays of trees. Each
// module answers the rows of one subject.
#![tactic(auto)]

pub mod cases;
pub mod check;
pub mod effects;
pub mod found;
pub mod samples;
pub mod shipped;
pub mod stacks;
pub mod tables;
pub mod templates;
pub mod terms;
pub mod words;
