//! A machine as the selection of instructions sees it: what stands for a part of a tree, what a template does, and the calls of a target.
#![tactic(auto)]

mod attr;
mod fault;
mod holes;
mod target;

pub use attr::Attr;
pub use fault::{TargetFault, TemplateKind};
pub use holes::hole;
pub use target::{Target, Templates};
