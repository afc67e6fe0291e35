//! Changes of code that make it shorter or faster, of which nothing is promised: each is validated where it is run.
#![tactic(auto)]

pub mod available;
pub mod constant_mask;
pub mod copies;
pub mod dead_write;
pub mod direct_result;
pub mod forward;
pub mod fresh;
pub mod inlined_jumps;
pub mod live;
pub mod loop_inversion;
pub mod parts;
pub mod pushed_result;
pub mod simplification;
pub mod spare_label;
pub mod spare_test;
pub mod stops;
pub mod tail_duplication;
pub mod uses;
pub mod window;

pub use constant_mask::ConstantMask;
pub use dead_write::DeadWrite;
pub use direct_result::DirectResult;
pub use forward::Forward;
pub use loop_inversion::LoopInversion;
pub use pushed_result::PushedResult;
pub use simplification::Simplification;
pub use spare_label::SpareLabel;
pub use spare_test::SpareTest;
pub use tail_duplication::TailDuplication;
