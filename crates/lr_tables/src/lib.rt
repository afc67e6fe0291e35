//! The tables of a machine description: LR(0) item sets with SLR(1) look-ahead, which prefer a shift
//! to a reduction and a longer rule to a shorter one.
#![tactic(auto)]

mod building;
mod follow;
mod item;
mod kept;
mod marks;
mod numbering;
mod rows;
mod sets;
mod tables;
mod types;

pub use building::build;
pub use item::{Item, number, symbol_number};
pub use numbering::BuildFault;
pub use tables::Tables;
pub use types::{Choice, State};
