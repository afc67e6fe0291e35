//! The types of C, expressions with their types, and the values of constant expressions.
#![tactic(auto)]

pub mod constant;
pub mod fault;
pub mod typed;
pub mod types;

pub use fault::{TypeFault, TypeKind};
pub use typed::{
    ArithmeticOperator, Callee, Direction, Expression, Moment, Place, UnaryOperator, Variable,
};
pub use types::{CType, Integer, Types};
