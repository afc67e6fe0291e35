//! Terms on 32 bits and their normal form: two terms of one normal form have one value in every state.
#![tactic(auto)]

mod build;
mod built;
mod construct;
mod facts;
mod laws;
mod node;
mod normal;
mod operator;
mod order;
mod same;
mod term;
mod text;

pub use construct::{binary, copy, unary};
pub use facts::{Fact, has_size, is_count, same_as};
pub use laws::{
    equations_keep_values, norm_alone_is_normal, norm_alone_keeps_values, norm_is_normal,
    norm_is_reached, norm_keeps_values, order_tells_apart,
};
pub use normal::{norm, norm_under};
pub use operator::{BinaryOp, UnaryOp};
pub use order::compare;
pub use same::same_term;
pub use term::{Form, Term, form_of};
pub use text::{put_term, put_text, size_name};
