// The clearance's code.
#![tactic(auto)]

pub mod alike;
pub mod expression;
pub mod expressions;
pub mod frame;
pub mod indexes;
pub mod made;
pub mod named;
pub mod operators;
pub mod paths;
pub mod rows;
pub mod shapes;
pub mod statements;
pub mod subject;
pub mod tables;
pub mod unsized_types;
pub mod values;
