//! Pools of expressions; a pool holds each tree only once.

mod algebra;
mod ascending_run;
mod base_pool;
pub mod degree_table;
mod degrees;
pub mod expr;
mod ext_degrees;
mod ext_pool;
mod insert;
mod joined;
mod kind_table;
mod kind_tables;
mod lending;
mod lower;
mod node_numbers;
mod node_table;
mod operations;
pub mod pool;
pub mod reach;
pub mod simplify;
pub mod weight;
