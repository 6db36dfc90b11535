//! Facts on fields, pools, lists and words, as contracts of functions: call a function where a proof needs its fact.

pub use air_field::{extension_order, field_order};
pub use air_gadgets::{packed_bits_are_numbers, words_are_exact};
pub use air_json::laws::{faults_of_nodes, lists_are_read_one_way, lists_are_written_one_way};
pub use air_symbolic::laws::{
    degree_is_kept, id_order, is_same_tree, is_same_whole_tree, leaf_order, polynomial_is_kept,
    polynomial_is_within_degree, pool_grows_with_base, tree_is_kept, whole_tree_is_kept,
};
