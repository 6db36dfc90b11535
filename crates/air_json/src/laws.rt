//! Facts that callers rely on, as contracts of functions.
ghost use Rattle.std.specs.Prelude.{◌≡◌, ◌↔◌, List, Option, Err};
ghost use Rattle.serde_json.specs.Data.{Data};
ghost use Rattle.air_symbolic.specs.Trees.{Tree};
ghost use Rattle.air_json.specs.NodeLists.{IsList, HasFault};
ghost use Rattle.air_json.specs.Written.{IsWritten};
ghost use Rattle.air_json.specs.Nodes.{node_of_value};
ghost use Rattle.air_json.specs.NodeFaults.{NodeFault};
ghost use Rattle.air_json.specs.declared.errors.FlatError.{FlatError};

use crate::wire_leaf::WireLeaf;

/// A value is a list of nodes of at most one tree, has at most one first fault, and never both.
pub fn lists_are_read_one_way<A: WireLeaf>()
    ensures one_tree { (d : Data) (t u : Option (Tree A.View)) → IsList A.kind d t →
        IsList A.kind d u → t ≡ u }
    ensures no_fault { (d : Data) (t : Option (Tree A.View)) (f : FlatError) → IsList A.kind d t →
        HasFault A.kind d f → ⊥ }
    ensures one_fault { (d : Data) (f g : FlatError) → HasFault A.kind d f → HasFault A.kind d g →
        f ≡ g }
{}

/// The value written for a tree is a list of that tree, and only one value is written for it; so two trees are equal
/// exactly if their written lists are.
pub fn lists_are_written_one_way<A: WireLeaf>()
    ensures list { (d : Data) (t : Option (Tree A.View)) → IsWritten A.kind d t →
        IsList A.kind d t }
    ensures one_list { (d e : Data) (t : Option (Tree A.View)) → IsWritten A.kind d t →
        IsWritten A.kind e t → d ≡ e }
    ensures one_tree { (d : Data) (t u : Option (Tree A.View)) → IsWritten A.kind d t →
        IsWritten A.kind d u → t ≡ u }
{}

/// The reader answers exactly the fault of a node that it can't read: that the node has no form, or the first fault of
/// its form.
pub fn faults_of_nodes<A: WireLeaf>()
    ensures { (before : List (Tree A.View)) (d : Data) (f : FlatError) →
        (node_of_value A.kind before d ≡ Err f) ↔ NodeFault A.kind before d f }
{}
