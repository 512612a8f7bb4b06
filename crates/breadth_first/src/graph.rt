//! Graphs whose moves have labels.

ghost use Rattle.std.specs.Prelude.{◌≡◌, ℕ, ◌<◌, ◌+◌, Some, true, IfOk, IfSome};
ghost use Rattle.std.specs.Option.{option_map};
ghost use Rattle.breadth_first.specs.Graph.{GraphOf};

use std::alloc::{AllocError, Global};
use std::hash::Hash;

/// The node to which a label leads, and whether the next label is known to lead there too.
#[derive(Drop)]
pub struct Arrival<N: Drop> {
    pub node: N,
    pub again: bool,
}

/// A graph. From a node, each label leads to at most one node.
pub trait Graph {
    /// A node; equal nodes are searched once.
    type Node: Eq + Drop;

    /// What a search keeps of each node. Nodes are equal exactly if their keys are.
    type Key: Eq + Hash + Drop;

    // The labels, the moves, the node that a search begins at, the nodes' keys, and the goals.
    ghost graph: { Self → GraphOf Self.Node Self.Key };

    // What holds of each node that a search discovers.
    ghost Holds: { Self → Self.Node → Type 0 };

    /// The number of labels. The labels are 0 to one less than this number.
    fn label_count(&self) -> usize
        ensures { result ≡ (graph self.now).labels };

    /// The node to which the label leads from this node, if any; says also whether the next label
    /// is known to lead there. `AllocError` if memory runs out.
    fn next(
        &self,
        alloc: Global,
        node: &Self::Node,
        label: usize,
    ) -> Result<Option<Arrival<Self::Node>>, AllocError>
        requires labelled { label < (graph self.now).labels }
        requires holds { Holds self.now node.now }
        ensures node { IfOk result
            (λ r. option_map (λ a. a.node) r ≡ (graph self.now).move node.now label) }
        ensures again { IfOk result (λ r. IfSome r (λ a. a.again ≡ true
            → (graph self.now).move node.now (label + 1) ≡ Some a.node)) };

    /// The node's key. `AllocError` if memory runs out.
    fn key(&self, alloc: Global, node: &Self::Node) -> Result<Self::Key, AllocError>
        ensures { IfOk result (λ k. k ≡ (graph self.now).key node.now) };

    /// Whether the node is a goal.
    fn is_goal(&self, node: &Self::Node) -> bool
        ensures { result ≡ (graph self.now).is_goal node.now };

    // From equal nodes each label leads to equal nodes.
    ghost alike: { (g : Self) (x y : Self.Node) → Self.Node.eq x y ≡ true → (l : ℕ) (z : Self.Node)
        → (graph g).move x l ≡ Some z
        → (w : Self.Node) × (((graph g).move y l ≡ Some w) × (Self.Node.eq z w ≡ true)) };

    // `Holds` is kept by each move.
    ghost holds_after: { (g : Self) (x y : Self.Node) (l : ℕ) → Holds g x
        → (graph g).move x l ≡ Some y → Holds g y };

    // Keys of nodes of which `Holds` holds are equal exactly if the nodes are.
    ghost same_key: { (g : Self) (x y : Self.Node) → Holds g x → Holds g y
        → Self.Key.eq ((graph g).key x) ((graph g).key y) ≡ Self.Node.eq x y };
}
