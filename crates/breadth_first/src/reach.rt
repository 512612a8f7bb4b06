//! The search: all nodes that are reachable from a start, nearer ones first.

ghost use Rattle.std.specs.Prelude.{◌≡◌, ℕ, ◌+◌, ◌<◌, ◌≤◌, true, false, ◌⊎◌, Some, Err, List, [], ◌∷◌, ◌++◌, length, slice_get, OnOk, IfOk};
ghost use Rattle.std.specs.List.{list_any};
ghost use Rattle.breadth_first.specs.Paths.{AreTooMany};
ghost use Rattle.breadth_first.specs.Searches.{IsOldNode, IsNewNode, IsSearching, IsSearch, IsSearchAt, IsSearchAfter, IsWholeSearch};
ghost use Rattle.breadth_first.specs.declared.mark.Unreached.TheVariants.{TooMany};

use crate::graph::{Arrival, Graph};
use crate::mark::{Mark, Unreached};
use indexmap::IndexSet;
use std::alloc::Global;
use std::collections::VecDeque;
use std::hash::Hash;

/// The nodes that are reached, in the order in which they were discovered: for each its key,
/// whether it is a goal, and a mark, which says how it was discovered. Of two nodes the later one
/// is no nearer to the start.
#[derive(Drop)]
pub struct Reached<K: Eq + Hash + Drop> {
    pub keys: IndexSet<K>,
    pub goals: Vec<bool>,
    pub marks: Vec<Mark>,
}

/// A search in progress. The queue has the nodes that are discovered but not expanded.
#[derive(Drop)]
struct Search<N: Drop, K: Eq + Hash + Drop> {
    alloc: Global,
    reached: Reached<K>,
    queue: VecDeque<N>,
}

/// All nodes that are reachable from the start, each by a shortest path, if there are at most
/// `most`. `TooMany` if there are more; `Memory` if memory runs out.
pub fn reach<G: Graph>(
    alloc: Global,
    graph: &G,
    start: G::Node,
    most: u32,
) -> Result<Reached<G::Key>, Unreached>
    requires starts { start ≡ (G.graph graph.now).origin }
    requires holds { G.Holds graph.now start }
    ensures all { IfOk result (λ r. IsWholeSearch (G.graph graph.now) G.Node.eq (G.Holds graph.now)
        r.keys.keys r.goals.items r.marks.items) }
    ensures fits { IfOk result (λ r. length r.keys.keys ≤ most) }
    ensures few { IfOk result (λ _. AreTooMany (G.graph graph.now).labels
        (G.graph graph.now).move G.Node.eq (G.graph graph.now).origin most → ⊥) }
    ensures too_many { result ≡ Err TooMany → AreTooMany (G.graph graph.now).labels
        (G.graph graph.now).move G.Node.eq (G.graph graph.now).origin most }
{
    let mut search = begin::<G>(alloc);
    let origin = Mark {
        parent: 0,
        label: 0,
        depth: 0,
    };
    discover(graph, &mut search, start, origin, most)?;
    expand_all(graph, &mut search, most)?;
    Ok(search.reached)
}

/// Expands the nodes in the queue, and those that this adds to it.
fn expand_all<G: Graph>(
    graph: &G,
    search: &mut Search<G::Node, G::Key>,
    most: u32,
) -> Result<(), Unreached>
    requires searching { IsSearch (G.graph graph.now) G.Node.eq (G.Holds graph.now)
        search.old.reached.keys.keys search.old.reached.goals.items
        search.old.reached.marks.items search.old.queue.items 0 0 }
    requires fits { length search.old.reached.keys.keys ≤ most }
    ensures all { OnOk result (IsWholeSearch (G.graph graph.now) G.Node.eq (G.Holds graph.now)
        search.new.reached.keys.keys search.new.reached.goals.items
        search.new.reached.marks.items) }
    ensures fits { OnOk result (length search.new.reached.keys.keys ≤ most) }
    ensures too_many { result ≡ Err TooMany → AreTooMany (G.graph graph.now).labels
        (G.graph graph.now).move G.Node.eq (G.graph graph.now).origin most }
{
    for at in 0..most {
        let Some(node) = search.queue.pop_front() else {
            break;
        };
        expand(graph, search, &node, at, most)?;
    }
    Ok(())
}

/// A search that has discovered no node.
fn begin<G: Graph>(alloc: Global) -> Search<G::Node, G::Key>
    ensures keys { result.reached.keys.keys ≡ [] }
    ensures goals { result.reached.goals.items ≡ [] }
    ensures marks { result.reached.marks.items ≡ [] }
    ensures queue { result.queue.items ≡ [] }
{
    let keys = IndexSet::new(alloc);
    let goals = Vec::new(alloc);
    let marks = Vec::new(alloc);
    let reached = Reached { keys, goals, marks };
    let queue = VecDeque::new(alloc);
    Search {
        alloc,
        reached,
        queue,
    }
}

/// Notes a node with its mark, unless an equal node is noted. `TooMany` if `most` others are.
fn discover<G: Graph>(
    graph: &G,
    search: &mut Search<G::Node, G::Key>,
    node: G::Node,
    mark: Mark,
    most: u32,
) -> Result<(), Unreached>
    ensures discovered { OnOk result (
        IsOldNode (G.graph graph.now) G.Key.eq node
        search.old.reached.keys.keys search.new.reached.keys.keys
        search.old.reached.goals.items search.new.reached.goals.items
        search.old.reached.marks.items search.new.reached.marks.items
        search.old.queue.items search.new.queue.items
        ⊎ IsNewNode (G.graph graph.now) G.Key.eq node mark most
        search.old.reached.keys.keys search.new.reached.keys.keys
        search.old.reached.goals.items search.new.reached.goals.items
        search.old.reached.marks.items search.new.reached.marks.items
        search.old.queue.items search.new.queue.items) }
    ensures too_many { result ≡ Err TooMany
        → (list_any (G.Key.eq ((G.graph graph.now).key node)) search.old.reached.keys.keys ≡ false)
        × (most ≤ length search.old.reached.keys.keys) }
{
    let Ok(key) = graph.key(search.alloc, &node) else {
        return Err(Unreached::Memory);
    };
    if search.reached.keys.len() >= most as usize {
        if search.reached.keys.contains(&key) {
            return Ok(());
        }
        return Err(Unreached::TooMany);
    }
    let Ok(added) = search.reached.keys.insert(key) else {
        return Err(Unreached::Memory);
    };
    if !added {
        return Ok(());
    }
    let goal = graph.is_goal(&node);
    search.add(node, goal, mark)
}

impl<N: Drop, K: Eq + Hash + Drop> Search<N, K> {
    /// Adds a node to the queue, and notes its mark and whether it is a goal.
    fn add(&mut self, node: N, goal: bool, mark: Mark) -> Result<(), Unreached>
        ensures keys { self.new.reached.keys ≡ self.old.reached.keys }
        ensures goals { OnOk result
            (self.new.reached.goals.items ≡ self.old.reached.goals.items ++ goal ∷ []) }
        ensures marks { OnOk result
            (self.new.reached.marks.items ≡ self.old.reached.marks.items ++ mark ∷ []) }
        ensures queue { OnOk result (self.new.queue.items ≡ self.old.queue.items ++ node ∷ []) }
        ensures memory { result ≡ Err TooMany → ⊥ }
    {
        let Ok(()) = self.reached.goals.push(goal) else {
            return Err(Unreached::Memory);
        };
        let Ok(()) = self.reached.marks.push(mark) else {
            return Err(Unreached::Memory);
        };
        let Ok(()) = self.queue.push_back(node) else {
            return Err(Unreached::Memory);
        };
        Ok(())
    }
}

/// Follows the move by one label from `node`, which is the one at index `at`. Returns whether the
/// next label is known to lead to the same node.
fn follow<G: Graph>(
    graph: &G,
    search: &mut Search<G::Node, G::Key>,
    node: &G::Node,
    at: u32,
    label: usize,
    most: u32,
) -> Result<bool, Unreached>
    requires searching { IsSearchAt (G.graph graph.now) G.Node.eq (G.Holds graph.now) node.now
        search.old.reached.keys.keys search.old.reached.goals.items
        search.old.reached.marks.items search.old.queue.items at }
    requires labelled { label < (G.graph graph.now).labels }
    requires room { at < most }
    requires fits { length search.old.reached.keys.keys ≤ most }
    ensures followed { OnOk result ((nodes : List G.Node) → slice_get nodes at ≡ Some node.now
        → IsSearching (G.graph graph.now) G.Node.eq (G.Holds graph.now) nodes
        search.old.reached.keys.keys search.old.reached.goals.items
        search.old.reached.marks.items search.old.queue.items (at + 1) at
        → IsSearchAfter (G.graph graph.now) G.Node.eq (G.Holds graph.now) nodes
        search.old.reached.marks.items
        search.new.reached.keys.keys search.new.reached.goals.items
        search.new.reached.marks.items search.new.queue.items at label) }
    ensures again { IfOk result (λ again. again ≡ true
        → (G.graph graph.now).move node.now (label + 1) ≡ (G.graph graph.now).move node.now label) }
    ensures fits { OnOk result (length search.new.reached.keys.keys ≤ most) }
    ensures too_many { result ≡ Err TooMany → AreTooMany (G.graph graph.now).labels
        (G.graph graph.now).move G.Node.eq (G.graph graph.now).origin most }
{
    let Ok(found) = graph.next(search.alloc, node, label) else {
        return Err(Unreached::Memory);
    };
    let Some(arrival) = found else {
        return Ok(false);
    };
    let Arrival { node: next, again } = arrival;
    let depth = search.reached.marks[at as usize].depth + 1;
    let mark = Mark {
        parent: at,
        label,
        depth,
    };
    match discover(graph, search, next, mark, most) {
        Ok(()) => Ok(again),
        Err(why) => Err(why),
    }
}

/// Follows all moves from `node`, which is the one at index `at`.
fn expand<G: Graph>(
    graph: &G,
    search: &mut Search<G::Node, G::Key>,
    node: &G::Node,
    at: u32,
    most: u32,
) -> Result<(), Unreached>
    requires searching { IsSearchAt (G.graph graph.now) G.Node.eq (G.Holds graph.now) node.now
        search.old.reached.keys.keys search.old.reached.goals.items
        search.old.reached.marks.items search.old.queue.items at }
    requires room { at < most }
    requires fits { length search.old.reached.keys.keys ≤ most }
    ensures expanded { OnOk result (IsSearch (G.graph graph.now) G.Node.eq (G.Holds graph.now)
        search.new.reached.keys.keys search.new.reached.goals.items
        search.new.reached.marks.items search.new.queue.items (at + 1) (at + 1)) }
    ensures fits { OnOk result (length search.new.reached.keys.keys ≤ most) }
    ensures too_many { result ≡ Err TooMany → AreTooMany (G.graph graph.now).labels
        (G.graph graph.now).move G.Node.eq (G.graph graph.now).origin most }
{
    let mut again = false;
    for label in 0..graph.label_count() {
        if again {
            again = false;
            continue;
        }
        match follow(graph, search, node, at, label, most) {
            Ok(same) => again = same,
            Err(why) => return Err(why),
        }
    }
    Ok(())
}
