//! Paths to the nodes that a search has found.

ghost use Rattle.std.specs.Prelude.{◌≡◌, ◌<◌, List, Some, IfOk, length, slice_get};
ghost use Rattle.breadth_first.specs.Paths.{IsTrail, LeadsBy, depth_at};

use crate::graph::Graph;
use crate::mark::Mark;
use std::alloc::{AllocError, Global};

/// The path by which the node at this index was found: a mark for each of its moves, from the start
/// on. A mark names the node that its move leads from, and the move's label. `AllocError` if memory
/// runs out.
pub fn path_to<G: Graph>(
    alloc: Global,
    graph: &G,
    marks: &[Mark],
    index: u32,
) -> Result<Vec<Mark>, AllocError>
    requires trail { (nodes : List G.Node) × IsTrail (G.graph graph.now).labels
        (G.graph graph.now).move nodes marks.now }
    requires there { index < length marks.now }
    ensures leads { IfOk result (λ path. (nodes : List G.Node)
        → IsTrail (G.graph graph.now).labels (G.graph graph.now).move nodes marks.now
        → (start node : G.Node)
        → slice_get nodes 0 ≡ Some start
        → slice_get nodes index ≡ Some node
        → LeadsBy (G.graph graph.now).labels (G.graph graph.now).move nodes
        start path.items node) }
    ensures long { IfOk result (λ path. length path.items ≡ depth_at marks.now index) }
{
    let mut path = Vec::new(alloc);
    let mut at = index;
    for _ in 0..marks[index as usize].depth {
        let mark = marks[at as usize];
        let Ok(()) = path.push(mark) else {
            return Err(AllocError);
        };
        at = mark.parent;
    }
    path.reverse();
    Ok(path)
}
