//! The search, breadth first: nodes are visited in the order of their distances.

ghost use Rattle.std.specs.Prelude.{◌≡◌, ℕ, ◌+◌, ◌<◌, ◌≤◌, ◌↔◌, length, slice_index, IsTrue, Some, codes};
ghost use Rattle.search.specs.Walks.{From, Starting, Tells};
ghost use Rattle.search.specs.Answers.{fault_number, fault_place, Answered};
ghost use Rattle.search.specs.Visits.{SameMemory, Visiting, SawFirst};

use crate::graph::{Graph, Neighbours};
use crate::queue::Queue;
use std::error::Error;
use std::fmt;

/// What the distance memory holds for a node that no walk reaches: a number of the format. The memory is a row of plain
/// numbers, with no room for an `Option`.
pub const NO_DISTANCE: u16 = 65535;

/// Why a search is declined: each fault with its number.
#[derive(Clone, Copy, Debug, PartialEq, Eq, PartialOrd, Ord, Hash)]
pub enum SearchFault {
    /// The distance or the working memory is shorter than the nodes, or a start is no node.
    Unfit = 5,
}

impl SearchFault {
    /// The number of the fault.
    pub fn number(&self) -> u8
        ensures { result ≡ fault_number self.now }
    {
        *self as u8
    }

    /// The place of the fault. Each fault is told by a number and a place, which is 0 where there is none to tell.
    pub fn place(&self) -> usize
        ensures { result ≡ fault_place self.now }
    {
        match self {
            SearchFault::Unfit => 0,
        }
    }
}

impl fmt::Display for SearchFault {
    ghost output = { λ _. Some (codes "memory is too short or a start is no node") };

    fn fmt<W: fmt::Write>(&self, f: &mut fmt::Formatter<W>) -> fmt::Result {
        match self {
            SearchFault::Unfit => write!(f, "memory is too short or a start is no node"),
        }
    }
}

impl Error for SearchFault {}

/// Whether each start is a node.
fn all_nodes(starts: &[u16], nodes: u16) -> bool
    ensures { IsTrue result ↔ Starting nodes starts.now }
{
    starts.iter().all(|start| *start < nodes)
}

/// Sees the neighbours of a node of the queue.
fn visit<G: Graph>(graph: &G, queue: &mut Queue, node: u16)
    requires nodes { length queue.old.distance.now ≡ G.nodes graph.now }
    requires visiting { Visiting queue.old node }
    ensures { let all = G.neighbours graph.now node in
        SawFirst (length all) all (slice_index queue.old.distance.now node + 1) queue.old queue.new }
{
    let far = queue.distance[usize::from(node)] + 1;
    for neighbour in Neighbours::of(graph, node) {
        queue.see(neighbour, far);
    }
}

/// Visits every node that a walk from a start leads to.
// That the queue has the graph's nodes is asked here and in the two functions around it: a type that says so would hold
// the queue and the graph, be made where the memory is lent, and say no more than this clause.
fn visit_all<G: Graph>(graph: &G, starts: &[u16], queue: &mut Queue)
    requires nodes { length queue.old.distance.now ≡ G.nodes graph.now }
    requires starting { Starting (G.nodes graph.now) starts.now }
    requires unvisited { queue.old.head ≡ 0 }
    requires empty { queue.old.tail ≡ 0 }
    ensures memory { SameMemory queue.old queue.new }
    ensures told { (v : ℕ) → v < G.nodes graph.now
        → Tells (From (G.neighbours graph.now) starts.now v) (slice_index queue.new.distance.now v) }
{
    for start in starts {
        queue.see(*start, 0);
    }
    while let Some(node) = queue.pop() {
        visit(graph, queue, node);
    }
}

/// Gives each node its distance.
fn explore<G: Graph>(graph: &G, starts: &[u16], distance: &mut [u16], work: &mut [u16])
    requires nodes { length distance.old ≡ G.nodes graph.now }
    requires room { length distance.old ≤ length work.old }
    requires starting { Starting (G.nodes graph.now) starts.now }
    ensures { (v : ℕ) → v < G.nodes graph.now
        → Tells (From (G.neighbours graph.now) starts.now v) (slice_index distance.new v) }
{
    distance.fill(NO_DISTANCE);
    let mut queue = Queue {
        distance,
        nodes: work,
        head: 0,
        tail: 0,
    };
    visit_all(graph, starts, &mut queue);
}

/// Leaves at each node's place of `distance` the number of arcs on a shortest walk from a start, or `NO_DISTANCE` if
/// there is none; places beyond the nodes stay as they are. `work` is working memory: nothing is promised of what it
/// then holds. Declined, with all memory as it was, just if `distance` or `work` is shorter than the nodes or a
/// start is no node. Takes time linear in the nodes, the starts and the arcs.
pub fn search<G: Graph>(
    graph: &G,
    starts: &[u16],
    distance: &mut [u16],
    work: &mut [u16],
) -> Result<(), SearchFault>
    ensures { Answered (G.nodes graph.now) (G.neighbours graph.now) starts.now distance.old work.old distance.new work.new result }
{
    let nodes = graph.node_count();
    let count = usize::from(nodes);
    if count > distance.len() || count > work.len() || !all_nodes(starts, nodes) {
        return Err(SearchFault::Unfit);
    }
    explore(graph, starts, &mut distance[..count], work);
    Ok(())
}
