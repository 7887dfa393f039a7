//! What a graph is to a search.

ghost use Rattle.std.specs.Prelude.{◌≡◌, ℕ, ◌<◌, List, drop};
ghost use Rattle.std.specs.List.{slice_get};
ghost use Rattle.std.specs.Iterator.{YieldsFirst, item_count};
ghost use Rattle.search.specs.Walks.{Lawful};

/// At most 4,096 nodes, numbered from 0, each with a list of at most 4,096 neighbours, all of them nodes.
pub trait Graph {
    /// The number of nodes.
    ghost nodes: { Self → ℕ };

    /// The neighbours of a node, in the order of their places.
    ghost neighbours: { Self → ℕ → List ℕ };

    /// The number of nodes.
    fn node_count(&self) -> u16
        ensures { result ≡ nodes self.now };

    /// The neighbour at `place`, from 0, of the list of `node`, or none past the end of the list.
    fn neighbour(&self, node: u16, place: u16) -> Option<u16>
        ensures { result ≡ slice_get (neighbours self.now node) place };

    /// The bounds above, which every `impl` proves of each of its values.
    ghost lawful: { (g : Self) → Lawful (nodes g) (neighbours g) };
}

/// The neighbours of a node, in the order of their places.
// An iterator of its own, and no `(0..).map_while(..)` whose closure borrows the graph: the goals that the check states
// for a `for` over that have a type error.
#[derive(Drop)]
pub(crate) struct Neighbours<'g, G> {
    graph: &'g G,
    node: u16,
    place: u16,
}

impl<'g, G: Graph> Neighbours<'g, G> {
    /// All neighbours of a node.
    pub(crate) fn of(graph: &'g G, node: u16) -> Neighbours<'g, G>
        ensures graph { result.graph.now ≡ graph.now }
        ensures node { result.node ≡ node }
        ensures first { result.place ≡ 0 }
    {
        Neighbours {
            graph,
            node,
            place: 0,
        }
    }
}

impl<'g, G: Graph> Iterator for Neighbours<'g, G> {
    type Item = u16;

    ghost can_next = { λ it. it.node < G.nodes it.graph.now };

    ghost next_gives = { YieldsFirst (λ it. drop it.place (G.neighbours it.graph.now it.node)) };

    ghost remaining = { item_count (λ it. drop it.place (G.neighbours it.graph.now it.node)) };

    fn next(&mut self) -> Option<u16> {
        let neighbour = self.graph.neighbour(self.node, self.place)?;
        self.place += 1;
        Some(neighbour)
    }
}
