//! The queue of a search.

ghost use Rattle.std.specs.Prelude.{◌≡◌, ◌<◌, ◌≤◌, length, slice_index};
ghost use Rattle.search.specs.Queue.{Queued, Joined};

use crate::breadth_first::NO_DISTANCE;

/// The nodes that a search has seen, in the order of their distances. A search allocates nothing, so both slices are
/// the caller's memory, and the ends of the queue stand beside them.
#[derive(Drop)]
pub(crate) struct Queue<'m> {
    /// The distance of each node, or `NO_DISTANCE` while it is not seen.
    pub(crate) distance: &'m mut [u16],
    /// The queue is the first `tail` places, of which the first `head` are visited.
    pub(crate) nodes: &'m mut [u16],
    pub(crate) head: usize,
    pub(crate) tail: usize,
    ghost queued: { Queued distance.now nodes.now tail },
}

/// Sees a node: unless it was seen before, it gets its distance and a place at the end of the queue. Answers the new
/// end of the queue.
fn see(distance: &mut [u16], nodes: &mut [u16], tail: usize, node: u16, far: u16) -> usize
    requires node { node < length distance.old }
    requires queued { Queued distance.old nodes.old tail }
    ensures { Joined distance.old nodes.old tail node far distance.new nodes.new result }
{
    if distance[usize::from(node)] == NO_DISTANCE {
        distance[usize::from(node)] = far;
        nodes[tail] = node;
        tail + 1
    } else {
        tail
    }
}

impl<'m> Queue<'m> {
    ghost use Rattle.search.specs.Visits.{Near, Saw, Popped};

    /// Sees a node: unless it was seen before, it joins the queue.
    pub(crate) fn see(&mut self, node: u16, far: u16)
        requires node { node < length self.old.distance.now }
        requires early { far ≤ self.old.tail }
        requires near { Near self.old far }
        ensures { Saw node far self.old self.new }
    {
        self.tail = see(self.distance, self.nodes, self.tail, node, far);
    }

    /// The next node to visit.
    pub(crate) fn pop(&mut self) -> Option<u16>
        ensures { Popped self.old result self.new }
    {
        if self.head >= self.tail {
            return None;
        }
        let node = self.nodes[self.head];
        self.head += 1;
        Some(node)
    }
}
