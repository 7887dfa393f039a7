//! Silent arcs among stages, as a graph.

ghost use Rattle.std.specs.Prelude.{◌≡◌, ℕ, ◌<◌, ◌≤◌, false, not, ◌&&◌, None, MatchOption, MatchResult, nat_lt, slice_index, slice_index_or};
ghost use Rattle.closure.specs.Neighbours.{leads, neighbours_in, lawful_in};
ghost use Rattle.closure.specs.Silent.{arc_in, has_arc, with_arc, FewestArcs, reached_in};
ghost use Rattle.sets.specs.BitRows.{members};
ghost use Rattle.search.specs.Walks.{Starting};

use search::breadth_first::{NO_DISTANCE, SearchFault, search};
use search::graph::Graph;
use sets::bit_row::BitRow;
use sets::small_set::SmallSet;

/// The number of stages: they are numbered from 0 to 255.
pub const STAGES: u16 = 256;

/// A stage is a state that an order may be in, and a silent arc a step from one to another that nobody is told of.
/// Row `from` holds every stage that a silent arc from stage `from` leads to.
#[derive(Clone, Copy)]
pub struct SilentArcs {
    rows: [BitRow; 256],
}

/// The same row for every stage.
fn repeated(row: BitRow) -> [BitRow; 256]
    ensures { (u v : ℕ) → arc_in result u v ≡ ((nat_lt u 256 && nat_lt v 256) && members row v) }
{
    [row; 256]
}

// An arc is given by its two ends, and each is used alone: one picks the row, the other is looked up there.
impl SilentArcs {
    /// No arcs.
    pub fn new() -> SilentArcs
        ensures { (u v : ℕ) → has_arc result u v ≡ false }
    {
        SilentArcs {
            rows: repeated(BitRow::empty()),
        }
    }

    /// Whether an arc leads from the one stage to the other.
    #[tactic(auto, using(crate::proofs::Arcs::contains_row))]
    pub fn contains(&self, from: u16, to: u16) -> bool
        ensures { result ≡ has_arc self.now from to }
    {
        self.rows
            .get(usize::from(from))
            .is_some_and(|row| row.contains(to))
    }

    /// Where place `to` of a stage leads: to stage `to` if there is such an arc, and else back to the stage itself.
    fn leads(&self, from: u16, to: u16) -> u16
        ensures { result ≡ leads self.now.rows from to }
    {
        if self.contains(from, to) { to } else { from }
    }

    /// Adds an arc if both numbers are stages, else nothing. Answers whether there is one more arc.
    pub fn insert(&mut self, from: u16, to: u16) -> bool
        ensures arcs { (u v : ℕ) → has_arc self.new u v ≡ with_arc from to (has_arc self.old) u v }
        ensures grew { result ≡ ((nat_lt from 256 && nat_lt to 256) && not (has_arc self.old from to)) }
    {
        if from >= STAGES {
            return false;
        }
        self.rows[usize::from(from)].insert(to)
    }

    /// The fewest silent arcs from a start to each stage, or none where no path leads. Declined just if a start is no
    /// stage.
    pub fn steps_from(&self, starts: &[u16]) -> Result<[Option<u16>; 256], SearchFault>
        ensures { MatchResult result (λ steps. Starting 256 starts.now × FewestArcs (has_arc self.now) starts.now steps) (λ _. Starting 256 starts.now → ⊥) }
    {
        let mut distance = [NO_DISTANCE; 256];
        let mut queue = [0; 256];
        search(self, starts, &mut distance, &mut queue)?;
        Ok(all_steps(&distance))
    }
}

/// The steps to each stage that the distance memory of a search tells.
fn all_steps(distance: &[u16; 256]) -> [Option<u16>; 256]
    ensures { (v : ℕ) → v < 256 → MatchOption (slice_index_or result v None) (slice_index distance.now v ≡ 65535) (λ d. (d < 65535) × (d ≡ slice_index distance.now v)) }
{
    let mut all = [None; 256];
    // A loop, since `map` of the array takes twice the time here, and more stack.
    for (stage, distance) in distance.iter().enumerate() {
        all[stage] = steps(*distance);
    }
    all
}

/// The steps to a stage that the distance memory of a search tells.
fn steps(distance: u16) -> Option<u16>
    ensures { MatchOption result (distance ≡ 65535) (λ d. (d < 65535) × (d ≡ distance)) }
{
    (distance != NO_DISTANCE).then_some(distance)
}

impl Graph for SilentArcs {
    ghost nodes = { λ _. 256 };

    ghost neighbours = { λ g. neighbours_in g.rows };

    fn node_count(&self) -> u16 {
        STAGES
    }

    // Every stage has 256 places, so that a neighbour is read at once. No shortest walk takes a place that leads back
    // to its own stage.
    #[tactic(auto, using(crate::proofs::Arcs::neighbour_at))]
    fn neighbour(&self, node: u16, place: u16) -> Option<u16> {
        (place < STAGES).then_some(self.leads(node, place))
    }

    ghost lawful = { λ g. lawful_in g.rows };
}

/// The stages that a path leads to, by what `steps_from` answers.
pub fn reached(steps: &[Option<u16>; 256]) -> BitRow
    ensures { (v : ℕ) → members result v ≡ reached_in steps.now v }
{
    let mut stages = BitRow::empty();
    for (stage, fewest) in steps.iter().enumerate() {
        if fewest.is_some() {
            stages.insert(stage as u16);
        }
    }
    stages
}
