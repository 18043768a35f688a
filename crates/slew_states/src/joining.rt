//! States joined, and states behind an arc.
ghost use Rattle.std.specs.Prelude.{◌≡◌, ℕ, ◌+◌, ◌*◌, ◌<◌, ◌≤◌, true, if◌then◌else◌, length, Some};
ghost use Rattle.cell_models.specs.declared.edge.Edge.{Edge};
ghost use Rattle.slew_states.specs.Arcs.{has_edge};
ghost use Rattle.slew_states.specs.InputEdges.{other_edge};
ghost use Rattle.slew_states.specs.PinState.{IsSmall, join, pin_state, worst, arc_state, state_at};
ghost use Rattle.slew_states.specs.Settled.{states_in, edges_of};

use crate::arcs::FlatArc;
use crate::states::{EdgeStates, PinState};
use crate::timing::Timing;
use cell_models::{ArcKind, Edge};
use edge_io::Steps;
use std::sync::ledger::Ledger;

impl PinState {
    /// Stuck where one is, else known with the larger slew where one is known.
    pub fn join(self, other: PinState) -> PinState
        ensures { result ≡ join self other }
    {
        match (self, other) {
            (PinState::Stuck, _) | (_, PinState::Stuck) => PinState::Stuck,
            (PinState::Known(s), PinState::Known(t)) => PinState::Known(s.max(t)),
            (PinState::Known(s), PinState::Absent) | (PinState::Absent, PinState::Known(s)) =>
                PinState::Known(s),
            (PinState::Absent, PinState::Absent) => PinState::Absent,
        }
    }
}

impl EdgeStates {
    /// The state at an edge.
    pub fn at(&self, edge: Edge) -> PinState
        ensures { result ≡ state_at self.now edge }
    {
        match edge {
            Edge::Rise => self.rise,
            Edge::Fall => self.fall,
        }
    }
}

impl FlatArc {
    /// Whether the output pin has an edge by this arc.
    pub fn has(&self, edge: Edge) -> bool
        ensures { result ≡ has_edge self.now edge }
    {
        match edge {
            Edge::Rise => self.rise,
            Edge::Fall => self.fall,
        }
    }
}

// The state of the related pin of an arc, behind the wire.
fn pin_state<T: Timing>(
    timing: &T,
    arc: usize,
    source: Option<usize>,
    edge: Edge,
    states: &[EdgeStates],
) -> PinState
    requires net { (net : ℕ) → source ≡ Some net → net < length states.now }
    requires wire { (net : ℕ) → source ≡ Some net → T.can_wire timing.now arc }
    requires small { (net : ℕ) (e : Edge) → IsSmall (states_in states.now net e) }
    ensures value { result ≡ pin_state (T.wires timing.now) (states_in states.now) arc source edge }
    ensures small { IsSmall result }
{
    let Some(net) = source else {
        return PinState::Absent;
    };
    match states[net].at(edge) {
        PinState::Known(slew) => match timing.wire(arc, slew) {
            Some(made) => PinState::Known(made),
            None => PinState::Stuck,
        },
        state => state,
    }
}

/// Known with the worst input slew of an arc for an edge of its output; absent or stuck where there is none. The states of all nets
/// are given. It does not ask whether the arc has the edge, or is loaded.
pub fn worst_input<T: Timing>(
    timing: &T,
    arc: usize,
    this: &FlatArc,
    edge: Edge,
    states: &[EdgeStates],
) -> PinState
    requires net { (net : ℕ) → this.now.source ≡ Some net → net < length states.now }
    requires wire { (net : ℕ) → this.now.source ≡ Some net → T.can_wire timing.now arc }
    requires small { (net : ℕ) (e : Edge) → IsSmall (states_in states.now net e) }
    ensures value { result ≡ worst (T.wires timing.now) (states_in states.now) arc this.now edge }
    ensures small { IsSmall result }
{
    match this.kind {
        ArcKind::Positive => pin_state(timing, arc, this.source, edge, states),
        ArcKind::Negative => pin_state(timing, arc, this.source, other_edge(edge), states),
        ArcKind::Both => {
            let rise = pin_state(timing, arc, this.source, Edge::Rise, states);
            rise.join(pin_state(timing, arc, this.source, Edge::Fall, states))
        }
        ArcKind::RisingEdge => pin_state(timing, arc, this.source, Edge::Rise, states),
        ArcKind::FallingEdge => pin_state(timing, arc, this.source, Edge::Fall, states),
    }
}

fn other_edge(edge: Edge) -> Edge
    ensures { result ≡ other_edge edge }
{
    match edge {
        Edge::Rise => Edge::Fall,
        Edge::Fall => Edge::Rise,
    }
}

/// The state that an arc gives its output.
pub(crate) fn arc_state<T: Timing, L: Ledger>(
    timing: &T,
    arc: usize,
    this: &FlatArc,
    edge: Edge,
    states: &[EdgeStates],
    steps: &mut Steps<L>,
) -> PinState
    requires net { (net : ℕ) → this.now.source ≡ Some net → net < length states.now }
    requires wire { (net : ℕ) → this.now.source ≡ Some net → T.can_wire timing.now arc }
    requires look { has_edge this.now edge ≡ true → T.can_look timing.now arc edge }
    requires small { (net : ℕ) (e : Edge) → IsSmall (states_in states.now net e) }
    ensures value { result ≡ arc_state (T.looks timing.now) (T.wires timing.now) (states_in states.now) arc this.now edge }
    ensures small { IsSmall result }
    ensures steps { steps.new ≤ steps.old + 64 * (if has_edge this.now edge then 1 else 0) }
{
    if !this.has(edge) {
        return PinState::Absent;
    }
    match worst_input(timing, arc, this, edge, states) {
        PinState::Known(slew) => match timing.look(arc, edge, slew, steps) {
            Some(made) => PinState::Known(made),
            None => PinState::Stuck,
        },
        state => state,
    }
}

/// The states that an arc gives its output at both edges, joined with others.
pub(crate) fn join_arc<T: Timing, L: Ledger>(
    timing: &T,
    arc: usize,
    this: &FlatArc,
    states: &[EdgeStates],
    others: EdgeStates,
    steps: &mut Steps<L>,
) -> EdgeStates
    requires net { (net : ℕ) → this.now.source ≡ Some net → net < length states.now }
    requires wire { (net : ℕ) → this.now.source ≡ Some net → T.can_wire timing.now arc }
    requires look { (edge : Edge) → has_edge this.now edge ≡ true → T.can_look timing.now arc edge }
    requires small { (net : ℕ) (e : Edge) → IsSmall (states_in states.now net e) }
    requires others { (edge : Edge) → IsSmall (state_at others edge) }
    ensures value { (edge : Edge) → state_at result edge
        ≡ join (arc_state (T.looks timing.now) (T.wires timing.now) (states_in states.now) arc this.now edge) (state_at others edge) }
    ensures small { (edge : Edge) → IsSmall (state_at result edge) }
    ensures steps { steps.new ≤ steps.old + 64 * edges_of this.now }
{
    let rise = arc_state(timing, arc, this, Edge::Rise, states, steps);
    let fall = arc_state(timing, arc, this, Edge::Fall, states, steps);
    EdgeStates {
        rise: rise.join(others.rise),
        fall: fall.join(others.fall),
    }
}
