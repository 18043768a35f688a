//! The laws of the states of nets.
ghost use Rattle.std.specs.Prelude.{ℕ, List};
ghost use Rattle.slew_states.specs.declared.arcs.FlatArc.{FlatArc};
ghost use Rattle.slew_states.specs.declared.arcs.Driver.{Driver};
ghost use Rattle.slew_states.specs.PinState.{Look, Wire};
ghost use Rattle.slew_states.specs.Laws.{SettledDepth, CornersAgree};

/// The law of settled depth, which its contract states: where there is no loop of arcs, the state of a net at each depth past the
/// number of nets is the same. It does nothing when it is called.
pub fn deep_states_are_the_same()
    ensures { (look : Look) (wire : Wire) (arcs : List FlatArc) (drivers : List Driver) (slew : ℕ)
        → SettledDepth look wire arcs drivers slew }
{}

/// The law of corners, which its contract states: at two corners a net is stuck at one of them, or known at both, or absent at both.
/// It does nothing when it is called.
pub fn corners_agree()
    ensures { (look : Look) (wire : Wire) (look' : Look) (wire' : Wire) (arcs : List FlatArc) (drivers : List Driver) (slew : ℕ)
        → CornersAgree look wire look' wire' arcs drivers slew }
{}
