//! The slew behind a wire.
ghost use Rattle.std.specs.Prelude.{◌≡◌, ◌<◌, ◌≤◌, IfSome};
ghost use Rattle.slew_states.specs.PinState.{IsSmall, behind, most};
ghost use Rattle.corner_set.specs.declared.choices.WireSlew.TheVariants.{Rss};
ghost use Rattle.net_delays.specs.NetTimes.{elmore_limit};
ghost use Rattle.slew_order.specs.WireBehind.{wire_of};

use corner_set::WireSlew;
use delay_units::Atto;
use slew_states::PinState;
use wire_slews::wire_slew;

/// The slew behind a wire, of the slew before it in attoseconds, and of the wire's Elmore sum in 10^-27 s. None past 10^12 attoseconds.
pub(crate) fn slew_behind(mode: WireSlew, elmore: u128, slew: u64) -> Option<u64>
    requires slew { slew ≤ most }
    requires elmore { elmore < elmore_limit }
    ensures value { result ≡ wire_of mode elmore slew }
    ensures small { IfSome result (λ made. made ≤ most) }
{
    match mode {
        WireSlew::Same => Some(slew),
        WireSlew::Rss => joined_slew(elmore, slew),
    }
}

/// The state behind a wire.
pub(crate) fn state_behind(mode: WireSlew, elmore: u128, state: PinState) -> PinState
    requires small { IsSmall state }
    requires elmore { elmore < elmore_limit }
    ensures value { result ≡ behind (wire_of mode elmore) state }
    ensures small { IsSmall result }
{
    match state {
        PinState::Known(slew) => match slew_behind(mode, elmore, slew) {
            Some(made) => PinState::Known(made),
            None => PinState::Stuck,
        },
        state => state,
    }
}

// The slew behind a wire that joins its own. It stands by itself since its root is long, and other modes have none.
#[inline(never)]
#[tactic(auto, using(crate::proofs::Wiring::wire_some, crate::proofs::Wiring::wire_none))]
fn joined_slew(elmore: u128, slew: u64) -> Option<u64>
    requires slew { slew ≤ most }
    requires elmore { elmore < elmore_limit }
    ensures value { result ≡ wire_of Rss elmore slew }
    ensures small { IfSome result (λ made. made ≤ most) }
{
    let behind = wire_slew(Atto(slew as i64), elmore)?;
    Some(behind.0 as u64)
}
