//! The law of equal times.
ghost use Rattle.net_delays.specs.OneTimes.{OneTimes};

/// The law of equal times, which its contract states: two tables of the loads and Elmore sums of a netlist are equal if they have the
/// same load at each net and corner, and the same Elmore sum at each sink and corner. It does nothing when it is called.
pub fn times_are_one()
    ensures law { OneTimes }
{}
