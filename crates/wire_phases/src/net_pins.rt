//! The connection that drives a net.
ghost use Rattle.std.specs.Prelude.{◌≡◌, ◌<◌, length, IfOk, IfErr};
ghost use Rattle.wire_phases.specs.WireNets.{drives, HasDriver};
ghost use Rattle.wire_phases.specs.NetPins.{IsDriverEnd, IsNextDriver};

use corner_set::Single;
use spef_nets::{Listed, Net};

/// Why no connection drives a net alone.
#[derive(Clone, Copy)]
pub enum DriverEnd {
    NoDriver,
    ManyDrivers,
}

// An output of an instance drives its net, and so does an input of the design.
fn drives(conn: Listed) -> bool
    ensures { result ≡ drives conn }
{
    if conn.port {
        conn.direction == b'I'
    } else {
        conn.direction == b'O'
    }
}

// The place of the sole driver of the connections up to the one at this place, where that of those before it is known.
fn next_driver(found: Option<usize>, place: usize, conn: Listed) -> Result<Option<usize>, DriverEnd>
    ensures { IsNextDriver found place conn result }
{
    if !drives(conn) {
        return Ok(found);
    }
    match found {
        None => Ok(Some(place)),
        Some(_) => Err(DriverEnd::ManyDrivers),
    }
}

/// The place of the one connection that drives a net.
pub fn driver_of(net: &Net<Single>) -> Result<usize, DriverEnd>
    ensures ok { IfOk result (HasDriver net.now) }
    ensures within { IfOk result (λ driver. driver < length net.now.conns) }
    ensures err { IfErr result (IsDriverEnd net.now) }
{
    let mut found = None;
    for place in 0..net.conn_count() {
        found = match next_driver(found, place, net.conn(place)) {
            Ok(next) => next,
            Err(end) => return Err(end),
        };
    }
    match found {
        Some(driver) => Ok(driver),
        None => Err(DriverEnd::NoDriver),
    }
}
