//! The words of a TIMESCALE: `1`, `10`, `100`, `1.0`, `10.0` or `100.0`, and then `s`, `ms`, `us`, `ns`, `ps` or `fs`.
ghost use Rattle.std.specs.Prelude.{◌≡◌, ◌≤◌};
ghost use Rattle.sdf_reader.specs.Timescales.{zeros, unit_power, power_of};
ghost use Rattle.sdf_reader.specs.ScalePlaces.{tenfold, behind_number, behind_whole, place_after, place_behind};

/// How many of a unit.
#[derive(Clone, Copy)]
pub enum Count {
    One,
    Ten,
    Hundred,
}

/// A unit of time.
#[derive(Clone, Copy)]
pub enum TimeUnit {
    Second,
    Millisecond,
    Microsecond,
    Nanosecond,
    Picosecond,
    Femtosecond,
}

/// The unit of a file's numbers.
#[derive(Clone, Copy)]
pub struct Timescale {
    pub count: Count,
    pub unit: TimeUnit,
}

/// A place in the words of a TIMESCALE, by what stands before it.
#[derive(Clone, Copy)]
pub enum ScalePlace {
    /// Nothing.
    Start,

    /// `1`, `10` or `100`.
    Whole(Count),

    /// The same and a point.
    Point(Count),

    /// The same and a zero behind the point.
    Fraction(Count),

    /// All but the `s` of the unit.
    Letter(Count, TimeUnit),

    /// All.
    Done(Timescale),
}

impl Timescale {
    /// One nanosecond, which holds where a file says no other.
    pub const PLAIN: Timescale = Timescale {
        count: Count::One,
        unit: TimeUnit::Nanosecond,
    };

    /// It is ten to this power femtoseconds.
    pub(crate) fn power(self) -> u32
        ensures value { result ≡ power_of self }
        ensures small { result ≤ 17 }
    {
        self.count.zeros() + self.unit.power()
    }
}

impl Count {
    fn zeros(self) -> u32
        ensures value { result ≡ zeros self }
        ensures small { result ≤ 2 }
    {
        match self {
            Count::One => 0,
            Count::Ten => 1,
            Count::Hundred => 2,
        }
    }

    /// With one zero more, if there may be one.
    fn tenfold(self) -> Option<Count>
        ensures { result ≡ tenfold self }
    {
        match self {
            Count::One => Some(Count::Ten),
            Count::Ten => Some(Count::Hundred),
            Count::Hundred => None,
        }
    }
}

impl TimeUnit {
    fn power(self) -> u32
        ensures value { result ≡ unit_power self }
        ensures small { result ≤ 15 }
    {
        match self {
            TimeUnit::Second => 15,
            TimeUnit::Millisecond => 12,
            TimeUnit::Microsecond => 9,
            TimeUnit::Nanosecond => 6,
            TimeUnit::Picosecond => 3,
            TimeUnit::Femtosecond => 0,
        }
    }
}

/// Behind a number: the first letter of a unit, or the only one.
fn behind_number(count: Count, byte: u8) -> Option<ScalePlace>
    ensures { result ≡ behind_number count byte }
{
    match byte {
        b's' => Some(ScalePlace::Done(Timescale {
            count,
            unit: TimeUnit::Second,
        })),
        b'm' => Some(ScalePlace::Letter(count, TimeUnit::Millisecond)),
        b'u' => Some(ScalePlace::Letter(count, TimeUnit::Microsecond)),
        b'n' => Some(ScalePlace::Letter(count, TimeUnit::Nanosecond)),
        b'p' => Some(ScalePlace::Letter(count, TimeUnit::Picosecond)),
        b'f' => Some(ScalePlace::Letter(count, TimeUnit::Femtosecond)),
        _ => None,
    }
}

/// Behind digits: one more zero, a point, or a unit.
fn behind_whole(count: Count, byte: u8) -> Option<ScalePlace>
    ensures { result ≡ behind_whole count byte }
{
    match byte {
        b'0' => match count.tenfold() {
            Some(more) => Some(ScalePlace::Whole(more)),
            None => None,
        },
        b'.' => Some(ScalePlace::Point(count)),
        _ => behind_number(count, byte),
    }
}

impl ScalePlace {
    /// The place behind one more byte, where the words may go on with it.
    fn after(self, byte: u8) -> Option<ScalePlace>
        ensures { result ≡ place_after self byte }
    {
        match self {
            ScalePlace::Start if byte == b'1' => Some(ScalePlace::Whole(Count::One)),
            ScalePlace::Whole(count) => behind_whole(count, byte),
            ScalePlace::Point(count) if byte == b'0' => Some(ScalePlace::Fraction(count)),
            ScalePlace::Fraction(count) => behind_number(count, byte),
            ScalePlace::Letter(count, unit) if byte == b's' => {
                Some(ScalePlace::Done(Timescale { count, unit }))
            }
            _ => None,
        }
    }

    /// The place behind a word, where the words may go on with it.
    pub(crate) fn behind(self, word: &[u8]) -> Option<ScalePlace>
        ensures { result ≡ place_behind self word.now }
    {
        let mut place = self;
        for byte in word {
            match place.after(*byte) {
                Some(next) => place = next,
                None => return None,
            }
        }
        Some(place)
    }
}
