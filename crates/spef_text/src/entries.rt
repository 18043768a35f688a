//! What a SPEF file says, by the numbers of its tokens, which count from 1.
ghost use Rattle.std.specs.Prelude.{◌≡◌};
ghost use Rattle.spef_text.specs.Modes.{conn_of, cap_of, res_of};

/// A connection of a net: a port of the design, or a pin of an instance.
#[derive(Clone, Copy)]
pub struct Conn {
    /// Whether it is a port, `*P`, and no pin, `*I`.
    pub port: bool,

    /// The token that names the node.
    pub node: u64,

    /// The byte `I`, `O` or `B`: input, output or both.
    pub direction: u8,

    /// The value's token of the last `*L`, if there is one.
    pub load: Option<u64>,
}

/// A capacitance from a node to ground, or to a second node.
#[derive(Clone, Copy)]
pub struct Cap {
    /// The tokens that name the nodes.
    pub first: u64,
    pub second: Option<u64>,

    /// The value's token.
    pub value: u64,
}

/// A resistance between two nodes.
#[derive(Clone, Copy)]
pub struct Res {
    /// The tokens that name the nodes.
    pub first: u64,
    pub second: u64,

    /// The value's token.
    pub value: u64,
}

/// The marks that part names: `/`, `:`, `[` and `]` unless the file names others.
#[derive(Clone, Copy)]
pub struct Marks {
    pub divider: u8,
    pub delimiter: u8,
    pub left: u8,
    pub right: u8,
}

/// An entry of the name map: the tokens of the index and of the name that it stands for.
#[derive(Clone, Copy)]
pub struct MapEntry {
    pub index: u32,
    pub name: u32,
}

/// What an item of the head sets. An item that stands twice counts by its last.
#[derive(Clone, Copy)]
pub enum HeadItem {
    Divider(u8),
    Delimiter(u8),
    BusDelimiter(u8, u8),

    /// The token of the design's name, if one follows `*DESIGN`.
    Design(Option<u32>),

    /// The number's token of `*C_UNIT`; the unit's word follows it.
    CapUnit(u32),

    /// The number's token of `*R_UNIT`; the unit's word follows it.
    ResUnit(u32),
    Mapped(MapEntry),
}

/// A connection as it is kept. Its single bytes stand last, where they leave no gap between its parts.
#[derive(Clone, Copy)]
pub struct ConnAt {
    pub node: u32,
    pub load: Option<u32>,
    pub port: bool,
    pub direction: u8,
}

/// A capacitance as it is kept.
#[derive(Clone, Copy)]
pub struct CapAt {
    pub second: Option<u32>,
    pub first: u32,
    pub value: u32,
}

/// A resistance as it is kept.
#[derive(Clone, Copy)]
pub struct ResAt {
    pub first: u32,
    pub second: u32,
    pub value: u32,
}

impl ConnAt {
    /// The connection as it is told.
    pub fn conn(self) -> Conn
        ensures { result ≡ conn_of self }
    {
        let load = match self.load {
            Some(value) => Some(value as u64),
            None => None,
        };
        Conn {
            port: self.port,
            node: self.node as u64,
            direction: self.direction,
            load,
        }
    }
}

impl CapAt {
    /// The capacitance as it is told.
    pub fn cap(self) -> Cap
        ensures { result ≡ cap_of self }
    {
        let second = match self.second {
            Some(node) => Some(node as u64),
            None => None,
        };
        Cap {
            first: self.first as u64,
            second,
            value: self.value as u64,
        }
    }
}

impl ResAt {
    /// The resistance as it is told.
    pub fn res(self) -> Res
        ensures { result ≡ res_of self }
    {
        Res {
            first: self.first as u64,
            second: self.second as u64,
            value: self.value as u64,
        }
    }
}
