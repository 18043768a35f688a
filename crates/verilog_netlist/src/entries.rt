//! What a netlist says, one thing after another.
use token_texts::Span;

/// The direction of a port.
#[derive(Clone, Copy)]
pub enum Direction {
    In,
    Out,
}

/// What declares a name: a direction in the header of its module, a direction behind it, or the word `wire`.
#[derive(Clone, Copy)]
pub enum Decl {
    InHeader(Direction),
    Port(Direction),
    Wire,
}

/// The bounds of a range or of a part select, left and right, and where their numbers begin in the file. A bound past 1,048,575
/// stands as 1,048,576.
#[derive(Clone, Copy)]
pub struct Range {
    pub left: u32,
    pub right: u32,
    pub left_at: u32,
    pub right_at: u32,
}

/// What a netlist says at one place. What belongs to a module, an instance or a connection stands behind it, up to the next one.
#[derive(Clone, Copy)]
pub enum Entry {
    /// A module begins, of this name.
    Module(Span),

    /// A name in the header of the module, which says nothing else of it.
    Header(Span),

    /// A name is declared, with this range. In the header of the module it is a name of the header, too.
    Declared(Decl, Span, Option<Range>),

    /// An instance begins: of what, and its name.
    Instance(Span, Span),

    /// A connection of the instance begins, at this port.
    Port(Span),

    /// What is joined to the port, from the left: a whole name, one bit of it, some of its bits, a constant.
    Whole(Span),
    Bit(Span, u32),
    Part(Span, Range),
    Constant(Span),
}
