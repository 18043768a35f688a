//! What the reader waits for.
use crate::entries::{Decl, Direction, Range};
use token_texts::Span;

/// Where an expression stands: in an instance of this, inside so many `{`.
#[derive(Clone, Copy)]
pub struct Place {
    pub cell: Span,
    pub depth: u32,
}

/// The left bound of a range, and where its number begins in the file.
#[derive(Clone, Copy)]
pub struct Bound {
    pub value: u32,
    pub at: u32,
}

/// What is waited for.
#[derive(Clone, Copy)]
pub enum Mode {
    /// A module, or the end of the file; the module's name; behind it a `(` or a `;`.
    Modules,
    ModuleName,
    ModuleHead,

    /// Behind the `(` of a header: its first name or direction, or its `)`. Behind a comma a name; behind a name a comma or `)`.
    HeaderStart,
    HeaderName,
    HeaderMore,

    /// Behind the `)` of a header: a `;`.
    HeaderEnd,

    /// An item, or `endmodule`.
    Items,

    /// Behind a direction: `wire`, a range or a name. Behind `wire`: a range or a name.
    AfterWay(Decl),
    AfterWire(Decl),

    /// The pieces of a range.
    RangeLeft(Decl),
    RangeColon(Decl, Bound),
    RangeRight(Decl, Bound),
    RangeEnd(Decl, Range),

    /// A name that is declared; what follows one; behind a comma of a header a name or a direction.
    DeclaredName(Decl, Option<Range>),
    DeclaredMore(Decl, Option<Range>),
    NextPort(Direction, Option<Range>),

    /// The name of an instance of this, and its `(`.
    InstanceName(Span),
    InstanceOpen(Span),

    /// A connection or the `)` of the instance; a connection behind a comma; the port of one, its `(`, and what is joined.
    FirstConnection(Span),
    NextConnection(Span),
    PortName(Span),
    PortOpen(Span),
    Joined(Span),

    /// An expression; what follows a name in one; the pieces of a select; what follows an expression.
    Operand(Place),
    NameEnd(Place, Span),
    SelectLeft(Place, Span),
    SelectNext(Place, Span, Bound),
    SelectRight(Place, Span, Bound),
    SelectEnd(Place, Span, Range),
    OperandEnd(Place),

    /// Behind the `)` of a connection, and of an instance.
    ConnectionEnd(Span),
    InstanceEnd(Span),
}
