//! What the reader waits for, and what each token does.
ghost use Rattle.std.specs.Prelude.{◌≡◌};
ghost use Rattle.liberty_groups.specs.Modes.{cause_of};
ghost use Rattle.liberty_groups.specs.Steps.{does, settles};

use crate::faults::Cause;
use crate::scan::Kind;

/// What is waited for.
#[derive(Clone, Copy)]
pub enum Mode {
    /// The word `library`.
    Start,

    /// The `(` behind it, its arguments or the `)` behind them, and the `{` of its body.
    LibraryName,
    LibraryArgs,
    LibraryBody,

    /// A statement, a `;`, or the `}` that ends the body.
    Body,

    /// Behind the name of a statement: `:` or `(`.
    Name,

    /// The first word or text of a value.
    Colon,

    /// More of a value, or what follows it.
    Value,

    /// Arguments, or the `)` behind them.
    Args,

    /// Behind the arguments of a statement: `{`, or what follows an attribute.
    ArgsEnd,

    /// Behind the library: a `;` or the end of the file.
    End,
}

/// What a token does.
#[derive(Clone, Copy)]
pub enum Action {
    /// It cannot stand here.
    Refuse(Cause),

    /// Something else is waited for.
    Go(Mode),

    /// It is the name of a statement, or of the library.
    Begin(Mode),

    /// It is an argument.
    Part(Mode),

    /// It is a piece of a value.
    Piece,

    /// It opens the body of the library, or of another group.
    OpenLibrary,
    Open,

    /// It ends the body of the innermost group.
    Close,
}

fn refuse(kind: Kind, other: Cause) -> Action
    ensures { result ≡ Action.Refuse (cause_of kind other) }
{
    match kind {
        Kind::Bad => Action::Refuse(Cause::BadByte),
        Kind::OpenQuoted => Action::Refuse(Cause::OpenText),
        Kind::OpenNote => Action::Refuse(Cause::OpenComment),
        _ => Action::Refuse(other),
    }
}

impl Mode {
    /// Whether a token shows that an attribute has ended.
    #[inline]
    pub fn settles(self, kind: Kind, fresh: bool) -> bool
        ensures { result ≡ settles self kind fresh }
    {
        match self {
            Mode::Value => fresh || !matches!(kind, Kind::Word | Kind::Quoted),
            Mode::ArgsEnd => !matches!(kind, Kind::LeftBrace),
            _ => false,
        }
    }

    /// What a token does; `deep` says that no group may be opened.
    #[inline(always)]
    pub fn next(self, deep: bool, kind: Kind, bytes: &[u8]) -> Action
        ensures { result ≡ does self deep kind bytes.now }
    {
        match (self, kind) {
            (Mode::Start, Kind::Word) if bytes == b"library".as_slice() => {
                Action::Begin(Mode::LibraryName)
            }
            (Mode::Start, _) => refuse(kind, Cause::NotLibrary),
            (Mode::LibraryName, Kind::LeftParen) => Action::Go(Mode::LibraryArgs),
            (Mode::LibraryArgs, Kind::Word | Kind::Quoted) => Action::Part(Mode::LibraryArgs),
            (Mode::LibraryArgs, Kind::Comma) => Action::Go(Mode::LibraryArgs),
            (Mode::LibraryArgs, Kind::RightParen) => Action::Go(Mode::LibraryBody),
            (Mode::LibraryBody, Kind::LeftBrace) => Action::OpenLibrary,
            (Mode::Body, Kind::Semicolon) => Action::Go(Mode::Body),
            (Mode::Body, Kind::RightBrace) => Action::Close,
            (Mode::Body, Kind::Word) if bytes != b"include_file".as_slice() => {
                Action::Begin(Mode::Name)
            }
            (Mode::Name, Kind::Colon) => Action::Go(Mode::Colon),
            (Mode::Name, Kind::LeftParen) => Action::Go(Mode::Args),
            (Mode::Colon, Kind::Word | Kind::Quoted) => Action::Piece,
            (Mode::Value, _) => Action::Piece,
            (Mode::Args, Kind::Word | Kind::Quoted) => Action::Part(Mode::Args),
            (Mode::Args, Kind::Comma) => Action::Go(Mode::Args),
            (Mode::Args, Kind::RightParen) => Action::Go(Mode::ArgsEnd),
            (Mode::ArgsEnd, Kind::LeftBrace) if deep => Action::Refuse(Cause::TooDeep),
            (Mode::ArgsEnd, Kind::LeftBrace) => Action::Open,
            (Mode::End, Kind::Semicolon) => Action::Go(Mode::End),
            _ => refuse(kind, Cause::Unexpected),
        }
    }
}
