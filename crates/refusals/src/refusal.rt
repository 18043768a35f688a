//! The refusals: what is wrong with an input that was read.
ghost use Rattle.std.specs.Prelude.{◌≡◌};
ghost use Rattle.refusals.specs.RefusalLine.{key_text};

use cell_models::{Edge, Part, ShapeFault};
use delay_units::Atto;
use edge_io::{Text, TextList};
use liberty_groups::Cause;
use liberty_tables::CellFault;
use name_table::NodeName;
use nldm_lookup::Which;

/// Names a file of the command line by its key.
#[derive(Clone, Copy)]
pub enum FileKey {
    /// The file of `--netlist`.
    Netlist,
    /// The file of `--lib`.
    Lib,
    /// The file of `--lib-min`.
    LibMin,
    /// The file of `--lib-typ`.
    LibTyp,
    /// The file of `--lib-max`.
    LibMax,
    /// The file of `--spef`.
    Spef,
    /// The file of `--sdf`.
    Sdf,
}

/// A limit that an input passes.
#[derive(Drop)]
pub enum LimitKind {
    /// The bytes of a file, of which at most 2^28 are read.
    File(FileKey),
    /// The modules within each other, the top being the first, which are at most 64.
    Depth,
    /// The instances that are visited, of modules and of cells, which are at most 2^20.
    Instances,
    /// The bits of the names in the modules that are visited, which are at most 2^22.
    Names,
    /// The connections of the instances that are visited, which are at most 2^22.
    Pins,
    /// The elements of a net of this name, which has at most 2^19 resistors, and at most 2^19 capacitances and pins.
    Net(Text),
}

/// What is wrong with a number of a SPEF file.
#[derive(Clone, Copy)]
pub enum NumberKind {
    /// The number or the word of a unit.
    BadUnit,
    /// A number of more than 30 significant digits, with an exponent past 99 in size, or below 0.
    BadNumber,
    /// A capacitance over 1 nF, or a resistance over 10^8 ohm.
    ValueTooLarge,
}

/// What is wrong with an index of a SPEF file's name map.
#[derive(Clone, Copy)]
pub enum IndexKind {
    /// It is not in the map.
    Unknown,
    /// It is in the map already.
    Repeated,
}

/// Why an input is refused. Tokens count from 1, and are those of the file, comments and blanks left out. A corner is its number, which
/// is 0 where a run has one.
#[derive(Drop)]
pub enum Refusal {
    /// E01: no Verilog file begins with the tokens up to this one, or the file ends in front of it.
    NetlistSyntax {
        token: u64,
    },
    /// E02: the same, where the token is a word of a construct that is no structure.
    NotStructural {
        word: Text,
        token: u64,
    },
    /// E03: no Liberty file begins with the tokens up to this one, on this line, or the file ends in front of it.
    LibrarySyntax {
        corner: usize,
        token: u64,
        line: u64,
        cause: Cause,
    },
    /// E04: no SPEF file begins with the tokens up to this one, or the file ends in front of it.
    SpefSyntax {
        token: u64,
    },
    /// E05: the same, where the token is a word for a form of SPEF that is not read.
    SpefForm {
        word: Text,
        token: u64,
    },
    /// E06: a name stands twice where it may stand once.
    RepeatedName {
        name: Text,
    },
    /// E07: a range of a name, a select of it, a constant or a connection is no good.
    BadRange {
        name: Text,
    },
    /// E08: a port has no direction, or it has two, or a name with a direction is no port.
    PortDirection {
        name: Text,
    },
    /// E10: no module has the name of the top.
    NoTop {
        name: Text,
    },
    /// E11: the library of a corner has no cell of this name.
    UnknownCell {
        cell: Text,
        corner: usize,
    },
    /// E12: an instance connects a port that its module or its cell does not have.
    UnknownPort {
        instance: Text,
        port: Text,
    },
    /// E13: an instance connects a port with another count of bits than it has.
    Width {
        instance: Text,
        port: Text,
        want: usize,
        got: usize,
    },
    /// E14: a module is an instance within itself.
    Recursive {
        module: Text,
    },
    /// E15: two instances, or two nets, have one flat name.
    NameClash(Text),
    /// E16: an instance of a cell connects a pin that is input and output.
    InoutPin {
        instance: Text,
        pin: Text,
    },
    /// E17: several outputs drive a net of the netlist.
    SeveralDrivers(Text),
    /// E20: a cell of the library of a corner has no timing model.
    CellFault {
        cell: Text,
        corner: usize,
        fault: CellFault,
    },
    /// E21: a cell has other pins or arcs at one corner than at the first.
    CornerShape {
        cell: Text,
        fault: ShapeFault,
    },
    /// E30: a unit or a value is no good.
    SpefNumber {
        kind: NumberKind,
        token: u64,
    },
    /// E31: an index is no good.
    NameIndex {
        kind: IndexKind,
        token: u64,
    },
    /// E32: a net has two sections.
    RepeatedNet {
        net: Text,
    },
    /// E33: a net with a driver and a sink has no section.
    MissingNet {
        net: Text,
    },
    /// E34: the section of a net names a pin that is none of the net.
    StrangePin {
        net: Text,
        pin: NodeName,
    },
    /// E35: no resistors lead from the driver of a net to this node of it.
    Unreached {
        net: Text,
        node: NodeName,
    },
    /// E36: the resistors of a net close a loop; the one at this place, from 0, cuts no node off.
    Mesh {
        net: Text,
        resistor: usize,
    },
    /// E37: neither node of a coupling in a net's section belongs to the net.
    ForeignCoupling {
        net: Text,
        token: u64,
    },
    /// E40: the arcs of some instances close a loop, over these nets.
    Loop {
        nets: TextList,
    },
    /// E41: a table of an arc's edge does not reach a value on an axis: attoseconds of a slew, or 10^-21 F of a load.
    Outside {
        instance: Text,
        from: Text,
        to: Text,
        edge: Edge,
        corner: usize,
        part: Part,
        axis: Which,
        value: u64,
    },
    /// E42: the wire to a pin of a net makes a slew past one microsecond of this slew of the driver and this Elmore sum, in 10^-27 s.
    SlewLimit {
        net: Text,
        instance: Text,
        pin: Text,
        edge: Edge,
        corner: usize,
        slew: Atto,
        elmore: u128,
    },
    /// E43: a table of an arc's edge gives a value past one microsecond.
    PastTime {
        instance: Text,
        from: Text,
        to: Text,
        edge: Edge,
        corner: usize,
        part: Part,
    },
    /// E50: an input passes a limit.
    Limit(LimitKind),
    /// E60: no connection drives a net.
    NoDriver {
        net: Text,
    },
    /// E61: several connections drive a net.
    ManyDrivers {
        net: Text,
    },
    /// E62: no SDF file begins with the tokens up to this one, or the file ends in front of it.
    SdfSyntax {
        token: u64,
    },
}

impl FileKey {
    /// The word of the command line that names the file.
    pub fn word(&self) -> &[u8]
        ensures { result.now ≡ key_text self.now }
    {
        match self {
            FileKey::Netlist => b"--netlist",
            FileKey::Lib => b"--lib",
            FileKey::LibMin => b"--lib-min",
            FileKey::LibTyp => b"--lib-typ",
            FileKey::LibMax => b"--lib-max",
            FileKey::Spef => b"--spef",
            FileKey::Sdf => b"--sdf",
        }
    }
}
