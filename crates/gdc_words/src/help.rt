//! The texts of the commands `--help` and `--version`.
ghost use Rattle.std.specs.Prelude.{◌≡◌};
ghost use Rattle.gdc_words.specs.HelpText as texts;

/// What `--help` prints: each command with its keys and what it does, and the statuses of the program.
pub fn help_text() -> &'static [u8]
    ensures { result.now ≡ texts.help_text }
{
    b"gdc computes delays for chip sign-off: of the wires and the cells of a design, from SPEF and Liberty to SDF.
Commands, each with its keys:
  wires --spef FILE [--triple min|typ|max]
      writes the delays of the wires of a SPEF file as SDF
  calc --netlist FILE --top MODULE --spef FILE --input-slew PICOSECONDS --lib FILE [--port-load FEMTOFARADS] [--triple min|typ|max] [--missing refuse|zero] [--wire-slew none|rss] [--outside refuse|edge|extend]
  calc --netlist FILE --top MODULE --spef FILE --input-slew PICOSECONDS --lib-min FILE --lib-typ FILE --lib-max FILE [--port-load FEMTOFARADS] [--missing refuse|zero] [--wire-slew none|rss] [--outside refuse|edge|extend]
      writes the delays of the wires and of the cells of a design as SDF
  show --sdf FILE
      prints the rows of an SDF file, and their summary
  lookup --lib FILE --cell CELL --slew PICOSECONDS --load FEMTOFARADS [--outside refuse|edge|extend]
      prints the delay and the transition of each arc of a cell of a Liberty library, at one slew and one load
  flat --netlist FILE --top MODULE --lib FILE
      prints the instances and the nets of a design, with what drives them
  trial --shape chain|block --size N
      calculates a design of such a shape and size, which needs no file, and prints the summary of its delays
  --help
      prints this text
  --version
      prints the version
Status:
  0  done
  1  an input is refused
  2  the words are faulty
  3  a file could not be read
  4  the output could not be written
  5  memory ran out
"
}

/// What `--version` prints.
pub fn version_text() -> &'static [u8]
    ensures { result.now ≡ texts.version_text }
{
    b"gdc 1\n"
}
