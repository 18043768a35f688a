//! What a run writes once its verdict is reached.
ghost use Rattle.edge_io.specs.Writing.{Writes};
ghost use Rattle.gdc_run.specs.Outputs.{listing_text, output_text};

use command_rows::{ArcRows, write_arcs, write_flat};
use corner_set::{Single, Triple};
use design_phases::Design;
use edge_io::{Failed, Sink, write_all};
use gdc_words::{help_text, version_text};
use sdf_reader::{SdfRows, print_rows, print_summary};
use sdf_writer::{Rows, write};

/// What a run writes.
#[derive(Drop)]
pub enum Output {
    /// The SDF text of these rows of one corner.
    Sdf(Rows<Single>),
    /// The SDF text of these rows of three corners.
    SdfOfCorners(Rows<Triple>),
    /// A line for each of these rows, and then their summary.
    Listing(SdfRows),
    /// The summary of these rows.
    Summary(SdfRows),
    /// A line for each of these rows of arcs.
    Arcs(ArcRows),
    /// A line for each instance and each net of this design.
    Flat(Design<Single>),
    /// The text of help.
    Help,
    /// The version.
    Version,
}

/// Writes the lines of rows, and then their summary.
fn write_listing<O: Sink>(rows: &SdfRows, out: &mut O) -> Result<(), Failed>
    ensures writes { Writes (listing_text rows.now) (O.written out.old) (O.written out.new) (O.faults out.old) (O.faults out.new) result }
{
    print_rows(rows, out)?;
    print_summary(rows, out)?;
    Ok(())
}

/// Writes what a run has to write. It takes no memory.
pub fn write_output<O: Sink>(output: &Output, out: &mut O) -> Result<(), Failed>
    ensures writes { Writes (output_text output.now) (O.written out.old) (O.written out.new) (O.faults out.old) (O.faults out.new) result }
{
    match output {
        Output::Sdf(rows) => write(rows, out),
        Output::SdfOfCorners(rows) => write(rows, out),
        Output::Listing(rows) => write_listing(rows, out),
        Output::Summary(rows) => print_summary(rows, out),
        Output::Arcs(rows) => write_arcs(rows, out),
        Output::Flat(design) => write_flat(design, out),
        Output::Help => write_all(out, help_text()),
        Output::Version => write_all(out, version_text()),
    }
}
