//! What one kind of table calls its variables.

use edge_io::Text;

/// The names of the variables of one kind of table (Liberty, `variable_1` and `variable_2` of a template): that of a slew, and that of
/// the other one, which is a load, or a time too. The other one stands as the load of a table.
#[derive(Drop)]
pub struct TableNames {
    pub slew: Text,
    pub other: Text,
    pub other_is_time: bool,
}
