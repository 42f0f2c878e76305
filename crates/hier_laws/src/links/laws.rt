ghost use Rattle.hier_laws.specs.LinksLaws.{SettledWhereLinked};

use crate::solutions::{
    entries_own_bits, flat_modules_keep_the_conditions, settled_where_solved, some_reading,
};
use netlist_link::link_view_is_formed;

/// A law: where the flat module links, the settled valuations of its netlist are those that solve the hierarchy.
pub fn settled_where_linked()
    ensures { SettledWhereLinked }
{
    entries_own_bits();
    flat_modules_keep_the_conditions();
    settled_where_solved();
    some_reading();
    link_view_is_formed();
}
