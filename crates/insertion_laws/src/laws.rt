ghost use Rattle.insertion_laws.specs.Laws.{InsertionComesBack, InsertionGives, InsertionIsStripped, InsertionsBelongTogether};

use plan_fitting::devices::fitted_is_fitting;
use strip_model::law::{one_netlist_gives, recovered_gives};
use verilog_tree::reading::spelled_trees_keep_the_conditions;

/// A law: what an insertion wrote is given by the netlist and the plan that it read; so it is stripped, and no other
/// netlist with the library comes back.
pub fn insertions_are_stripped()
    ensures gives { InsertionGives }
    ensures stripped { InsertionIsStripped }
    ensures comes_back { InsertionComesBack }
{
    recovered_gives();
    one_netlist_gives();
    spelled_trees_keep_the_conditions();
}

/// A law: what `insert` writes is a netlist that keeps and realises, with its device.
pub fn insertions_belong_together()
    ensures { InsertionsBelongTogether }
{
    fitted_is_fitting();
    spelled_trees_keep_the_conditions();
}
