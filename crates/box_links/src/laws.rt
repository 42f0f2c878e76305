// Laws of linking with boxes: nothing runs here.
ghost use Rattle.box_links.specs.Laws.{BoxLinksAgree, BoxlessFaultLinks, BoxlessFaultStands, BoxlessIsLinked, BoxlessLinksPlain, FaultsForbidBoxLinks, HiddenPortsEnd, OneBoxFaultIsFirst};

use box_model::laws::{boxless_changes_nothing, trees_stay_trees};
use netlist_link::{
    faults_forbid_links, link_view_is_formed, link_views_agree, one_fault_is_first,
};
use netlist_model::laws::driver_is_found;

/// A law: a module in which a fault stands first isn't linked.
pub fn box_faults_forbid_box_links()
    ensures { FaultsForbidBoxLinks }
{
    faults_forbid_links();
    link_view_is_formed();
    trees_stay_trees();
    driver_is_found();
}

/// A law: one fault stands first, but that any loop may be told.
pub fn one_box_fault_is_first()
    ensures { OneBoxFaultIsFirst }
{
    one_fault_is_first();
    faults_forbid_links();
}

/// A law: two netlists of one module have the same names, ports, nets and live cells, and the same hidden ports.
pub fn box_links_agree()
    ensures { BoxLinksAgree }
{
    link_views_agree();
}

/// A law: where hidden ports stand behind all others, no port stands behind them.
pub fn hidden_ports_end()
    ensures { HiddenPortsEnd }
{}

/// A law: without boxes and cuts a module is linked as it is, and nothing is hidden.
pub fn boxless_links_are_links()
    ensures linked { BoxlessIsLinked }
    ensures plain { BoxlessLinksPlain }
{
    boxless_changes_nothing();
}

/// A law: without boxes and cuts the faults are those of linking.
pub fn boxless_faults_are_faults_of_linking()
    ensures stands { BoxlessFaultStands }
    ensures links { BoxlessFaultLinks }
{
    boxless_changes_nothing();
}
