// The names of the test access port.

ghost use Rattle.std.specs.Prelude.{◌≡◌, Some};
ghost use Rattle.link_model.specs.Denoted.{name_bytes};
ghost use Rattle.written_netlists.specs.Prepared.{AreTapNames, HasEntered, IsEntered};

use netlist_link::Linked;
use netlist_model::Name;
use plan_fitting::Fitted;
use stitched_netlist::model::TapNames;
use texts::Text;

// The name of the table with these bytes.
fn name_of(linked: &Linked, bytes: &Text) -> Name
    requires { IsEntered linked.now.names bytes.now }
    ensures { name_bytes linked.now.names result ≡ Some bytes.now }
{
    match linked.find_name(bytes.as_bytes()) {
        Some(name) => name,
        None => unreachable!(),
    }
}

/// The names of the test access port, which were entered before.
pub fn tap_names(linked: &Linked, fitted: &Fitted) -> TapNames
    requires { HasEntered linked.now.names fitted.now }
    ensures { AreTapNames linked.now.names fitted.now result }
{
    TapNames {
        tck: name_of(linked, &fitted.tck.name),
        tms: name_of(linked, &fitted.tms.name),
        tdi: name_of(linked, &fitted.tdi.name),
        tdo: name_of(linked, &fitted.tdo.name),
        trst: name_of(linked, &fitted.trst.name),
    }
}
