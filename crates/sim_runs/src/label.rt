// Names of bits.

ghost use Rattle.std.specs.Prelude.{◌≡◌, ◌<◌, length};
ghost use Rattle.output_lines.specs.Lines.{field_text};
ghost use Rattle.sim_runs.specs.Shown.{label};

use netlist_link::Linked;
use netlist_model::{Name, NetId};
use output_lines::Field;

/// The name of a net's bit. A net that was added has none.
pub fn label(linked: &Linked, net: NetId) -> Field<'_>
    requires there { net.0 < length linked.now.arena.lists.nets }
    ensures { field_text result ≡ label linked.now net.0 }
{
    match linked.netlist().net_name(net) {
        Name::Original(number) => Field::of_bit(
            linked.name_text(Name::Original(number)),
            linked.netlist().net_index(net),
        ),
        Name::Added(_) => Field::Word(b""),
    }
}
