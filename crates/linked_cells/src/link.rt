ghost use Rattle.std.specs.Prelude.{◌≡◌, ◌<◌, ◌^◌, Some, None};
ghost use Rattle.std.specs.Option.{option_or};

use netlist_model::{CellId, Reader};
use std::marker::Model;

/// A link to an operand slot, or to none, in eight bytes. Contracts see the reader.
#[derive(Clone, Copy)]
pub struct Link {
    cell: CellId,
    place: u16,
    is_there: bool,
}

impl Model for Link {
    ghost use Rattle.std.specs.Prelude.{Option};
    ghost use Rattle.netlist_model.specs.declared.Reader.{Reader};
    ghost use Rattle.linked_cells.specs.Packed.{link_view, IsPlain, link_fields, with_fields, fields_back};

    ghost Value = { Option Reader };

    ghost view = { λ l. link_view l.cell l.place l.is_there };

    ghost invariant = { λ l. IsPlain l.cell l.place l.is_there };

    ghost inverse = { λ r. with_fields (link_fields r) };

    ghost inverse_ok = { λ a h. fields_back a h };
}

impl Link {
    /// The link to no slot.
    pub fn none() -> Link
        ensures { result ≡ None }
    {
        Link {
            cell: CellId(0),
            place: 0,
            is_there: false,
        }
    }

    /// The link to the slot of a reader.
    pub fn to(reader: Reader) -> Link
        requires { reader.place < 2 ^ 16 }
        ensures { result ≡ Some reader }
    {
        Link {
            cell: reader.cell,
            place: reader.place as u16,
            is_there: true,
        }
    }

    /// The reader whose slot is linked to.
    pub fn reader(self) -> Option<Reader>
        ensures { result ≡ self }
    {
        if self.is_there {
            Some(Reader {
                cell: self.cell,
                place: u32::from(self.place),
            })
        } else {
            None
        }
    }

    /// This link, or the other where it leads to no slot.
    pub fn or(self, other: Link) -> Link
        ensures { result ≡ option_or self other }
    {
        if self.is_there { self } else { other }
    }
}
