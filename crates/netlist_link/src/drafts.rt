// How a linked netlist is rewritten: room and names first, then a draft, which takes no memory.

ghost use Rattle.std.specs.Prelude.{◌≡◌, ◌+◌, ◌↔◌, ◌≤◌, [], length, Some, None, IfOk, IsOkUnless, OnErr, OnOk, MatchOption, vec_capacity};
ghost use Rattle.std.specs.Borrow.{sem};
ghost use Rattle.verilog_tree.specs.IsTree.{IsTreeName};
ghost use Rattle.netlist_model.specs.declared.Name.{Name as NameNumber};
ghost use Rattle.netlist_model.specs.Lists.{cell_count};
ghost use Rattle.netlist_model.specs.Formed.{IsWellFormed};
ghost use Rattle.netlist_arena.specs.Room.{too_many};
ghost use Rattle.link_arena.specs.cell_order.Tables.{FitsRoom, with_room};
ghost use Rattle.link_names.specs.link_model.Denoted.{name_bytes};
ghost use Rattle.link_arena.specs.NameTableNames.{with_name};
ghost use Rattle.netlist_link.specs.Drafts.{IsEmpty, reserved, with_spare};
ghost use Rattle.netlist_link.specs.LentDrafts.{LendsNetlist};
ghost use Rattle.netlist_link.specs.Linked.{HasSameMarks, IsLinked};
ghost use Rattle.netlist_link.specs.WellNamed.{IsWellNamed};

use crate::linked::Linked;
use crate::port_names::list_ports;
use cell_library::Library;
use link_arena::lower_cell_order::WorkArea;
use netlist_arena::{Netlist, ReserveFault};
use netlist_model::{Name, PortId};
use texts::OutOfMemory;

/// A linked netlist that is being rewritten. It may be anything until it is closed.
#[derive(Drop)]
pub struct Draft {
    netlist: Netlist,
}

impl Draft {
    /// The netlist, to add to and to change.
    pub fn netlist_mut(&mut self) -> &mut Netlist
        ensures* lends { sem 𝓛 (LendsNetlist self.entry result) }
        ensures netlist { result.now ≡ self.old.netlist }
    {
        &mut self.netlist
    }
}

impl Linked {
    /// Makes room for so many more cells, nets and port bits, in the netlist and in what is kept beside it, so
    /// that a draft takes no memory. The limits and their order are those of `Netlist::reserve`. After a refusal
    /// nothing has changed.
    pub fn reserve(&mut self, cells: u32, nets: u32, ports: u32) -> Result<(), ReserveFault>
        ensures answer { MatchOption (too_many self.old.arena.lists cells nets ports)
            (IsOkUnless result ReserveFault.OutOfMemory) (λ fault. result ≡ Err fault) }
        ensures ok { OnOk result (self.new ≡ reserved cells nets ports self.old) }
        ensures err { OnErr result (self.new ≡ self.old) }
    {
        if let Some(fault) = self.netlist.refusal(cells, nets, ports) {
            return Err(fault);
        }
        reserve_both(&mut self.netlist, &mut self.area, cells, nets, ports)
    }

    /// The name of the table with these bytes, which enters it unless it is there.
    pub fn enter_name(&mut self, name: &[u8]) -> Result<Name, OutOfMemory>
        requires { IsTreeName name.now }
        ensures names { OnOk result (self.new ≡ record self.old
            { names = with_name name.now self.old.names }) }
        ensures entered { IfOk result (λ entered. name_bytes self.new.names entered ≡ Some name.now) }
        ensures err { OnErr result (self.new ≡ self.old) }
    {
        make_port_room(&mut self.ports, self.names.len())?;
        let number = self.names.enter(name)?;
        let _count = self.names.len();
        Ok(Name::Original(number))
    }

    /// The name of the table with these bytes. It takes no memory.
    pub fn find_name(&self, name: &[u8]) -> Option<Name>
        ensures { (found : NameNumber) → (result ≡ Some found)
            ↔ (name_bytes self.now.names found ≡ Some name.now) }
    {
        match self.names.find(name) {
            Some(number) => Some(Name::Original(number)),
            None => None,
        }
    }

    /// The netlist with its spare numbers, to be rewritten. The empty netlist with the empty library is left here; the
    /// names and the module's name stay. It takes no memory.
    pub fn begin_draft(&mut self) -> Draft
        ensures draft { result.netlist ≡ self.old.arena }
        ensures empty { IsEmpty self.new.arena.lists }
        ensures library { self.new.arena.lists.library ≡ [] }
        ensures names { self.new.names ≡ self.old.names }
        ensures module_name { self.new.module_name ≡ self.old.module_name }
        ensures room { self.new.room ≡ self.old.room }
        ensures marks { HasSameMarks self.new self.old }
    {
        let empty = Netlist::new(self.alloc, Library::new(self.alloc));
        self.area.fill(&empty);
        list_ports(&mut self.ports, &empty, &self.names);
        let netlist = std::mem::replace(&mut self.netlist, empty);
        Draft { netlist }
    }

    /// Ends a draft: its netlist with its spare numbers is the linked one, with an order and its control and clock
    /// ports. It takes no memory.
    pub fn close(&mut self, draft: Draft)
        requires empty { IsEmpty self.old.arena.lists }
        requires formed { IsWellFormed draft.netlist.lists }
        requires named { IsWellNamed self.old.names draft.netlist.lists }
        requires room { FitsRoom draft.netlist.lists self.old.room }
        ensures netlist { self.new.arena ≡ draft.netlist }
        ensures linked { IsLinked self.new.arena.lists self.new.names self.new.order }
        ensures names { self.new.names ≡ self.old.names }
        ensures module_name { self.new.module_name ≡ self.old.module_name }
        ensures room { self.new.room ≡ self.old.room }
        ensures marks { HasSameMarks self.new self.old }
    {
        let Draft { netlist } = draft;
        self.area.fill(&netlist);
        list_ports(&mut self.ports, &netlist, &self.names);
        self.netlist = netlist;
    }
}

// Makes room for one more port than there are names.
fn make_port_room(ports: &mut Vec<Option<PortId>>, names: u64) -> Result<(), OutOfMemory>
    ensures items { ports.new.items ≡ ports.old.items }
    ensures grows { vec_capacity ports.old ≤ vec_capacity ports.new }
    ensures ok { OnOk result (names + 1 ≤ vec_capacity ports.new) }
{
    let Some(room) = (names as usize).checked_add(1) else {
        return Err(OutOfMemory);
    };
    if ports.capacity() < room {
        ports.reserve(room - ports.len())?;
    }
    Ok(())
}

// Makes room in a netlist and in the area beside it, or in neither.
#[tactic(auto, using(crate::proofs::Rewrites::few_cells, crate::proofs::Rewrites::few_nets))]
fn reserve_both(
    netlist: &mut Netlist,
    area: &mut WorkArea,
    cells: u32,
    nets: u32,
    ports: u32,
) -> Result<(), ReserveFault>
    requires { too_many netlist.old.lists cells nets ports ≡ None }
    ensures answer { IsOkUnless result ReserveFault.OutOfMemory }
    ensures lists { netlist.new.lists ≡ netlist.old.lists }
    ensures order { area.new.order ≡ area.old.order }
    ensures control { area.new.control ≡ area.old.control }
    ensures clock { area.new.clock ≡ area.old.clock }
    ensures flops { area.new.flops ≡ area.old.flops }
    ensures netlist { OnOk result (netlist.new ≡ with_spare cells nets ports netlist.old) }
    ensures area { OnOk result (area.new
        ≡ with_room (cell_count netlist.old.lists + cells) (length netlist.old.lists.nets + nets) area.old) }
    ensures netlist_stays { OnErr result (netlist.new ≡ netlist.old) }
    ensures area_stays { OnErr result (area.new ≡ area.old) }
{
    let cell_room = area.cell_room();
    let net_room = area.net_room();
    let all_cells = netlist.cell_count() + cells;
    let all_nets = netlist.net_count() + nets;
    if area.reserve(all_cells, all_nets).is_err() {
        return Err(ReserveFault::OutOfMemory);
    }
    let reserved = netlist.reserve(cells, nets, ports);
    if reserved.is_err() {
        area.limit(cell_room, net_room);
    }
    reserved
}
