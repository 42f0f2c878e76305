// Laws of what a netlist means: each function has nothing to do, and its contract is the law.
// The contracts cite a statement in specs/ for each law, over the definitions of netlist_model.
// IEEE Std 1364-2001, the chapter on scheduling, leaves room for a choice; here there is none, with zero delay.
// The laws are own.
//
// - A well-formed netlist has exactly one settled valuation for any pins and contents of flip-flops
//   (`some_settled_valuation`, `one_settled_valuation`).
// - Any pins that give the control ports 0 or 1, any contents of flip-flops and any legal events have a run, and
//   only one (`some_run`, `one_run`).
// - In each run every net that clocks, clears or presets is 0 or 1 (`control_nets_are_known`); an event that
//   repeats the present value changes nothing.
// - Better known pins and contents give better known nets and readings, never another known value (two laws).
// - Numbering gates and numbering nets come to the same (two laws); a net has a direction exactly where a port bit
//   has it (two laws).
// - In a netlist without gaps exactly the numbers below the count are live. A cell of a list that is contained is
//   contained by its place, and two lists exactly where one after the other is (two laws).
// - The driver that is found of a net drives it, and is the only one; what a gate or a flip-flop drives follows no
//   pin (three laws).
// - At each moment of a run the netlist is settled, and an event leads to the next (`moments_of_a_run`).
// - The conditions of a well-formed netlist can be met: an example with a flip-flop, an inout and a gate.
// By the contract of its law functions.

ghost use Rattle.netlist_model.specs.Ports.{BitHasDirection, DirectionHasBit};
ghost use Rattle.netlist_model.specs.Settle.{SettledOnce, SettledExists};
ghost use Rattle.netlist_model.specs.Drivers.{DriverIsFound, DriverDrives, DrivenIsInside};
ghost use Rattle.netlist_model.specs.Controls.{ControlsKnown};
ghost use Rattle.netlist_model.specs.LawsRuns.{RunHasMoments, RunExists, RunOnce, RepeatsChangeNothing};
ghost use Rattle.netlist_model.specs.Knowledge.{SettledKeepsOrder, ReadingsKeepOrder};
ghost use Rattle.netlist_model.specs.Ordered.{OrderedIsNumbered, NumberedIsOrdered};
ghost use Rattle.netlist_model.specs.Example.{ExampleIsFormed};
ghost use Rattle.netlist_model.specs.LawsContained.{ContainedByPlace, ContainedParts, DenseNumbers};

/// The net of a port bit has that port's direction.
pub fn direction_of_a_bit()
    ensures { BitHasDirection }
{}

/// A net with a direction is that of a port bit.
pub fn bit_of_a_direction()
    ensures { DirectionHasBit }
{}

/// Where the gates are numbered so that each reads only gates before it, the nets can be numbered.
pub fn numbers_of_nets()
    ensures { OrderedIsNumbered }
{}

/// And the other way round: to number the nets is to number the gates.
pub fn numbers_of_gates()
    ensures { NumberedIsOrdered }
{}

/// A well-formed netlist has a settled valuation.
pub fn some_settled_valuation()
    ensures { SettledExists }
{}

/// It has only one.
pub fn one_settled_valuation()
    ensures { SettledOnce }
{}

/// In a run they are always 0 or 1.
pub fn control_nets_are_known()
    ensures { ControlsKnown }
{}

/// At each moment of a run the netlist is settled, and an event leads to the next moment.
pub fn moments_of_a_run()
    ensures { RunHasMoments }
{}

/// A start and legal events have a run.
pub fn some_run()
    ensures { RunExists }
{}

/// They have only one.
pub fn one_run()
    ensures { RunOnce }
{}

/// An event that repeats the present value changes nothing, in a flip-flop or on a net.
pub fn repeated_value_changes_nothing()
    ensures { RepeatsChangeNothing }
{}

/// Better known pins and flip-flops give better known nets.
pub fn settling_keeps_order()
    ensures { SettledKeepsOrder }
{}

/// They give better known readings.
pub fn reading_keeps_order()
    ensures { ReadingsKeepOrder }
{}

/// The driver of a net is the one that is found.
pub fn driver_is_found()
    ensures { DriverIsFound }
{}

/// What is found drives the net, and where nothing is found none does.
pub fn found_driver_drives()
    ensures { DriverDrives }
{}

/// What a gate or a flip-flop drives follows no pin.
pub fn driven_net_follows_no_pin()
    ensures { DrivenIsInside }
{}

/// A cell of a list that a netlist contains is contained, by its place.
pub fn contained_cell_by_place()
    ensures { ContainedByPlace }
{}

/// Two lists are contained exactly where the one after the other is.
pub fn contained_parts()
    ensures { ContainedParts }
{}

/// Without gaps, exactly the numbers below the count of cells are live.
pub fn numbers_of_a_dense_netlist()
    ensures { DenseNumbers }
{}

/// The conditions of a well-formed netlist can be met, with a flip-flop, an inout and a gate that reads both.
pub fn example_is_well_formed()
    ensures { ExampleIsFormed }
{}
