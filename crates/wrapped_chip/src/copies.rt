// A netlist with its nets and cells numbered anew, or with the same ports and live cells, behaves as the wrapped chip
// where the netlist itself does (wrapped_chip). Laws only.
// Own. For IEEE Std 1149.1-2001 see wrapped_chip.
//
// - With its nets and cells numbered anew, the numbers of the chip's cells apart, it owes what it owed
//   (`renumbered_realises`, `renumbered_is_alone`, `renumbered_finds_home`), and has the control ports that it had
//   (`renumbered_has_controls`).
// - So does a netlist with the same ports and, by their numbers, the same live cells (`same_realises`, `same_is_alone`,
//   `same_finds_home`).
// - Both hold whatever TDO is to read (`renumbered_realises_by`, `same_realises_by`, `renumbered_finds_home_by`,
//   `same_finds_home_by`).
// By the contract of its law functions.

ghost use Rattle.wrapped_chip.specs.CopiesLaws.{RenumberedRealises, RenumberedAlone, RenumberedControls, SameRealises, SameAlone};
ghost use Rattle.wrapped_chip.specs.CopiesLaws.{RenumberedRealisesBy, SameRealisesBy};
ghost use Rattle.wrapped_chip.specs.CopiesLaws.{RenumberedFindsHome, RenumberedFindsHomeBy, SameFindsHome, SameFindsHomeBy};

use netlist_model::images::{
    renumbered_bits, renumbered_directions, renumbered_ports, renumbered_reads, renumbered_runs,
    renumbering_turns, runs_have_images,
};
use netlist_model::laws::direction_of_a_bit;

/// In a device's test logic, whatever TDO is to read.
pub fn renumbered_realises_by()
    ensures { RenumberedRealisesBy }
{
    direction_of_a_bit();
    renumbering_turns();
    renumbered_bits();
    renumbered_reads();
    renumbered_runs();
    runs_have_images();
}

/// With TDO as the chip's.
pub fn renumbered_realises()
    ensures { RenumberedRealises }
{
    renumbered_realises_by();
}

/// And alone.
pub fn renumbered_is_alone()
    ensures { RenumberedAlone }
{
    direction_of_a_bit();
    renumbering_turns();
    renumbered_bits();
    renumbered_reads();
    renumbered_runs();
    runs_have_images();
}

/// Its control ports stay, whatever their numbers.
pub fn renumbered_has_controls()
    ensures { RenumberedControls }
{
    renumbering_turns();
    renumbered_bits();
    renumbered_directions();
    renumbered_ports();
}

/// With the same ports and live cells, in a device's test logic, whatever TDO is to read.
pub fn same_realises_by()
    ensures { SameRealisesBy }
{
    renumbered_realises_by();
}

/// With TDO as the chip's.
pub fn same_realises()
    ensures { SameRealises }
{
    same_realises_by();
}

/// And alone.
pub fn same_is_alone()
    ensures { SameAlone }
{
    renumbered_is_alone();
}

/// It finds home where the netlist itself does, whatever TDO is to read.
pub fn renumbered_finds_home_by()
    ensures { RenumberedFindsHomeBy }
{
    direction_of_a_bit();
    renumbering_turns();
    renumbered_bits();
    renumbered_reads();
    renumbered_runs();
    runs_have_images();
}

/// With TDO as the chip's.
pub fn renumbered_finds_home()
    ensures { RenumberedFindsHome }
{
    renumbered_finds_home_by();
}

/// So does one with the same ports and live cells, whatever TDO is to read.
pub fn same_finds_home_by()
    ensures { SameFindsHomeBy }
{
    renumbered_finds_home_by();
}

/// With TDO as the chip's.
pub fn same_finds_home()
    ensures { SameFindsHome }
{
    same_finds_home_by();
}
