// The netlist with the test logic and with registers of the design's own, written as Verilog, and how the netlist
// behaves that the text tells. Each function has nothing to do, and its contract cites a statement in specs/WrittenLaws.antt.
// IEEE Std 1364-2001: modules and ports, hierarchical names; IEEE Std 1149.1-2001: test logic architecture,
// design-specific test data registers.
//
// - It can be written with the plan's prefix (`status_can_be_written`). Where preparing found room, it has no more
//   cells, nets and port bits than a module may have (`status_keeps_limits`).
// - The module's text spells it and no other, no fault stands in it, and it has one netlist, which keeps the ports and
//   the cells of the first netlist, with the test access port behind the ports (`status_is_written`).
// - In each netlist that the text tells, through any legal events every pin but TDO reads as the first netlist's
//   wrapped in the test logic of the plan's device, TDO as that of the test logic with the registers, and the core's
//   flip-flops hold what they hold there (`written_status_realises`); while the instruction in effect is transparent
//   every pin reads as the first netlist's alone (`written_status_is_alone`). From whatever its test logic and the
//   registers hold it finds home (`written_status_finds_home`), and is the first netlist alone from there on
//   (`written_status_is_alone_from_home`). Its control ports are the first netlist's, TCK and TRST
//   (`written_status_has_controls`).
// By the contract of its law functions.

ghost use Rattle.status_register.specs.WrittenLaws.{StatusCanBeWritten, StatusIsWritten, StatusKeepsLimits};
ghost use Rattle.status_register.specs.WrittenLaws.{WrittenStatusHasControls, WrittenStatusIsAlone, WrittenStatusRealises};
ghost use Rattle.status_register.specs.WrittenLaws.{WrittenStatusFindsHome, WrittenStatusIsAloneFromHome};

use netlist_link::{link_views_agree, some_link_view};
use netlist_unlink::images::{dense_keeps_places, written_is_renumbered};
use plan_fitting::devices::fitted_is_fitting;
use register_gates::constants_are_bits;
use status_stitch::built::{
    built_has_status, built_status_finds_home, built_status_is_alone, built_status_realises,
};
use status_stitch::lower_status_build::registers_are_named;
use status_stitch::lower_status_room::fitted_registers_can_be_built;
use status_stitch::realised::status_is_alone_from_home;
use stitched_netlist::cells::stitched_has_counts;
use verilog_texts::bytes_spell_one_tree;
use verilog_texts::printing::canonical_texts_spell_their_trees;
use wrapped_chip::copies::{
    renumbered_finds_home_by, renumbered_has_controls, renumbered_is_alone, renumbered_realises_by,
};
use written_netlists::names::{stitched_has_free_prefix, tap_names_are_entered};

/// No original name begins with the plan's prefix.
pub fn status_can_be_written()
    ensures { StatusCanBeWritten }
{
    fitted_is_fitting();
    stitched_has_free_prefix();
    registers_are_named();
}

/// There are no more cells, nets and port bits than a module may have.
pub fn status_keeps_limits()
    ensures { StatusKeepsLimits }
{
    fitted_is_fitting();
    fitted_registers_can_be_built();
    stitched_has_counts();
    constants_are_bits();
}

/// The text spells one module, the module tells one netlist, and that keeps the ports and cells of the first one.
pub fn status_is_written()
    ensures { StatusIsWritten }
{
    fitted_is_fitting();
    status_keeps_limits();
    tap_names_are_entered();
    dense_keeps_places();
    link_views_agree();
    some_link_view();
    canonical_texts_spell_their_trees();
    bytes_spell_one_tree();
}

/// Every pin but TDO of the written netlist reads as the chip that the plan's device makes of the first one, and TDO as
/// that of the test logic with the registers.
pub fn written_status_realises()
    ensures { WrittenStatusRealises }
{
    fitted_is_fitting();
    written_is_renumbered();
    dense_keeps_places();
    built_status_realises();
    renumbered_realises_by();
}

/// And every pin as the first netlist's alone while the instruction in effect is transparent.
pub fn written_status_is_alone()
    ensures { WrittenStatusIsAlone }
{
    fitted_is_fitting();
    written_is_renumbered();
    dense_keeps_places();
    built_status_is_alone();
    renumbered_is_alone();
}

/// From whatever its test logic and the registers hold it finds home.
pub fn written_status_finds_home()
    ensures { WrittenStatusFindsHome }
{
    fitted_is_fitting();
    written_is_renumbered();
    dense_keeps_places();
    built_status_finds_home();
    renumbered_finds_home_by();
}

/// And it is the first netlist alone from there on while the instruction in effect is transparent.
pub fn written_status_is_alone_from_home()
    ensures { WrittenStatusIsAloneFromHome }
{
    fitted_is_fitting();
    status_is_alone_from_home();
}

/// Its control ports are the first netlist's, TCK and TRST.
pub fn written_status_has_controls()
    ensures { WrittenStatusHasControls }
{
    fitted_is_fitting();
    written_is_renumbered();
    dense_keeps_places();
    built_has_status();
    renumbered_has_controls();
}
