// That what is inserted is recovered, and that nothing else is: laws on definitions.
// IEEE Std 1149.1-2001: boundary-scan register, the annex on BSDL; IEEE Std 1364-2001: modules and ports.
//
// - Where a netlist and a plan give a module with test logic and a device, what is recovered of these is a module that
//   denotes the netlist, and a plan that gives the same with it.
// - So no two netlists with one library give the same; and where what is recovered doesn't give the two, nothing does.
// - What is recovered of a module that can be written can be written, and a module that denotes what another does has
//   its names and its link views. Pin lines name one list of bits.
// By the contract of its law functions.

ghost use Rattle.strip_model.specs.Answer.{RecoveredGives, RefusedByAll};
ghost use Rattle.strip_model.specs.RecoveryLaw.{FittedCanBeTold, LawOfStripping, OneNetlistGives, RecoveredIsTheNetlist};
ghost use Rattle.strip_model.specs.Once.{PinsAreSeenOnce};
ghost use Rattle.strip_model.specs.Same.{SameIsLinked, SameNames};
ghost use Rattle.strip_model.specs.Tree.{CoreIsTree};

use crate::gives::link_view_is_laid_out;
use crate::netlists::{core_is_told, fitted_can_be_undone};
use crate::plans::{plan_is_told, same_is_fitted, told_plan_fits, told_plan_is_spelled};
use netlist_link::{link_view_is_formed, link_view_is_named};
use plan_fitting::devices::{fitted_is_fitting, prefixes_are_free, tap_names_are_new};
use written_netlists::names::{stitched_fits_room, tap_names_are_entered};

/// A law: what is fitted can be told.
pub fn fitted_can_be_told()
    ensures { FittedCanBeTold }
{
    tap_names_are_entered();
    prefixes_are_free();
    tap_names_are_new();
    fitted_can_be_undone();
}

/// A law: what is inserted is recovered.
pub fn recovered_is_the_netlist()
    ensures { RecoveredIsTheNetlist }
{
    fitted_is_fitting();
    fitted_can_be_told();
    core_is_told();
    plan_is_told();
    stitched_fits_room();
    link_view_is_laid_out();
}

/// The law: what a netlist and a plan give, gives the netlist back, and a plan that gives the same with it.
pub fn law_of_stripping()
    ensures { LawOfStripping }
{
    fitted_is_fitting();
    recovered_is_the_netlist();
    told_plan_fits();
    told_plan_is_spelled();
    same_is_fitted();
    prefixes_are_free();
    link_view_is_formed();
    link_view_is_named();
    link_view_is_laid_out();
}

/// A law: one netlist with a library gives a module with test logic and its device.
pub fn one_netlist_gives()
    ensures { OneNetlistGives }
{
    law_of_stripping();
}

/// A law: a module that denotes what another does has its names.
pub fn same_names()
    ensures { SameNames }
{}

/// A law: the netlist of the one is that of the other.
pub fn same_is_linked()
    ensures { SameIsLinked }
{
    same_names();
}

/// A law: what is recovered of a tree is a tree.
pub fn core_is_tree()
    ensures { CoreIsTree }
{}

/// A law: what is recovered gives the same.
pub fn recovered_gives()
    ensures { RecoveredGives }
{
    law_of_stripping();
    recovered_is_the_netlist();
    same_is_linked();
    core_is_tree();
}

/// A law: where what is recovered doesn't give the two, nothing does.
pub fn refused_by_all()
    ensures { RefusedByAll }
{
    recovered_gives();
}

/// A law: pin lines name one list of bits.
pub fn pins_are_seen_once()
    ensures { PinsAreSeenOnce }
{}
