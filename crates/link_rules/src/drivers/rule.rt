ghost use Rattle.std.specs.Prelude.{◌≡◌, ℕ, ◌<◌, IfOk, length};
ghost use Rattle.std.specs.List.{zip};
ghost use Rattle.link_model.specs.Lists.{first_in};
ghost use Rattle.link_rules.specs.Rules.{rules as driver_rules, wants_driver, is_broken, fault_named, broken};

use crate::drivers::uses::NetUses;
use link_model::{BitName, LinkFault, NetBit, is_inout, is_input, is_output};
use netlist_model::Dir;
use std::alloc::Global;
use texts::OutOfMemory;

/// What a net's drivers must be, in the order in which faults are told.
#[derive(Clone, Copy)]
pub enum Rule {
    OneDriver,
    InputsFree,
    Driven,
    WiresTwoState,
    BufifUnread,
    InoutsByBufif,
}

/// The first rule that a net breaks, and the first net that breaks it.
pub fn first_broken(
    alloc: Global,
    nets: &[NetBit],
    uses: &[NetUses],
) -> Result<Option<LinkFault>, OutOfMemory>
    requires { length uses.now ≡ length nets.now }
    ensures { IfOk result (λ found. found ≡ first_in
        (λ rule. first_in (broken rule) (zip uses.now nets.now)) driver_rules) }
{
    let rules = [
        Rule::OneDriver,
        Rule::InputsFree,
        Rule::Driven,
        Rule::WiresTwoState,
        Rule::BufifUnread,
        Rule::InoutsByBufif,
    ];
    for rule in &rules {
        match first_breaking(alloc, *rule, nets, uses)? {
            Some(fault) => return Ok(Some(fault)),
            None => {}
        }
    }
    Ok(None)
}

// The first net that breaks the rule.
fn first_breaking(
    alloc: Global,
    rule: Rule,
    nets: &[NetBit],
    uses: &[NetUses],
) -> Result<Option<LinkFault>, OutOfMemory>
    requires { length uses.now ≡ length nets.now }
    ensures { IfOk result (λ found. found ≡ first_in (broken rule) (zip uses.now nets.now)) }
{
    for (number, net) in nets.iter().enumerate() {
        if breaks(rule, net.dir(), uses[number]) {
            return Ok(Some(fault_of(rule, net.bit_name(alloc)?)));
        }
    }
    Ok(None)
}

// Whether a net that is used so breaks the rule.
fn breaks(rule: Rule, dir: Option<Dir>, uses: NetUses) -> bool
    ensures { result ≡ is_broken rule dir uses }
{
    match rule {
        Rule::OneDriver => !is_input(dir) && uses.drivers >= 2,
        Rule::InputsFree => is_input(dir) && uses.drivers >= 1,
        Rule::Driven => needs_driver(dir, uses.read) && uses.drivers == 0,
        Rule::WiresTwoState => dir.is_none() && uses.by_bufif,
        Rule::BufifUnread => is_output(dir) && uses.by_bufif && uses.read,
        Rule::InoutsByBufif => is_inout(dir) && !uses.by_bufif,
    }
}

// An output needs a driver, and a wire that is read.
fn needs_driver(dir: Option<Dir>, read: bool) -> bool
    ensures { result ≡ wants_driver read dir }
{
    match dir {
        Some(Dir::Output) => true,
        Some(Dir::Input | Dir::Inout) => false,
        None => read,
    }
}

fn fault_of(rule: Rule, bit: BitName) -> LinkFault
    ensures { result ≡ fault_named rule bit }
{
    match rule {
        Rule::OneDriver => LinkFault::TwoDrivers { bit },
        Rule::InputsFree => LinkFault::InputDriven { bit },
        Rule::Driven => LinkFault::NotDriven { bit },
        Rule::WiresTwoState => LinkFault::TristateInside { bit },
        Rule::BufifUnread => LinkFault::TristateRead { bit },
        Rule::InoutsByBufif => LinkFault::InoutNotTristate { bit },
    }
}
