// Read-only data registers of the design's own beside a core with a device's test logic around it: specs/Extended.antt
// has the test logic with them, specs/Placed.antt their gates, specs/RunsLaws.antt that the gates do as it says from
// whatever they hold, where nets tell whose opcode is latched. Laws only.
// IEEE Std 1149.1-2001: test data registers (design-specific); the laws are own.

ghost use Rattle.status_gates.specs.RunsLaws.{WiresCarry, RegistersFollow, ExtendedTdoFollows};

use register_gates::data_registers_follow;

/// A captured wire carries the core's value.
pub fn wires_carry()
    ensures { WiresCarry }
{}

/// Each register's bits are its list at every moment, where a net tells whether its opcode is latched.
pub fn registers_follow()
    ensures { RegistersFollow }
{
    wires_carry();
    data_registers_follow();
}

/// And TDO reads as the extended test logic, where it takes the bit of the first register that is on in the place of
/// the bypass bit.
pub fn extended_tdo_follows()
    ensures { ExtendedTdoFollows }
{
    registers_follow();
    data_registers_follow();
}
