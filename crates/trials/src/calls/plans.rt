// A plan that is read, printed, and read again.
use plan_texts::{Plan, print_plan, read_plan};
use std::alloc::Global;
use std::process::Abort;
use std::test::Fail;

// A canonical text.
const PLAN: &[u8] = b"plan 2
entity t
package P1
prefix bs_
tck TCK 1
tms TMS 2
tdi TDI 3
tdo TDO 4
trst TRST 5
clock 10
length 3
capture 001
opcode BYPASS 111
opcode EXTEST 000
opcode SAMPLE 001
opcode PRELOAD 001
opcode IDCODE 010
opcode USERCODE 011
idcode 0001 0000000000000001 00000000001 1
usercode 10000000000000000000000000000110
control BC_1
pin ck 6 BC_4
pin q[0] 7 BC_1
linkage VDD 8
";

// The plan that is read of its own canonical text.
fn comes_back(rt: &impl Abort, alloc: Global, bytes: &[u8]) -> Result<Plan, Fail> {
    let plan = read_plan(alloc, bytes)?;
    let printed = print_plan(alloc, &plan)?;
    assert!(rt; printed.as_bytes() == bytes);
    Ok(read_plan(alloc, printed.as_bytes())?)
}

#[test]
fn a_plan_comes_back(rt: HostRuntime) -> Result<(), Fail> {
    let plan = comes_back(&rt, rt.alloc(), PLAN)?;
    assert_eq!(rt; plan.version, 2);
    assert_eq!(rt; plan.opcodes.len(), 6);
    assert_eq!(rt; plan.idcode, Some(268_439_555));
    assert_eq!(rt; plan.usercode, Some(2_147_483_654));
    assert_eq!(rt; plan.pins.len(), 2);
    assert_eq!(rt; plan.linkage.len(), 1);
    Ok(())
}
