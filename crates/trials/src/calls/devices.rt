// A BSDL text that is cut into its words, and the test logic of its device at work, scan by scan.
ghost use Rattle.std.specs.Prelude.{◌≡◌, length};

use bsdl_values::read_device;
use bsdl_words::cut;
use cell_library::Instr;
use signal_values::{PinSig, Sig};
use std::process::Abort;
use std::test::Fail;
use tap_machine::Machine;
use texts::Text;

// The description of the counter in `examples/`: 293 words in 2,243 bytes.
const COUNTER: &[u8] = br#"entity counter8 is
  generic (PHYSICAL_PIN_MAP : string := "DIP24");
  port (
    clk : in bit;
    rn : in bit;
    en : in bit;
    oe : in bit;
    q : out bit_vector(7 downto 0);
    TCK : in bit;
    TMS : in bit;
    TDI : in bit;
    TDO : out bit;
    TRST : in bit;
    VDD : linkage bit;
    GND : linkage bit
  );
  use STD_1149_1_2001.all;
  attribute COMPONENT_CONFORMANCE of counter8 : entity is "STD_1149_1_2001";
  attribute PIN_MAP of counter8 : entity is PHYSICAL_PIN_MAP;
  constant DIP24 : PIN_MAP_STRING :=
    "clk:1," &
    "rn:2," &
    "en:3," &
    "oe:4," &
    "q:(5,6,7,8,9,10,11,12)," &
    "TCK:13," &
    "TMS:14," &
    "TDI:15," &
    "TDO:16," &
    "TRST:17," &
    "VDD:18," &
    "GND:19";
  attribute TAP_SCAN_IN of TDI : signal is true;
  attribute TAP_SCAN_MODE of TMS : signal is true;
  attribute TAP_SCAN_OUT of TDO : signal is true;
  attribute TAP_SCAN_RESET of TRST : signal is true;
  attribute TAP_SCAN_CLOCK of TCK : signal is (10.0e6, BOTH);
  attribute INSTRUCTION_LENGTH of counter8 : entity is 4;
  attribute INSTRUCTION_OPCODE of counter8 : entity is
    "BYPASS (1111)," &
    "EXTEST (0000)," &
    "SAMPLE (0001)," &
    "PRELOAD (0001)," &
    "IDCODE (0010)," &
    "HIGHZ (0011)," &
    "CLAMP (0100)";
  attribute INSTRUCTION_CAPTURE of counter8 : entity is "0001";
  attribute IDCODE_REGISTER of counter8 : entity is
    "0001" & "0000000000000001" & "00000000001" & "1";
  attribute REGISTER_ACCESS of counter8 : entity is
    "BOUNDARY (EXTEST, SAMPLE, PRELOAD)," &
    "BYPASS (BYPASS, HIGHZ, CLAMP)," &
    "DEVICE_ID (IDCODE)";
  attribute BOUNDARY_LENGTH of counter8 : entity is 13;
  attribute BOUNDARY_REGISTER of counter8 : entity is
    "0 (BC_4, clk, clock, X)," &
    "1 (BC_4, rn, input, X)," &
    "2 (BC_1, en, input, X)," &
    "3 (BC_1, oe, input, X)," &
    "4 (BC_1, q(7), output3, X, 5, 0, Z)," &
    "5 (BC_1, *, control, 0)," &
    "6 (BC_1, q(6), output3, X, 5, 0, Z)," &
    "7 (BC_1, q(5), output3, X, 5, 0, Z)," &
    "8 (BC_1, q(4), output3, X, 5, 0, Z)," &
    "9 (BC_1, q(3), output3, X, 5, 0, Z)," &
    "10 (BC_1, q(2), output3, X, 5, 0, Z)," &
    "11 (BC_1, q(1), output3, X, 5, 0, Z)," &
    "12 (BC_1, q(0), output3, X, 5, 0, Z)";
end counter8;
"#;

#[test]
fn a_description_is_cut_into_its_words(rt: HostRuntime) -> Result<(), Fail> {
    let words = cut(rt.alloc(), COUNTER)?;
    assert_eq!(rt; words.len(), 293);
    assert_eq!(rt; words.end, 2_243);
    assert_eq!(rt; words.place_of(292), 2_241);
    Ok(())
}

// A cycle of TCK.
fn clock(machine: &mut Machine, captured: &[Sig], tms: bool, tdi: bool)
    requires { length captured.now ≡ length machine.old.logic.kinds }
    ensures { machine.new.logic ≡ machine.old.logic }
{
    let tdi = if tdi { Sig::One } else { Sig::Zero };
    machine.rise(tms, tdi, captured);
    machine.fall();
}

// Cycles with these levels of TMS, 0 or 1, and with the bits of a number at TDI, bit 0 first. Before which cycles, again
// bit 0 first, TDO shows 1, and before which it shows 0 or 1.
fn play(machine: &mut Machine, captured: &[Sig], levels: &[u8], sent: u32) -> [u32; 2]
    requires { length captured.now ≡ length machine.old.logic.kinds }
    ensures { machine.new.logic ≡ machine.old.logic }
{
    let mut shown = 0u32;
    let mut driven = 0u32;
    let mut place = 1u32;
    let mut rest = sent;
    for tms in levels {
        match machine.tdo() {
            PinSig::Zero => driven |= place,
            PinSig::One => {
                driven |= place;
                shown |= place;
            }
            PinSig::Unknown | PinSig::HighZ => {}
        }
        clock(machine, captured, *tms == b'1', rest % 2 == 1);
        place <<= 1;
        rest /= 2;
    }
    [shown, driven]
}

fn look_at_scans(rt: &impl Abort, machine: &mut Machine, captured: &[Sig])
    requires { length captured.now ≡ length machine.old.logic.kinds }
{
    // Run-Test/Idle, Select-DR-Scan, Capture-DR, Shift-DR, and then the code of 32 bits.
    assert!(rt; play(machine, captured, b"0100", 0) == [0, 0]);
    let levels = b"00000000000000000000000000000001".as_slice();
    assert!(rt; play(machine, captured, levels, 0) == [268_439_555, u32::MAX]);
    // Update-DR, Select-DR-Scan, Select-IR-Scan, Capture-IR, Shift-IR.
    assert!(rt; play(machine, captured, b"11100", 0) == [0, 0]);
    // It captures 0001 and then shows what went in, 1, 0, 1, 1; behind these goes 0110, which is no instruction's
    // opcode.
    assert!(rt; play(machine, captured, b"00000001", 109) == [209, 255]);
    assert_eq!(rt; machine.in_effect(), Instr::Idcode);
    // Update-IR.
    assert!(rt; play(machine, captured, b"1", 0) == [0, 0]);
    assert_eq!(rt; machine.in_effect(), Instr::Bypass);
    // Select-DR-Scan, Capture-DR, Shift-DR: 1, 0, 1 go in, and 0, 1, 0 come out.
    assert!(rt; play(machine, captured, b"100", 0) == [0, 0]);
    assert!(rt; play(machine, captured, b"001", 5) == [2, 7]);
    machine.reset();
    assert_eq!(rt; machine.in_effect(), Instr::Idcode);
}

#[test]
fn a_device_shows_its_code_and_is_passed_by_one_bit(rt: HostRuntime) -> Result<(), Fail> {
    let text = Text::from_bytes(rt.alloc(), COUNTER)?;
    let device = read_device(rt.alloc(), text)?;
    let captured = vec![in rt.alloc(); Sig::Unknown; device.cells.len()]?;
    let mut machine = Machine::new(rt.alloc(), &device)?;
    look_at_scans(&rt, &mut machine, captured.as_slice());
    Ok(())
}
