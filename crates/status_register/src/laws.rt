ghost use Rattle.status_register.specs.Laws.{RegistersMakeDevices};

use plan_fitting::devices::plans_make_devices;
use status_stitch::realised::fitted_registers_are_own;

/// A law: some text spells the device of what was fitted, with the registers.
pub fn registers_make_devices()
    ensures { RegistersMakeDevices }
{
    plans_make_devices();
    fitted_registers_are_own();
}
