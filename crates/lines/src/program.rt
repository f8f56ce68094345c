ghost use Rattle.std.specs.Prelude.{◌≡◌, ℕ, ◌≤◌, length};
ghost use Rattle.line.specs.State.{Device};
ghost use Rattle.simulated.specs.Simulated.{device_of};
ghost use Rattle.lines.specs.Acting.{MayAct};

use simulated::device::SimulatedDevice;

// What a device does of its own accord, and what it keeps for that: all that tells one supplied line from another.
pub trait Program {
    // what it makes of the device within a Poll, and what it keeps then
    ghost acts: { Self → Device → Device };

    ghost kept: { Self → Device → Self };

    // what it keeps once the device took a request with this second parameter
    ghost takes: { ℕ → Self → Self };

    fn act(&mut self, device: &mut SimulatedDevice)
        ensures device { device_of device.new ≡ acts self.old (device_of device.old) }
        ensures kept { self.new ≡ kept self.old (device_of device.old) };

    fn take(&mut self, second_parameter: u8)
        ensures { self.new ≡ takes second_parameter self.old };

    // it does only what the rules let a device do
    ghost allowed: { (p : Self) (d : Device) → 256 ≤ length d.memory → MayAct d (acts p d) };
}
