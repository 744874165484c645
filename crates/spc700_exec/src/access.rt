//! The accesses of an instruction: each passes one cycle and then acts.
//!
//! Both are in line wherever an instruction makes an access: there the bus's own code for a cycle and for an access comes together, so
//! that its clock and its calls can stay in registers.

ghost use Rattle.std.specs.Prelude.{◌≡◌};
ghost use Rattle.spc700_exec.specs.Bus.{byte_read, after_read, after_write};
ghost use Rattle.spc700_exec.specs.Pieces.{HasAccessesLeft, IsWithin};

use crate::bus::Bus;

/// The byte at an address.
#[inline(always)]
pub fn read<B: Bus>(bus: &mut B, at: u16) -> u8
    requires { HasAccessesLeft 1 B.means bus.old }
    ensures byte { result ≡ byte_read B.means at bus.old }
    ensures bus { bus.new ≡ after_read B.means at bus.old }
    ensures within { IsWithin 1 B.means bus.old bus.new }
{
    bus.pass(1);
    bus.read(at)
}

/// Writes a byte to an address.
#[inline(always)]
pub fn write<B: Bus>(bus: &mut B, at: u16, value: u8)
    requires { HasAccessesLeft 1 B.means bus.old }
    ensures bus { bus.new ≡ after_write B.means at value bus.old }
    ensures within { IsWithin 1 B.means bus.old bus.new }
{
    bus.pass(1);
    bus.write(at, value);
}
