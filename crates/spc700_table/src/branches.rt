// Where a branch leads.
ghost use Rattle.std.specs.Prelude.{◌≡◌};
ghost use Rattle.spc700_table.specs.Branches.{branch_target};

/// The address that a signed distance leads to from the address after the instruction.
// In line, as all that an opcode's arm does.
#[inline(always)]
pub fn branch_target(next: u16, distance: u8) -> u16
    ensures { result ≡ branch_target next distance }
{
    let distance = u16::from(distance);
    next.wrapping_add(if distance < 0x80 {
        distance
    } else {
        distance + 0xff00
    })
}
