// The bits of the register FLG that the echo reads.
ghost use Rattle.std.specs.Prelude.{◌≡◌};
ghost use Rattle.echo_unit.specs.Flg.{has_echo_writes, is_muted};

use num_fix::has_bit;

/// Whether the output is mute, by FLG.
pub(crate) fn is_muted(flg: u8) -> bool
    ensures { result ≡ is_muted flg }
{
    has_bit(flg, 6)
}

/// Whether the echo writes to memory, by FLG.
pub fn has_echo_writes(flg: u8) -> bool
    ensures { result ≡ has_echo_writes flg }
{
    !has_bit(flg, 5)
}
