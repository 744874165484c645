// What opens a player.
ghost use Rattle.std.specs.Prelude.{◌≡◌, true, Err, IfOk, IfErr, ◌⊎◌};
ghost use Rattle.spc_player.specs.Inputs.{inputs_of, IsOpened, IsAtOpening};
ghost use Rattle.spc_player.specs.Options.{are_in_range};
ghost use Rattle.spc_player.specs.declared.refusal.PlayerRefusal.TheVariants as refusals;

use crate::{OutOfMemory, PlayerOptions, PlayerRefusal};
use dsp_core::Dsp;
use gauss_table::GaussTable;
use player::Player;
use spc_form::{SpcFile, inspect, read_spc};
use std::alloc::Global;
use tune_opening::open_server;

/// A player of a file's tune over a table of weights, at its opening.
pub fn open_player(
    alloc: Global,
    file: SpcFile,
    table: GaussTable,
    options: PlayerOptions,
) -> Result<Player<Dsp>, OutOfMemory>
    requires { are_in_range options ≡ true }
    ensures opening { IfOk result (λ player. IsAtOpening (record { file = file; weights = table }) options player) }
{
    let server = open_server(alloc, &file, table, options.muted, options.pages)?;
    Ok(Player::over(server, file, options.mark_seconds))
}

/// A player at the opening, from the bytes of an SPC file and those of a table: 512 numbers of 16 bits, low byte first. What has to be refused is
/// refused before any memory is taken, the file before the table.
pub fn open_bytes(
    alloc: Global,
    bytes: &[u8],
    table: &[u8],
    options: PlayerOptions,
) -> Result<Player<Dsp>, PlayerRefusal>
    requires { are_in_range options ≡ true }
    ensures opened { IfOk result (λ player. IsOpened bytes.now table.now options player) }
    ensures refused { IfErr (inputs_of bytes.now table.now) (λ refusal. result ≡ Err refusal) }
    ensures causes { IfErr result (λ refusal. (inputs_of bytes.now table.now ≡ Err refusal) ⊎ (refusal ≡ refusals.OutOfMemory)) }
{
    inspect(bytes)?;
    let weights = GaussTable::read(alloc, table)?;
    let file = read_spc(alloc, bytes)?;
    let player = open_player(alloc, file, weights, options)?;
    Ok(player)
}
