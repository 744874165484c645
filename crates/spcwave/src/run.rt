// The whole program over any host.
ghost use Rattle.std.specs.Prelude.{◌≡◌, ◌↔◌, map, string_bytes};
ghost use Rattle.snd_host.specs.Host.{HostState};
ghost use Rattle.command_runner.specs.RunCalls.{AttemptsBy};
ghost use Rattle.command_line.specs.Command.{command_of, usage};
ghost use Rattle.command_line.specs.Meaning.{meaning_of, AreInRange};
ghost use Rattle.run_laws.specs.Answers.{answer_by, inputs_of, order_of};
ghost use Rattle.run_laws.specs.Run.{IsRun};
ghost use Rattle.spcwave.specs.FewOutputs.{HasFewOutputs};

use command_asm::asm;
use command_brr::brr;
use command_check::check;
use command_cuts::cuts;
use command_demo::demo;
use command_dis::dis;
use command_encode::encode;
use command_help::{help, version};
use command_info::info;
use command_line::{Command, read_words};
use command_render::render;
use command_rip::rip;
use command_runner::{Refusal, complain};
use command_serve::serve;
use exit_status::{Cause, Status, status_for};
use snd_host::Host;
use std::alloc::Global;

/// Does what a command says, but for the complaint.
fn obey<H: Host>(alloc: Global, command: Command<'_>, host: &mut H) -> Option<Refusal<Cause>>
    requires outputs { HasFewOutputs (H.state host.old) }
    requires in_range { AreInRange command }
    ensures attempts { let known = meaning_of command.entry in
        AttemptsBy (order_of known) (answer_by known) (inputs_of known) result (H.state host.old) (H.state host.new) }
    ensures misread { (result ≡ Some Refusal.Usage) ↔ (meaning_of command.entry ≡ usage) }
{
    match command {
        Command::Usage => Some(Refusal::Usage),
        Command::Help => help(alloc, host),
        Command::Version => version(alloc, host),
        Command::Brr { input, output } => brr(alloc, host, input, output),
        Command::Info { input } => info(alloc, host, input),
        Command::Encode {
            input,
            output,
            options,
        } => encode(alloc, host, input, output, options),
        Command::Render {
            file,
            table,
            wave,
            options,
        } => render(alloc, host, file, table, wave, options),
        Command::Demo { number, output } => demo(alloc, host, number, output),
        Command::Check { number } => check(alloc, host, number),
        Command::Asm {
            input,
            origin,
            output,
        } => asm(alloc, host, input, origin, output),
        Command::Dis {
            input,
            origin,
            output,
        } => dis(alloc, host, input, origin, output),
        Command::Rip {
            file,
            prefix,
            range,
        } => rip(alloc, host, file, prefix, range),
        Command::Cuts {
            file,
            table,
            list,
            wave,
            muted,
        } => cuts(alloc, host, file, table, list, wave, muted),
        Command::Serve {
            file,
            table,
            script,
            wave,
            options,
        } => serve(alloc, host, file, table, script, wave, options),
    }
}

/// Does what the words say, but for the complaint.
fn attempt<H: Host>(alloc: Global, words: &[String], host: &mut H) -> Option<Refusal<Cause>>
    requires { HasFewOutputs (H.state host.old) }
    ensures attempts { let command = command_of (map string_bytes words.now) in
        AttemptsBy (order_of command) (answer_by command) (inputs_of command) result (H.state host.old) (H.state host.new) }
    ensures misread { (result ≡ Some Refusal.Usage) ↔ (command_of (map string_bytes words.now) ≡ usage) }
{
    obey(alloc, read_words(words), host)
}

/// Does what the words say, and answers how it ended. `words` are those after the program's name.
///
/// All inputs are read and all memory is taken before the first output is created. A refusal writes one line of
/// complaint; only where an output could not be created, written or ended may parts of outputs stay behind.
pub fn run<H: Host>(alloc: Global, words: &[String], host: &mut H) -> Status
    requires { HasFewOutputs (H.state host.old) }
    ensures { IsRun (command_of (map string_bytes words.now)) (H.state host.old) (H.state host.new) result }
{
    let refusal = attempt(alloc, words, host);
    complain(host, refusal);
    status_for(refusal)
}
