// The outside as the program sees it: inputs that are read by name, and outputs that are written in order.
ghost use Rattle.std.specs.Prelude.{◌≡◌, ◌≢◌, ◌+◌, ◌-◌, ◌<◌, ◌≤◌, length, drop, false, Some, IfOk, slice_get};
ghost use Rattle.snd_host.specs.Calls.{open_call, read_call, create_call, write_call, finish_call};
ghost use Rattle.snd_host.specs.Follows.{Makes};
ghost use Rattle.snd_host.specs.History.{current_of, ended_of};
ghost use Rattle.snd_host.specs.Host.{HostState, IsOpen, max_outputs};

/// A call of the host that failed.
#[derive(Clone, Copy, Debug, PartialEq, Eq)]
pub struct Failed;

/// An input that was opened, by its number.
#[derive(Clone, Copy, Debug, PartialEq, Eq)]
pub struct InFile(pub u32);

/// An output by its number: 0 is the report, 1 the complaint, and the created ones follow.
#[derive(Clone, Copy, Debug, PartialEq, Eq)]
pub struct OutFile(pub u32);

/// The bytes of the longest name of an output that a steady host takes.
pub const LONGEST_OUTPUT_NAME: usize = 200;

/// Where a program reads its inputs and writes its outputs.
///
/// Each call is noted once, with what came of it, and those that were noted before it stay. What a host is, is what its calls
/// come to: which input is current, what each output was given and whether it was ended, and how many calls failed.
pub trait Host {
    /// What contracts see of a host at one moment.
    ghost state: { Self → HostState };

    /// Makes the named input the current one, with all that the name holds left to be read.
    /// The input that was current before is no longer valid. None is current where this fails.
    fn open_in(&mut self, name: &str) -> Result<InFile, Failed>
        ensures fresh { IfOk result (λ file. current_of (state self.old).calls ≢ Some file.0) }
        ensures made { Makes (open_call (λ file. file.0) name.now result) (state self.old) (state self.new) };

    /// Puts the next bytes of the current input into the front of the buffer. None come only at its end, or into an empty buffer.
    /// What a failed read leaves in the buffer is not known.
    fn read(&mut self, file: InFile, buf: &mut [u8]) -> Result<usize, Failed>
        requires { current_of (state self.old).calls ≡ Some file.0 }
        ensures within { IfOk result (λ count. count ≤ length buf.old) }
        ensures after { IfOk result (λ count. drop count buf.new ≡ drop count buf.old) }
        ensures made { Makes (read_call file.0 (length buf.old) buf.new result) (state self.old) (state self.new) };

    /// Empties or makes the named file, and adds an output of this name, without bytes and not ended.
    fn create(&mut self, name: &str) -> Result<OutFile, Failed>
        requires { length (ended_of (state self.old).calls) < max_outputs }
        ensures number { IfOk result (λ file. file.0 ≡ length (ended_of (state self.old).calls) + 2) }
        ensures made { Makes (create_call (λ file. file.0) name.now result) (state self.old) (state self.new) };

    /// Adds the first bytes of the piece to the output, at least one where there is one.
    fn write(&mut self, file: OutFile, piece: &[u8]) -> Result<usize, Failed>
        requires { IsOpen (ended_of (state self.old).calls) file.0 }
        ensures within { IfOk result (λ count. count ≤ length piece.now) }
        ensures progress { IfOk result (λ count. 0 < length piece.now → 0 < count) }
        ensures made { Makes (write_call file.0 piece.now result) (state self.old) (state self.new) };

    /// Ends a created output.
    fn finish(&mut self, file: OutFile) -> Result<(), Failed>
        requires created { 2 ≤ file.0 }
        requires open_yet { slice_get (ended_of (state self.old).calls) (file.0 - 2) ≡ Some false }
        ensures made { Makes (finish_call file.0 result) (state self.old) (state self.new) };
}
