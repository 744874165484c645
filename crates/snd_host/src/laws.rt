// What the calls of the two loops come to.
ghost use Rattle.std.specs.Prelude.{◌≡◌, ◌≤◌, ℕ, List, length, Some, Result, Vec};
ghost use Rattle.std.specs.declared.alloc.Global.{Global};
ghost use Rattle.snd_host.specs.Calls.{Call};
ghost use Rattle.snd_host.specs.Host.{HostState, Files, IfKnown, given_with};
ghost use Rattle.snd_host.specs.History.{given_of, AreTrueOf};
ghost use Rattle.snd_host.specs.Follows.{pushed, IsCut, IsBegun, AreWrites, AddsPart, KeepsCounts, CountsInput};
ghost use Rattle.snd_host.specs.Takes.{Takes, ReadsWhole, GaveFront};
ghost use Rattle.snd_host.specs.declared.calls.ReadRefusal.{ReadRefusal};

/// After writes their output has these bytes more, and nothing else of what was given changed.
pub fn writes_add_their_bytes()
    ensures { (file : ℕ) (bytes : List ℕ) (calls before : List Call) → AreWrites file bytes calls →
        given_of (pushed calls before) ≡ given_with (given_of before) file bytes }
{}

/// Writes that were cut where one failed add a prefix, and the failure is counted once.
pub fn cut_writes_add_a_prefix()
    ensures { (file : ℕ) (bytes : List ℕ) (calls before : List Call) → IsCut (AreWrites file bytes) calls →
        AddsPart file bytes before (pushed calls before) }
{}

/// An input that was read gave the front of what its name holds, up to its limit and one byte.
pub fn an_input_gives_the_front_of_what_its_name_holds()
    ensures { (files : Files) (name : List ℕ) (limit : ℕ) (bytes : List ℕ) (calls history : List Call) → Takes name limit bytes calls →
        AreTrueOf files history calls → GaveFront files name limit bytes }
{}

/// One that was read to its end gave all.
pub fn an_input_read_to_its_end_gives_all()
    ensures { (files : Files) (name : List ℕ) (limit : ℕ) (bytes : List ℕ) (calls history : List Call) → Takes name limit bytes calls →
        AreTrueOf files history calls → length bytes ≤ limit → files name ≡ Some bytes }
{}

/// A reading counts no fault, nor does the beginning of one.
pub fn a_reading_counts_nothing()
    ensures whole { (name : List ℕ) (limit : ℕ) (bytes : List ℕ) (calls before : List Call) → Takes name limit bytes calls →
        KeepsCounts before (pushed calls before) }
    ensures begun { (name : List ℕ) (limit : ℕ) (bytes : List ℕ) (calls before : List Call) → IsBegun (Takes name limit bytes) calls →
        KeepsCounts before (pushed calls before) }
{}

/// A reading that was cut where a call failed is counted once, among the faults of inputs.
pub fn a_cut_reading_is_counted_once()
    ensures { (name : List ℕ) (limit : ℕ) (bytes : List ℕ) (calls before : List Call) → IsCut (Takes name limit bytes) calls →
        CountsInput before (pushed calls before) }
{}

/// A steady host is steady after a reading, however that came out, and has the same rooms.
pub fn a_reading_leaves_a_steady_host_as_it_was()
    ensures { (name : List ℕ) (limit : ℕ) (old new : HostState) (result : Result (Vec ℕ Global) ReadRefusal) → ReadsWhole name limit old new result →
        IfKnown old.steady (λ rooms. new.steady ≡ Some rooms) }
{}
