// What the calls of a command come to, and in which order several outputs are made.
ghost use Rattle.std.specs.Prelude.{◌≡◌, ◌+◌, ◌++◌, ◌∷◌, ℕ, true, List, length, replicate, slice_get, Some};
ghost use Rattle.std.specs.List.{AllByRecursion};
ghost use Rattle.snd_host.specs.Calls.{Call, created, wrote, finished};
ghost use Rattle.snd_host.specs.Follows.{pushed};
ghost use Rattle.snd_host.specs.History.{ended_of, AreTrueOf};
ghost use Rattle.snd_host.specs.Host.{Files, Output};
ghost use Rattle.snd_host.specs.Takes.{GaveFront};
ghost use Rattle.command_runner.specs.NamedInputs.{NamedInput, TakesInOrder};
ghost use Rattle.command_runner.specs.OutputCalls.{bytes_to, creations, numbered, MakesAtOnce, MakesInTurn};

/// Each input that was read gave the front of what its name holds, up to its limit and one byte.
pub fn each_input_gives_the_front_of_what_its_name_holds()
    ensures { (files : Files) (inputs : List NamedInput) (given : List (List ℕ)) (taken history : List Call) (place : ℕ) (input : NamedInput) (bytes : List ℕ) →
        TakesInOrder inputs given taken → AreTrueOf files history taken → slice_get inputs place ≡ Some input → slice_get given place ≡ Some bytes →
        GaveFront files input.name input.limit bytes }
{}

/// Where outputs are made at once, all are created before any has bytes.
pub fn none_has_bytes_before_all_are_created()
    ensures { (n : ℕ) (outputs : List Output) (before after : List Call) (file : ℕ) (bytes : List ℕ) →
        MakesAtOnce n outputs (before ++ wrote file bytes ∷ after) → (rest : List Call) × (before ≡ creations n outputs ++ rest) }
{}

/// There all have their bytes before any is ended.
pub fn none_is_ended_before_all_are_whole()
    ensures { (n : ℕ) (outputs : List Output) (before after : List Call) (file : ℕ) → MakesAtOnce n outputs (before ++ finished file ∷ after) →
        AllByRecursion (λ target. bytes_to target.0 before ≡ target.1) (numbered n outputs) }
{}

/// Where outputs are made one after another, all that were created before are ended when one is created.
pub fn none_is_created_before_the_last_is_ended()
    ensures { (n : ℕ) (outputs : List Output) (before after history : List Call) (name : List ℕ) (file : ℕ) → n ≡ length (ended_of history) + 2 →
        MakesInTurn n outputs (before ++ created name file ∷ after) →
        (count : ℕ) × (ended_of (pushed before history) ≡ ended_of history ++ replicate count true) }
{}
