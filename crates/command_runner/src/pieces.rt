// What makes a sound file and a trace at once, piece by piece, and then a report.
ghost use Rattle.std.specs.Prelude.{◌≡◌, ◌<◌, ℕ, List, [], ◌++◌, Bool, true, false};
ghost use Rattle.command_runner.specs.Stream.{Both};

/// A source of a sound file and of a trace that are made at once, in pieces, and of a report on them.
pub trait Pieces {
    /// The piece that was made last.
    ghost held: { Self → Both };

    /// What is still to come after it.
    ghost to_come: { Self → Both };

    /// The report that stands once all pieces are made.
    ghost report: { Self → List ℕ };

    /// Whether all pieces are made.
    ghost is_done: { Self → Bool };

    /// How much work is left, at most.
    ghost work: { Self → ℕ };

    /// Makes the next piece, and answers whether nothing is left after it.
    fn make_next(&mut self) -> bool
        ensures wave { (to_come self.old).wave ≡ (held self.new).wave ++ (to_come self.new).wave }
        ensures trace { (to_come self.old).trace ≡ (held self.new).trace ++ (to_come self.new).trace }
        ensures wave_done { result ≡ true → (to_come self.new).wave ≡ [] }
        ensures trace_done { result ≡ true → (to_come self.new).trace ≡ [] }
        ensures report { report self.new ≡ report self.old }
        ensures is_done { is_done self.new ≡ result }
        ensures less_work { result ≡ false → work self.new < work self.old };

    /// The piece's part of the sound file.
    fn wave(&self) -> &[u8]
        ensures { result.now ≡ (held self.now).wave };

    /// The piece's part of the trace.
    fn trace(&self) -> &[u8]
        ensures { result.now ≡ (held self.now).trace };

    /// The report on all pieces.
    fn report(&self) -> &[u8]
        requires { is_done self.now ≡ true }
        ensures { result.now ≡ report self.now };
}

/// A source without pieces, with its report.
#[derive(Clone, Copy)]
pub(crate) struct NoPieces<'a> {
    pub(crate) report: &'a [u8],
}

impl Pieces for NoPieces<'_> {
    ghost held = { λ _. record { wave = []; trace = [] } };

    ghost to_come = { λ _. record { wave = []; trace = [] } };

    ghost report = { λ s. s.report.now };

    ghost is_done = { λ _. true };

    ghost work = { λ _. 0 };

    fn make_next(&mut self) -> bool {
        true
    }

    fn wave(&self) -> &[u8] {
        &[]
    }

    fn trace(&self) -> &[u8] {
        &[]
    }

    fn report(&self) -> &[u8] {
        self.report
    }
}
