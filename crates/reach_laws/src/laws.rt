// Laws of the chip over up to 64 samples, by the reach taken before the first of them.
ghost use Rattle.std.specs.Prelude.{true};
ghost use Rattle.dsp_state.specs.Outside.{register_read};
ghost use Rattle.dsp_state.specs.Reach.{chip_reach};
ghost use Rattle.chip_form.specs.ReachLaws.{WritesInside, ReadsInside, ReachStays, RegistersStay};
ghost use Rattle.dsp_state.specs.Results.{is_result};
ghost use Rattle.dsp_state.specs.Sample.{sample};
ghost use Rattle.dsp_state.specs.Valid.{is_valid};
ghost use Rattle.reach_laws.specs.Chain.{VoicesStayOnChains};
ghost use Rattle.reach_laws.specs.CellsMiss.{VoicesStayByBytes};

/// Samples change memory on the pages of the echo's window alone, and only while echo writes are on: on write pages of the reach.
pub fn samples_write_inside_the_window()
    ensures { WritesInside sample chip_reach is_valid }
{}

/// Where the echo can't write what voices read, a byte put off the read pages changes nothing of what the samples leave and give,
/// and the memory after them in that byte alone. Nor does it change the reach.
pub fn bytes_outside_the_reach_change_nothing()
    ensures samples { ReadsInside sample chip_reach is_valid }
    ensures reach { ReachStays chip_reach (λ s memory. true) }
{}

/// Samples change no register but those of their results: ENVX and OUTX of the voices, and ENDX.
pub fn registers_stay_but_for_results()
    ensures { RegistersStay sample register_read is_result (λ n s. true) }
{}

/// From a valid state whose echo can't write what its voices read, each voice stays on its chains for 64 samples; and for n samples, where the
/// cells that the echo writes in them have no byte that a voice can read in them.
pub fn voices_stay_on_their_chains()
    ensures pages { VoicesStayOnChains }
    ensures bytes { VoicesStayByBytes }
{}
