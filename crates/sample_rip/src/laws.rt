// What is found of a sample, in the words of its blocks.
ghost use Rattle.sample_rip.specs.Laws.{FoundByItsBits};

/// No block before the last one found has its end bit, and the last has it unless it is the 7,280th of an open sample.
/// Where its loop bit is set, the sample loops to the first of its blocks at the loop word, or outside if none is there.
pub fn a_sample_is_found_by_its_bits()
    ensures { FoundByItsBits }
{}
