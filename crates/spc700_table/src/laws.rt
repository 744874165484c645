//! How the rows of the opcodes differ, and the numbers that they have.
ghost use Rattle.spc700_table.specs.Laws.{BitsAndEntriesInRange, RowsDiffer, TextOrderOfBranches};

/// No two opcodes have the same mnemonic and the same operands.
pub fn rows_differ()
    ensures { RowsDiffer }
{}

/// The bit of an operand is one of a byte, and the entry of TCALL one of its table.
pub fn bits_and_entries_are_in_range()
    ensures { BitsAndEntriesInRange }
{}

/// The bytes of operands stand in the order of the text where an instruction compares and branches, and in no other.
pub fn branches_have_text_order()
    ensures { TextOrderOfBranches }
{}
