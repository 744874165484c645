//! What listing and assembling are to each other.
ghost use Rattle.spc700_asm.specs.Laws.{AssembledFromListing, ListedShortly, ListingsDiffer, ListedAsAssembled};

/// The assembly of the listing of bytes is those bytes.
pub fn a_listing_is_assembled_to_its_bytes()
    ensures { AssembledFromListing }
{}

/// A listing is short enough to be assembled again.
pub fn a_listing_is_short()
    ensures { ListedShortly }
{}

/// Bytes that differ have listings that differ.
pub fn listings_of_other_bytes_differ()
    ensures { ListingsDiffer }
{}

/// Where a source without `.byte` and `.word` is assembled, the listing of its bytes is the text of its instructions in order.
pub fn a_source_is_listed_as_its_instructions()
    ensures { ListedAsAssembled }
{}
