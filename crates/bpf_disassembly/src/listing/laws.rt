//! What follows from the definitions of listings.
//!
//! These functions do nothing: their contracts are the laws, which a proof cites.
ghost use Rattle.bpf_disassembly.specs.Listing.Laws.{SourceListingsAreDetermined, ListingsAssembleAlike, ProgramLinesAreAListing, ProgramLinesAssembleToTheirWords};

/// Lines have one listing alone.
pub fn listings_are_determined()
    ensures { SourceListingsAreDetermined }
{}

/// The listing of a text stands for what the text stands for, instructions or a refusal, whatever
/// words it shows.
pub fn listings_assemble_alike()
    ensures { ListingsAssembleAlike }
{
    bpf_text::laws::comments_say_nothing();
}

/// The lines of a program with their pcs and words are the listing of its canonical text.
pub fn program_lines_are_a_listing()
    ensures { ProgramLinesAreAListing }
{}

/// The lines of a program with their pcs and words stand for the instructions whose words they
/// show.
pub fn program_lines_assemble_to_their_words()
    ensures { ProgramLinesAssembleToTheirWords }
{
    crate::laws::words_are_shown_again();
    listings_assemble_alike();
    program_lines_are_a_listing();
}
