// Laws, each the contract of a function that does nothing.
ghost use Rattle.c65_driver_law_images.specs.Laws.{PrintedCodesAreSound, PrintedCodesReadBack, MadeCodesAreSound, MadeImagesFollow};

use c65_link_law_runtime::linked_runtimes_are_met;

/// What a text of the tool reads as can be linked for its processor, by all that the laws of images ask of a code.
pub fn printed_codes_are_sound()
    ensures { PrintedCodesAreSound }
{}

/// It is the code that was printed, with its symbols numbered anew.
pub fn printed_codes_read_back()
    ensures { PrintedCodesReadBack }
{}

/// So can each code that the tool made, rewritten or not.
pub fn made_codes_are_sound()
    ensures { MadeCodesAreSound }
{}

/// Whatever the lines of the code that the tool made come to, the image that it made does, within 96 rows more.
pub fn made_images_follow()
    ensures { MadeImagesFollow }
{
    linked_runtimes_are_met();
}
