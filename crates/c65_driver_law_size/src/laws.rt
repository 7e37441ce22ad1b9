// Laws, each the contract of a function that does nothing.
ghost use Rattle.c65_driver_law_size.specs.Laws.{RefusedImagesAreWithinTheirBulk, MadeImagesAreWithinTheirBulk};

use c65_driver_law_images::printed_codes_read_back;
use c65_gen_law_size::{programs_are_within_their_bulk, scoped_programs_fill_their_objects};
use c65_link_law::images_are_bounded;

/// The size for which `go`, `build` and `text` refuse an image of told files is within the bulk of their program.
pub fn refused_images_are_within_their_bulk()
    ensures { RefusedImagesAreWithinTheirBulk }
{
    printed_codes_read_back();
    programs_are_within_their_bulk();
    scoped_programs_fill_their_objects();
    images_are_bounded();
}

/// So are the bytes of each image's file that they make of told files.
pub fn made_images_are_within_their_bulk()
    ensures { MadeImagesAreWithinTheirBulk }
{
    printed_codes_read_back();
    programs_are_within_their_bulk();
    scoped_programs_fill_their_objects();
    images_are_bounded();
}
