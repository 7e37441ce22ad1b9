//! Laws of frames, and of the bytes that whole programs take.
#![tactic(auto)]

mod laws;

pub use laws::{
    frames_are_refused_above_their_limit, images_are_within_their_bulk, labels_are_few,
    large_images_are_within_their_bulk, own_objects_have_homes, programs_are_within_their_bulk,
    scoped_programs_fill_their_objects, the_first_large_frame_is_refused,
};
