// Laws, each the contract of a function that does nothing.
ghost use Rattle.c65_link_law_images.specs.Laws.{ImagesFollow};

/// Where each routine does what its row says: if the lines of a code come to what passes a test within a weight, from every state in
/// which main may be called with these arguments and this input, its image comes to it within as many rows and 96 more, with the
/// guard's leave.
pub fn images_follow()
    ensures { ImagesFollow }
{}
