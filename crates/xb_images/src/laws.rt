//! Laws of the four images: each is the contract of a function that does nothing.
ghost use Rattle.xb_images.specs.Laws.{ImagesAreTapes};

/// On each line the four images of the fed rows are the tape of that line's rows.
pub fn images_are_tapes()
    ensures { ImagesAreTapes }
{}
