//! What the images of least cubes are, as a law of the definitions.
ghost use Rattle.least_image.specs.OneImage.{TellsOneLeastImage, TellsSharedImage};

/// Two least cubes of one bag of records have one image with a size, and what is an image of one is one of the other.
/// It does nothing when run.
pub fn least_image_law()
    ensures one { TellsOneLeastImage }
    ensures shared { TellsSharedImage }
{}
