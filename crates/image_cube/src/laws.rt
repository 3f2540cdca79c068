//! What the images of least cubes are, as a law of the definitions.
ghost use Rattle.image_cube.specs.LeastImages.{TellsOneFile};

use cube_image::image_laws;

/// The images of the least cubes of the same points are the same bytes, whatever the order of the points and the
/// batches of the schemas. It does nothing when run.
pub fn one_file_law()
    ensures { TellsOneFile }
{
    image_laws();
}
