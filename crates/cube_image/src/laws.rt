//! What is known of the image of a cube, as laws of the definitions.
ghost use Rattle.cube_image.specs.Cubes.{TellsWritable, TellsOneImage, TellsNumbers, TellsWhole, TellsOwnImage};

/// The slots of a cube meet the conditions of [`write_image`](crate::write_image). Slots with homes have one image with
/// a size, and in it the targets of proper links are numbered as they appear; that of a cube has all of its slots.
/// Slots that are numbered so are the slots of their image, as they stand. It does nothing when run.
pub fn image_laws()
    ensures writable { TellsWritable }
    ensures one { TellsOneImage }
    ensures numbers { TellsNumbers }
    ensures whole { TellsWhole }
    ensures own { TellsOwnImage }
{}
