//! What is known of images, as laws of the definitions.
ghost use Rattle.image_parse.specs.Laws.{TellsOneMeaning, TellsOrderly};

use cube_image::image_laws;

/// Bytes are the image of one list of slots with one size at most. The slots of an image can be read one by one, their
/// tables have no row without a record, and the image is theirs in the words of its writer. It does nothing when run.
pub fn image_parse_laws()
    ensures one { TellsOneMeaning }
    ensures orderly { TellsOrderly }
{
    image_laws();
}
