//! What is known of the points that a feed gives, as laws of the definitions.
ghost use Rattle.feed_reader.specs.Accepting.{AcceptsSound, AcceptsWithin};

/// Each point that a feed gives is one of the schema and has the ranges of a point's type, whatever the feed's bytes
/// are.
/// There are no more points than bytes, and no more than 2^30. It does nothing when run.
pub fn accepted_laws()
    ensures sound { AcceptsSound }
    ensures within { AcceptsWithin }
{}
