//! How a length is told.
ghost use Rattle.std.specs.Prelude.{◌≡◌, length, map, All};
ghost use Rattle.builder_core.specs.Telling.{having_put};

use crate::builder::Builder;
use cube_view::Grow;
use mailbox::MailIn;
use std::sync::Wait;

/// Puts the length of the published list into each mailbox.
pub(crate) fn tell_all<V: Grow, R: Wait>(rt: &R, builder: &Builder<V>, mails: &mut [MailIn])
    requires { All (λ m. m.pair ≡ builder.now.published.book) mails.old }
    ensures { mails.new ≡ map (having_put (length builder.now.published.points)) mails.old }
{
    for mail in mails.iter_mut() {
        mail.put(rt, builder.tell());
    }
}
