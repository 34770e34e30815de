// Replies as they are begun.
ghost use Rattle.std.specs.Prelude.{◌≡◌, []};

use apdu::Reply;

/// No data are answered yet. Each function that answers into a reply begins with this, whatever the reply had before.
pub(crate) fn without_body(reply: &mut Reply)
    ensures { reply.new.body ≡ [] }
{
    reply.body.clear();
}
