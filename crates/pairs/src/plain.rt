// The same for 9P2000, whose requests and whose error are others; all else is `paired`.

ghost use Rattle.std.specs.Prelude.{◌≡◌};
ghost use Rattle.layouts.specs.Plain.{table_t};
ghost use Rattle.pairs.specs.Pairs.{rerror, pairs};

use crate::Mark;

// The type of an Rerror, which takes the part of Rlerror.
const RERROR: u8 = 107;

// Whether a reply of 9P2000 answers a request.
pub fn answers(request: Mark, reply: Mark) -> bool
    ensures { result ≡ pairs table_t rerror request.ty request.tag.0 reply.ty reply.tag.0 }
{
    crate::paired(
        crate::plain_known::known_request(request.ty),
        RERROR,
        request,
        reply,
    )
}
