// Which reply answers which request, told by their types and tags alone.

#![tactic(auto)]

mod known;
pub mod plain;
mod plain_known;

ghost use Rattle.std.specs.Prelude.{◌≡◌};
ghost use Rattle.layouts.specs.Tables.{table_t};
ghost use Rattle.pairs.specs.Pairs.{rlerror, paired, pairs};

use layouts::ids::Tag;

// What a pair is told by.
#[derive(Clone, Copy)]
pub struct Mark {
    pub ty: u8,
    pub tag: Tag,
}

// The type of an Rlerror, which answers any request.
const RLERROR: u8 = 7;

// Whether a reply answers a request, of a type that is known or not, where `error` answers any request.
pub(crate) fn paired(known: bool, error: u8, request: Mark, reply: Mark) -> bool
    ensures { result ≡ paired known error request.ty request.tag.0 reply.ty reply.tag.0 }
{
    request.tag.0 == reply.tag.0
        && known
        && (reply.ty == error || u16::from(reply.ty) == u16::from(request.ty) + 1)
}

// Whether a reply of 9P2000.L answers a request.
pub fn answers(request: Mark, reply: Mark) -> bool
    ensures { result ≡ pairs table_t rlerror request.ty request.tag.0 reply.ty reply.tag.0 }
{
    paired(known::known_request(request.ty), RLERROR, request, reply)
}
