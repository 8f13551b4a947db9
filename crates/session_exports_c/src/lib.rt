// The functions of `session_exports` as a static library, under the names that C links with. Each restates the clauses of the
// function that it calls; `tools/promises --check` compares the two.

#![tactic(auto)]

ghost use Rattle.std.specs.Prelude.{◌≡◌};
ghost use Rattle.layouts.specs.Tables.{table_t, table_r};
ghost use Rattle.framing.specs.Stretch.{frame_at};
ghost use Rattle.session.specs.Rules.{fresh};
ghost use Rattle.sealing.specs.Trailers.{sealed};
ghost use Rattle.session_exports.specs.Follows.{followed_at, PathMade, TrailerMade};

use exports::Outcome;
use session::Session;
use session_exports::Followed;

#[unsafe(no_mangle)]
pub extern "C" fn sheafsledge_session() -> Session
    ensures { result ≡ fresh }
{
    session_exports::sheafsledge_session()
}

#[unsafe(no_mangle)]
pub extern "C" fn sheafsledge_follow(s: Session, stretch: &[u8], position: usize) -> Followed
    ensures { result ≡ followed_at stretch.now s (frame_at table_t table_r stretch.now position) }
{
    session_exports::sheafsledge_follow(s, stretch, position)
}

#[unsafe(no_mangle)]
pub extern "C" fn sheafsledge_path(out: &mut [u8], s: Session, fid: u32, stretch: &[u8]) -> Outcome
    ensures { PathMade stretch.now s fid out.old out.new result }
{
    session_exports::sheafsledge_path(out, s, fid, stretch)
}

#[unsafe(no_mangle)]
pub extern "C" fn sheafsledge_sealed(file: &[u8]) -> bool
    ensures { result ≡ sealed file.now }
{
    session_exports::sheafsledge_sealed(file)
}

#[unsafe(no_mangle)]
pub extern "C" fn sheafsledge_trailer(out: &mut [u8], stretch: &[u8]) -> Outcome
    ensures { TrailerMade stretch.now out.old out.new result }
{
    session_exports::sheafsledge_trailer(out, stretch)
}
