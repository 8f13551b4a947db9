// What a listed frame is to a session (F15.5, F15.6).

#![tactic(auto)]

ghost use Rattle.std.specs.Prelude.{◌≡◌};
ghost use Rattle.common.specs.Records.{tflush, twalk};
ghost use Rattle.messages.specs.Records.{tattach, tlcreate};
ghost use Rattle.metadata.specs.Records.{txattrwalk};
ghost use Rattle.requests.specs.Views.{type_t, values_t};
ghost use Rattle.replies.specs.Views.{values_r};
ghost use Rattle.stretch.specs.Views.{view_body};
ghost use Rattle.session.specs.Rules.{none};
ghost use Rattle.events.specs.Events.{asks, unless_same, unless_none, asked_by, qids_in, what_in, event_of};

use common::sessions::Tflush;
use common::walking::Twalk;
use layouts::ids::Fid;
use messages::files::Tlcreate;
use messages::sessions::Tattach;
use metadata::attributes::Txattrwalk;
use replies::{Rbody, Rmessage};
use requests::{Tbody, Tmessage};
use session::{Event, NONE, Request, What};
use stretch::{Body, Listed};

// The fid of a Tattach without authentication.
const NOFID: u32 = 4294967295;

// A request that asks for a fid to be new and for one to be known, and whose reply gives, moves or drops one.
fn request(ty: u8, new: u64, known: u64, to: u64) -> Request
    ensures { result ≡ asks ty new known to }
{
    Request {
        ty,
        new,
        known,
        to,
        old: 0,
        count: 0,
        start: 0,
        len: 0,
    }
}

// A newfid must be new, unless it is the fid.
fn unless_same(new: Fid, fid: Fid) -> u64
    ensures { result ≡ unless_same new.0 fid.0 }
{
    if new.0 == fid.0 { NONE } else { new.0 as u64 }
}

fn unless_none(afid: Fid) -> u64
    ensures { result ≡ unless_none afid.0 }
{
    if afid.0 == NOFID { NONE } else { afid.0 as u64 }
}

// A request whose first fid must be known, and that does nothing to it.
fn on(ty: u8, fid: Fid) -> Request
    ensures { result ≡ asks ty none fid.0 none }
{
    request(ty, NONE, fid.0 as u64, NONE)
}

// Tclunk, Tremove: its reply drops it.
fn drops(ty: u8, fid: Fid) -> Request
    ensures { result ≡ asks ty none fid.0 fid.0 }
{
    request(ty, NONE, fid.0 as u64, fid.0 as u64)
}

fn auth(afid: Fid) -> Request
    ensures { result ≡ asks 102 afid.0 none afid.0 }
{
    request(102, afid.0 as u64, NONE, afid.0 as u64)
}

fn attach(m: Tattach) -> Request
    ensures { result ≡ asked_by 104 (tattach m) }
{
    request(104, m.fid.0 as u64, unless_none(m.afid), m.fid.0 as u64)
}

fn flush(m: Tflush) -> Request
    ensures { result ≡ asked_by 108 (tflush m) }
{
    Request {
        old: m.oldtag.0,
        ..request(108, NONE, NONE, NONE)
    }
}

fn walk(m: Twalk) -> Request
    ensures { result ≡ asked_by 110 (twalk m) }
{
    let new = unless_same(m.newfid, m.fid);
    Request {
        count: m.wnames.count,
        start: m.wnames.elements.start,
        len: m.wnames.elements.len,
        ..request(110, new, m.fid.0 as u64, m.newfid.0 as u64)
    }
}

fn xattr_walk(m: Txattrwalk) -> Request
    ensures { result ≡ asked_by 30 (txattrwalk m) }
{
    let new = unless_same(m.newfid, m.fid);
    request(30, new, m.fid.0 as u64, m.newfid.0 as u64)
}

fn create(m: Tlcreate) -> Request
    ensures { result ≡ asked_by 14 (tlcreate m) }
{
    Request {
        start: m.name.start,
        len: m.name.len,
        ..request(14, NONE, m.fid.0 as u64, m.fid.0 as u64)
    }
}

// What a request asks, message by message.
fn asked_by(m: Tmessage) -> Request
    ensures { result ≡ asked_by (type_t m) (values_t m) }
{
    match m {
        Tmessage::Version(_) => request(100, NONE, NONE, NONE),
        Tmessage::Flush(m) => flush(m),
        Tmessage::Walk(m) => walk(m),
        Tmessage::Read(m) => on(116, m.fid),
        Tmessage::Write(m) => on(118, m.fid),
        Tmessage::Clunk(m) => drops(120, m.fid),
        Tmessage::Remove(m) => drops(122, m.fid),
        Tmessage::Attach(m) => attach(m),
        Tmessage::Auth(m) => auth(m.afid),
        Tmessage::Statfs(m) => on(8, m.fid),
        Tmessage::Lopen(m) => on(12, m.fid),
        Tmessage::Lcreate(m) => create(m),
        Tmessage::Symlink(m) => on(16, m.fid),
        Tmessage::Mknod(m) => on(18, m.dfid),
        Tmessage::Rename(m) => on(20, m.fid),
        Tmessage::Readlink(m) => on(22, m.fid),
        Tmessage::GetAttr(m) => on(24, m.fid),
        Tmessage::SetAttr(m) => on(26, m.fid),
        Tmessage::XattrWalk(m) => xattr_walk(m),
        Tmessage::XattrCreate(m) => on(32, m.fid),
        Tmessage::Readdir(m) => on(40, m.fid),
        Tmessage::Fsync(m) => on(50, m.fid),
        Tmessage::Lock(m) => on(52, m.fid),
        Tmessage::GetLock(m) => on(54, m.fid),
        Tmessage::Link(m) => on(70, m.dfid),
        Tmessage::Mkdir(m) => on(72, m.dfid),
        Tmessage::RenameAt(m) => on(74, m.olddirfid),
        Tmessage::UnlinkAt(m) => on(76, m.dirfd),
    }
}

// How many qids a reply has: only an Rwalk has some.
fn qids_in(m: Rmessage) -> u16
    ensures { result ≡ qids_in (values_r m) }
{
    match m {
        Rmessage::Walk(m) => m.wqids.count,
        _ => 0,
    }
}

fn what_in(body: Body) -> What
    ensures { result ≡ what_in (view_body body) }
{
    match body {
        Body::Request(b) => match b {
            Ok((m, _)) => What::Asks(asked_by(m)),
            Err(f) => What::Refused(f.0),
        },
        Body::Reply(b) => match b {
            Ok((m, _)) => What::Answers(qids_in(m)),
            Err(f) => What::Refused(f.0),
        },
    }
}

// A listed frame as an event.
pub fn event_of(l: Listed) -> Event
    ensures { result ≡ event_of l.ty l.tag.0 (view_body l.body) }
{
    Event {
        ty: l.ty,
        tag: l.tag.0,
        what: what_in(l.body),
    }
}
