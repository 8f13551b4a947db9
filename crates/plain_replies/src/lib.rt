// Written by tools/messages from its table of messages.
// The 14 replies in one enum: a body read by its type number, and written by its case.

#![tactic(auto)]

ghost use Rattle.std.specs.Prelude.{◌≡◌};
ghost use Rattle.laying.specs.Laying.{Written};
ghost use Rattle.layouts.specs.Plain.{table_r};
ghost use Rattle.layouts.specs.Bodies.{read_body, finish_at};
ghost use Rattle.plain_replies.specs.Views.{type_r, layout_r, values_r, view_r};

use common::files::{Rread, Rwrite};
use common::sessions::{Rattach, Rauth, Rversion};
use common::walking::Rwalk;
use numbers::{Fault, Place, Refusal};
use plain::attributes::Rstat;
use plain::files::{Rcreate, Ropen};
use plain::sessions::Rerror;

#[derive(Clone, Copy)]
pub enum Rmessage {
    Version(Rversion),
    Auth(Rauth),
    Attach(Rattach),
    Error(Rerror),
    Flush,
    Walk(Rwalk),
    Open(Ropen),
    Create(Rcreate),
    Read(Rread),
    Write(Rwrite),
    Clunk,
    Remove,
    Stat(Rstat),
    Wstat,
}

// A body that was read: the message and the position after its fields; or why it is refused, and where.
pub type Rbody = Result<(Rmessage, usize), Fault>;

fn finish(m: Rmessage, end: Place) -> Rbody
    ensures { view_r result ≡ finish_at (type_r m) (values_r m) end }
{
    Ok((m, end?))
}

// The type decides the body.
pub fn read_rmessage(s: &[u8], ty: u8, p: Place) -> Rbody
    ensures { view_r result ≡ read_body table_r ty s.now p }
{
    match ty {
        101 => {
            let r = common::sessions::read_rversion(s, p);
            finish(Rmessage::Version(r.value), r.next)
        }
        103 => {
            let r = common::sessions::read_rauth(s, p);
            finish(Rmessage::Auth(r.value), r.next)
        }
        105 => {
            let r = common::sessions::read_rattach(s, p);
            finish(Rmessage::Attach(r.value), r.next)
        }
        107 => {
            let r = plain::sessions::read_rerror(s, p);
            finish(Rmessage::Error(r.value), r.next)
        }
        109 => finish(Rmessage::Flush, p),
        111 => {
            let r = common::walking::read_rwalk(s, p);
            finish(Rmessage::Walk(r.value), r.next)
        }
        113 => {
            let r = plain::files::read_ropen(s, p);
            finish(Rmessage::Open(r.value), r.next)
        }
        115 => {
            let r = plain::files::read_rcreate(s, p);
            finish(Rmessage::Create(r.value), r.next)
        }
        117 => {
            let r = common::files::read_rread(s, p);
            finish(Rmessage::Read(r.value), r.next)
        }
        119 => {
            let r = common::files::read_rwrite(s, p);
            finish(Rmessage::Write(r.value), r.next)
        }
        121 => finish(Rmessage::Clunk, p),
        123 => finish(Rmessage::Remove, p),
        125 => {
            let r = plain::attributes::read_rstat(s, p);
            finish(Rmessage::Stat(r.value), r.next)
        }
        127 => finish(Rmessage::Wstat, p),
        _ => Err(Fault(Refusal::UnknownType, 0)),
    }
}

// The number of a message's type.
pub fn type_of(m: Rmessage) -> u8
    ensures { result ≡ type_r m }
{
    match m {
        Rmessage::Version(_) => 101,
        Rmessage::Auth(_) => 103,
        Rmessage::Attach(_) => 105,
        Rmessage::Error(_) => 107,
        Rmessage::Flush => 109,
        Rmessage::Walk(_) => 111,
        Rmessage::Open(_) => 113,
        Rmessage::Create(_) => 115,
        Rmessage::Read(_) => 117,
        Rmessage::Write(_) => 119,
        Rmessage::Clunk => 121,
        Rmessage::Remove => 123,
        Rmessage::Stat(_) => 125,
        Rmessage::Wstat => 127,
    }
}

// A body written at a place: its fields' refusals in order, then 10, then 11; a refusal leaves the output as it was.
pub fn write_rmessage(out: &mut [u8], p: Place, lent: &[u8], m: Rmessage) -> Place
    ensures { Written (layout_r m) lent.now (values_r m) out.old p out.new result }
{
    match m {
        Rmessage::Version(x) => common::sessions::write_rversion(out, p, lent, x),
        Rmessage::Auth(x) => common::sessions::write_rauth(out, p, lent, x),
        Rmessage::Attach(x) => common::sessions::write_rattach(out, p, lent, x),
        Rmessage::Error(x) => plain::sessions::write_rerror(out, p, lent, x),
        Rmessage::Flush => laying::begun(p, p, out.len()),
        Rmessage::Walk(x) => common::walking::write_rwalk(out, p, lent, x),
        Rmessage::Open(x) => plain::files::write_ropen(out, p, lent, x),
        Rmessage::Create(x) => plain::files::write_rcreate(out, p, lent, x),
        Rmessage::Read(x) => common::files::write_rread(out, p, lent, x),
        Rmessage::Write(x) => common::files::write_rwrite(out, p, lent, x),
        Rmessage::Clunk => laying::begun(p, p, out.len()),
        Rmessage::Remove => laying::begun(p, p, out.len()),
        Rmessage::Stat(x) => plain::attributes::write_rstat(out, p, lent, x),
        Rmessage::Wstat => laying::begun(p, p, out.len()),
    }
}
