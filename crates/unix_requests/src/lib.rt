// Written by tools/messages from its table of messages.
// The 13 requests in one enum: a body read by its type number, and written by its case.

#![tactic(auto)]

ghost use Rattle.std.specs.Prelude.{◌≡◌};
ghost use Rattle.laying.specs.Laying.{Written};
ghost use Rattle.stats.specs.Unix.{table_t};
ghost use Rattle.layouts.specs.Bodies.{read_body, finish_at};
ghost use Rattle.unix_requests.specs.Views.{type_t, layout_t, values_t, view_t};

use common::files::{Tread, Tremove, Twrite};
use common::sessions::{Tclunk, Tflush, Tversion};
use common::walking::Twalk;
use messages::sessions::{Tattach, Tauth};
use numbers::{Fault, Place, Refusal};
use plain::attributes::Tstat;
use plain::files::Topen;
use unix::attributes::Twstat;
use unix::files::Tcreate;

#[derive(Clone, Copy)]
pub enum Tmessage {
    Version(Tversion),
    Auth(Tauth),
    Attach(Tattach),
    Flush(Tflush),
    Walk(Twalk),
    Open(Topen),
    Create(Tcreate),
    Read(Tread),
    Write(Twrite),
    Clunk(Tclunk),
    Remove(Tremove),
    Stat(Tstat),
    Wstat(Twstat),
}

// A body that was read: the message and the position after its fields; or why it is refused, and where.
pub type Tbody = Result<(Tmessage, usize), Fault>;

fn finish(m: Tmessage, end: Place) -> Tbody
    ensures { view_t result ≡ finish_at (type_t m) (values_t m) end }
{
    Ok((m, end?))
}

// The type decides the body.
pub fn read_tmessage(s: &[u8], ty: u8, p: Place) -> Tbody
    ensures { view_t result ≡ read_body table_t ty s.now p }
{
    match ty {
        100 => {
            let r = common::sessions::read_tversion(s, p);
            finish(Tmessage::Version(r.value), r.next)
        }
        102 => {
            let r = messages::sessions::read_tauth(s, p);
            finish(Tmessage::Auth(r.value), r.next)
        }
        104 => {
            let r = messages::sessions::read_tattach(s, p);
            finish(Tmessage::Attach(r.value), r.next)
        }
        108 => {
            let r = common::sessions::read_tflush(s, p);
            finish(Tmessage::Flush(r.value), r.next)
        }
        110 => {
            let r = common::walking::read_twalk(s, p);
            finish(Tmessage::Walk(r.value), r.next)
        }
        112 => {
            let r = plain::files::read_topen(s, p);
            finish(Tmessage::Open(r.value), r.next)
        }
        114 => {
            let r = unix::files::read_tcreate(s, p);
            finish(Tmessage::Create(r.value), r.next)
        }
        116 => {
            let r = common::files::read_tread(s, p);
            finish(Tmessage::Read(r.value), r.next)
        }
        118 => {
            let r = common::files::read_twrite(s, p);
            finish(Tmessage::Write(r.value), r.next)
        }
        120 => {
            let r = common::sessions::read_tclunk(s, p);
            finish(Tmessage::Clunk(r.value), r.next)
        }
        122 => {
            let r = common::files::read_tremove(s, p);
            finish(Tmessage::Remove(r.value), r.next)
        }
        124 => {
            let r = plain::attributes::read_tstat(s, p);
            finish(Tmessage::Stat(r.value), r.next)
        }
        126 => {
            let r = unix::attributes::read_twstat(s, p);
            finish(Tmessage::Wstat(r.value), r.next)
        }
        _ => Err(Fault(Refusal::UnknownType, 0)),
    }
}

// The number of a message's type.
pub fn type_of(m: Tmessage) -> u8
    ensures { result ≡ type_t m }
{
    match m {
        Tmessage::Version(_) => 100,
        Tmessage::Auth(_) => 102,
        Tmessage::Attach(_) => 104,
        Tmessage::Flush(_) => 108,
        Tmessage::Walk(_) => 110,
        Tmessage::Open(_) => 112,
        Tmessage::Create(_) => 114,
        Tmessage::Read(_) => 116,
        Tmessage::Write(_) => 118,
        Tmessage::Clunk(_) => 120,
        Tmessage::Remove(_) => 122,
        Tmessage::Stat(_) => 124,
        Tmessage::Wstat(_) => 126,
    }
}

// A body written at a place: its fields' refusals in order, then 10, then 11; a refusal leaves the output as it was.
pub fn write_tmessage(out: &mut [u8], p: Place, lent: &[u8], m: Tmessage) -> Place
    ensures { Written (layout_t m) lent.now (values_t m) out.old p out.new result }
{
    match m {
        Tmessage::Version(x) => common::sessions::write_tversion(out, p, lent, x),
        Tmessage::Auth(x) => messages::sessions::write_tauth(out, p, lent, x),
        Tmessage::Attach(x) => messages::sessions::write_tattach(out, p, lent, x),
        Tmessage::Flush(x) => common::sessions::write_tflush(out, p, lent, x),
        Tmessage::Walk(x) => common::walking::write_twalk(out, p, lent, x),
        Tmessage::Open(x) => plain::files::write_topen(out, p, lent, x),
        Tmessage::Create(x) => unix::files::write_tcreate(out, p, lent, x),
        Tmessage::Read(x) => common::files::write_tread(out, p, lent, x),
        Tmessage::Write(x) => common::files::write_twrite(out, p, lent, x),
        Tmessage::Clunk(x) => common::sessions::write_tclunk(out, p, lent, x),
        Tmessage::Remove(x) => common::files::write_tremove(out, p, lent, x),
        Tmessage::Stat(x) => plain::attributes::write_tstat(out, p, lent, x),
        Tmessage::Wstat(x) => unix::attributes::write_twstat(out, p, lent, x),
    }
}
