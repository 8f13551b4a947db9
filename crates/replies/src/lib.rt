// Written by tools/messages from its table of messages.
// The 29 replies in one enum: a body read by its type number, and written by its case.

#![tactic(auto)]

ghost use Rattle.std.specs.Prelude.{◌≡◌};
ghost use Rattle.laying.specs.Laying.{Written};
ghost use Rattle.layouts.specs.Tables.{table_r};
ghost use Rattle.layouts.specs.Bodies.{read_body, finish_at};
ghost use Rattle.replies.specs.Views.{type_r, layout_r, values_r, view_r};

use common::files::{Rread, Rwrite};
use common::sessions::{Rattach, Rauth, Rversion};
use common::walking::Rwalk;
use messages::directories::{Rmkdir, Rmknod, Rreaddir, Rreadlink, Rsymlink};
use messages::files::{Rlcreate, Rlopen};
use messages::sessions::Rlerror;
use metadata::attributes::{Rgetattr, Rstatfs, Rxattrwalk};
use metadata::locks::{Rgetlock, Rlock};
use numbers::{Fault, Place, Refusal};

#[derive(Clone, Copy)]
pub enum Rmessage {
    Version(Rversion),
    Flush,
    Walk(Rwalk),
    Read(Rread),
    Write(Rwrite),
    Clunk,
    Remove,
    Attach(Rattach),
    Auth(Rauth),
    Statfs(Rstatfs),
    Lopen(Rlopen),
    Lcreate(Rlcreate),
    Symlink(Rsymlink),
    Mknod(Rmknod),
    Rename,
    Readlink(Rreadlink),
    GetAttr(Rgetattr),
    SetAttr,
    XattrWalk(Rxattrwalk),
    XattrCreate,
    Readdir(Rreaddir),
    Fsync,
    Lock(Rlock),
    GetLock(Rgetlock),
    Link,
    Mkdir(Rmkdir),
    RenameAt,
    UnlinkAt,
    Lerror(Rlerror),
}

// A body that was read: the message and the position after its fields; or why it is refused, and where.
pub type Rbody = Result<(Rmessage, usize), Fault>;

fn finish(m: Rmessage, end: Place) -> Rbody
    ensures { view_r result ≡ finish_at (type_r m) (values_r m) end }
{
    Ok((m, end?))
}

// The type decides the body.
pub fn read_rmessage(s: &[u8], ty: u8, p: Place) -> Rbody
    ensures { view_r result ≡ read_body table_r ty s.now p }
{
    match ty {
        7 => {
            let r = messages::sessions::read_rlerror(s, p);
            finish(Rmessage::Lerror(r.value), r.next)
        }
        9 => {
            let r = metadata::attributes::read_rstatfs(s, p);
            finish(Rmessage::Statfs(r.value), r.next)
        }
        13 => {
            let r = messages::files::read_rlopen(s, p);
            finish(Rmessage::Lopen(r.value), r.next)
        }
        15 => {
            let r = messages::files::read_rlcreate(s, p);
            finish(Rmessage::Lcreate(r.value), r.next)
        }
        17 => {
            let r = messages::directories::read_rsymlink(s, p);
            finish(Rmessage::Symlink(r.value), r.next)
        }
        19 => {
            let r = messages::directories::read_rmknod(s, p);
            finish(Rmessage::Mknod(r.value), r.next)
        }
        21 => finish(Rmessage::Rename, p),
        23 => {
            let r = messages::directories::read_rreadlink(s, p);
            finish(Rmessage::Readlink(r.value), r.next)
        }
        25 => {
            let r = metadata::attributes::read_rgetattr(s, p);
            finish(Rmessage::GetAttr(r.value), r.next)
        }
        27 => finish(Rmessage::SetAttr, p),
        31 => {
            let r = metadata::attributes::read_rxattrwalk(s, p);
            finish(Rmessage::XattrWalk(r.value), r.next)
        }
        33 => finish(Rmessage::XattrCreate, p),
        41 => {
            let r = messages::directories::read_rreaddir(s, p);
            finish(Rmessage::Readdir(r.value), r.next)
        }
        51 => finish(Rmessage::Fsync, p),
        53 => {
            let r = metadata::locks::read_rlock(s, p);
            finish(Rmessage::Lock(r.value), r.next)
        }
        55 => {
            let r = metadata::locks::read_rgetlock(s, p);
            finish(Rmessage::GetLock(r.value), r.next)
        }
        71 => finish(Rmessage::Link, p),
        73 => {
            let r = messages::directories::read_rmkdir(s, p);
            finish(Rmessage::Mkdir(r.value), r.next)
        }
        75 => finish(Rmessage::RenameAt, p),
        77 => finish(Rmessage::UnlinkAt, p),
        101 => {
            let r = common::sessions::read_rversion(s, p);
            finish(Rmessage::Version(r.value), r.next)
        }
        103 => {
            let r = common::sessions::read_rauth(s, p);
            finish(Rmessage::Auth(r.value), r.next)
        }
        105 => {
            let r = common::sessions::read_rattach(s, p);
            finish(Rmessage::Attach(r.value), r.next)
        }
        109 => finish(Rmessage::Flush, p),
        111 => {
            let r = common::walking::read_rwalk(s, p);
            finish(Rmessage::Walk(r.value), r.next)
        }
        117 => {
            let r = common::files::read_rread(s, p);
            finish(Rmessage::Read(r.value), r.next)
        }
        119 => {
            let r = common::files::read_rwrite(s, p);
            finish(Rmessage::Write(r.value), r.next)
        }
        121 => finish(Rmessage::Clunk, p),
        123 => finish(Rmessage::Remove, p),
        _ => Err(Fault(Refusal::UnknownType, 0)),
    }
}

// The number of a message's type.
pub fn type_of(m: Rmessage) -> u8
    ensures { result ≡ type_r m }
{
    match m {
        Rmessage::Version(_) => 101,
        Rmessage::Flush => 109,
        Rmessage::Walk(_) => 111,
        Rmessage::Read(_) => 117,
        Rmessage::Write(_) => 119,
        Rmessage::Clunk => 121,
        Rmessage::Remove => 123,
        Rmessage::Attach(_) => 105,
        Rmessage::Auth(_) => 103,
        Rmessage::Statfs(_) => 9,
        Rmessage::Lopen(_) => 13,
        Rmessage::Lcreate(_) => 15,
        Rmessage::Symlink(_) => 17,
        Rmessage::Mknod(_) => 19,
        Rmessage::Rename => 21,
        Rmessage::Readlink(_) => 23,
        Rmessage::GetAttr(_) => 25,
        Rmessage::SetAttr => 27,
        Rmessage::XattrWalk(_) => 31,
        Rmessage::XattrCreate => 33,
        Rmessage::Readdir(_) => 41,
        Rmessage::Fsync => 51,
        Rmessage::Lock(_) => 53,
        Rmessage::GetLock(_) => 55,
        Rmessage::Link => 71,
        Rmessage::Mkdir(_) => 73,
        Rmessage::RenameAt => 75,
        Rmessage::UnlinkAt => 77,
        Rmessage::Lerror(_) => 7,
    }
}

// A body written at a place: its fields' refusals in order, then 10, then 11; a refusal leaves the output as it was.
pub fn write_rmessage(out: &mut [u8], p: Place, lent: &[u8], m: Rmessage) -> Place
    ensures { Written (layout_r m) lent.now (values_r m) out.old p out.new result }
{
    match m {
        Rmessage::Version(x) => common::sessions::write_rversion(out, p, lent, x),
        Rmessage::Flush => laying::begun(p, p, out.len()),
        Rmessage::Walk(x) => common::walking::write_rwalk(out, p, lent, x),
        Rmessage::Read(x) => common::files::write_rread(out, p, lent, x),
        Rmessage::Write(x) => common::files::write_rwrite(out, p, lent, x),
        Rmessage::Clunk => laying::begun(p, p, out.len()),
        Rmessage::Remove => laying::begun(p, p, out.len()),
        Rmessage::Attach(x) => common::sessions::write_rattach(out, p, lent, x),
        Rmessage::Auth(x) => common::sessions::write_rauth(out, p, lent, x),
        Rmessage::Statfs(x) => metadata::attributes::write_rstatfs(out, p, lent, x),
        Rmessage::Lopen(x) => messages::files::write_rlopen(out, p, lent, x),
        Rmessage::Lcreate(x) => messages::files::write_rlcreate(out, p, lent, x),
        Rmessage::Symlink(x) => messages::directories::write_rsymlink(out, p, lent, x),
        Rmessage::Mknod(x) => messages::directories::write_rmknod(out, p, lent, x),
        Rmessage::Rename => laying::begun(p, p, out.len()),
        Rmessage::Readlink(x) => messages::directories::write_rreadlink(out, p, lent, x),
        Rmessage::GetAttr(x) => metadata::attributes::write_rgetattr(out, p, lent, x),
        Rmessage::SetAttr => laying::begun(p, p, out.len()),
        Rmessage::XattrWalk(x) => metadata::attributes::write_rxattrwalk(out, p, lent, x),
        Rmessage::XattrCreate => laying::begun(p, p, out.len()),
        Rmessage::Readdir(x) => messages::directories::write_rreaddir(out, p, lent, x),
        Rmessage::Fsync => laying::begun(p, p, out.len()),
        Rmessage::Lock(x) => metadata::locks::write_rlock(out, p, lent, x),
        Rmessage::GetLock(x) => metadata::locks::write_rgetlock(out, p, lent, x),
        Rmessage::Link => laying::begun(p, p, out.len()),
        Rmessage::Mkdir(x) => messages::directories::write_rmkdir(out, p, lent, x),
        Rmessage::RenameAt => laying::begun(p, p, out.len()),
        Rmessage::UnlinkAt => laying::begun(p, p, out.len()),
        Rmessage::Lerror(x) => messages::sessions::write_rlerror(out, p, lent, x),
    }
}
