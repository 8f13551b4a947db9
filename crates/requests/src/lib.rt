// Written by tools/messages from its table of messages.
// The 28 requests in one enum: a body read by its type number, and written by its case.

#![tactic(auto)]

ghost use Rattle.std.specs.Prelude.{◌≡◌};
ghost use Rattle.laying.specs.Laying.{Written};
ghost use Rattle.layouts.specs.Tables.{table_t};
ghost use Rattle.layouts.specs.Bodies.{read_body, finish_at};
ghost use Rattle.requests.specs.Views.{type_t, layout_t, values_t, view_t};

use common::files::{Tread, Tremove, Twrite};
use common::sessions::{Tclunk, Tflush, Tversion};
use common::walking::Twalk;
use messages::directories::{
    Tlink, Tmkdir, Tmknod, Treaddir, Treadlink, Trename, Trenameat, Tsymlink, Tunlinkat,
};
use messages::files::{Tfsync, Tlcreate, Tlopen};
use messages::sessions::{Tattach, Tauth};
use metadata::attributes::{Tgetattr, Tsetattr, Tstatfs, Txattrcreate, Txattrwalk};
use metadata::locks::{Tgetlock, Tlock};
use numbers::{Fault, Place, Refusal};

#[derive(Clone, Copy)]
pub enum Tmessage {
    Version(Tversion),
    Flush(Tflush),
    Walk(Twalk),
    Read(Tread),
    Write(Twrite),
    Clunk(Tclunk),
    Remove(Tremove),
    Attach(Tattach),
    Auth(Tauth),
    Statfs(Tstatfs),
    Lopen(Tlopen),
    Lcreate(Tlcreate),
    Symlink(Tsymlink),
    Mknod(Tmknod),
    Rename(Trename),
    Readlink(Treadlink),
    GetAttr(Tgetattr),
    SetAttr(Tsetattr),
    XattrWalk(Txattrwalk),
    XattrCreate(Txattrcreate),
    Readdir(Treaddir),
    Fsync(Tfsync),
    Lock(Tlock),
    GetLock(Tgetlock),
    Link(Tlink),
    Mkdir(Tmkdir),
    RenameAt(Trenameat),
    UnlinkAt(Tunlinkat),
}

// A body that was read: the message and the position after its fields; or why it is refused, and where.
pub type Tbody = Result<(Tmessage, usize), Fault>;

fn finish(m: Tmessage, end: Place) -> Tbody
    ensures { view_t result ≡ finish_at (type_t m) (values_t m) end }
{
    Ok((m, end?))
}

// The type decides the body.
pub fn read_tmessage(s: &[u8], ty: u8, p: Place) -> Tbody
    ensures { view_t result ≡ read_body table_t ty s.now p }
{
    match ty {
        8 => {
            let r = metadata::attributes::read_tstatfs(s, p);
            finish(Tmessage::Statfs(r.value), r.next)
        }
        12 => {
            let r = messages::files::read_tlopen(s, p);
            finish(Tmessage::Lopen(r.value), r.next)
        }
        14 => {
            let r = messages::files::read_tlcreate(s, p);
            finish(Tmessage::Lcreate(r.value), r.next)
        }
        16 => {
            let r = messages::directories::read_tsymlink(s, p);
            finish(Tmessage::Symlink(r.value), r.next)
        }
        18 => {
            let r = messages::directories::read_tmknod(s, p);
            finish(Tmessage::Mknod(r.value), r.next)
        }
        20 => {
            let r = messages::directories::read_trename(s, p);
            finish(Tmessage::Rename(r.value), r.next)
        }
        22 => {
            let r = messages::directories::read_treadlink(s, p);
            finish(Tmessage::Readlink(r.value), r.next)
        }
        24 => {
            let r = metadata::attributes::read_tgetattr(s, p);
            finish(Tmessage::GetAttr(r.value), r.next)
        }
        26 => {
            let r = metadata::attributes::read_tsetattr(s, p);
            finish(Tmessage::SetAttr(r.value), r.next)
        }
        30 => {
            let r = metadata::attributes::read_txattrwalk(s, p);
            finish(Tmessage::XattrWalk(r.value), r.next)
        }
        32 => {
            let r = metadata::attributes::read_txattrcreate(s, p);
            finish(Tmessage::XattrCreate(r.value), r.next)
        }
        40 => {
            let r = messages::directories::read_treaddir(s, p);
            finish(Tmessage::Readdir(r.value), r.next)
        }
        50 => {
            let r = messages::files::read_tfsync(s, p);
            finish(Tmessage::Fsync(r.value), r.next)
        }
        52 => {
            let r = metadata::locks::read_tlock(s, p);
            finish(Tmessage::Lock(r.value), r.next)
        }
        54 => {
            let r = metadata::locks::read_tgetlock(s, p);
            finish(Tmessage::GetLock(r.value), r.next)
        }
        70 => {
            let r = messages::directories::read_tlink(s, p);
            finish(Tmessage::Link(r.value), r.next)
        }
        72 => {
            let r = messages::directories::read_tmkdir(s, p);
            finish(Tmessage::Mkdir(r.value), r.next)
        }
        74 => {
            let r = messages::directories::read_trenameat(s, p);
            finish(Tmessage::RenameAt(r.value), r.next)
        }
        76 => {
            let r = messages::directories::read_tunlinkat(s, p);
            finish(Tmessage::UnlinkAt(r.value), r.next)
        }
        100 => {
            let r = common::sessions::read_tversion(s, p);
            finish(Tmessage::Version(r.value), r.next)
        }
        102 => {
            let r = messages::sessions::read_tauth(s, p);
            finish(Tmessage::Auth(r.value), r.next)
        }
        104 => {
            let r = messages::sessions::read_tattach(s, p);
            finish(Tmessage::Attach(r.value), r.next)
        }
        108 => {
            let r = common::sessions::read_tflush(s, p);
            finish(Tmessage::Flush(r.value), r.next)
        }
        110 => {
            let r = common::walking::read_twalk(s, p);
            finish(Tmessage::Walk(r.value), r.next)
        }
        116 => {
            let r = common::files::read_tread(s, p);
            finish(Tmessage::Read(r.value), r.next)
        }
        118 => {
            let r = common::files::read_twrite(s, p);
            finish(Tmessage::Write(r.value), r.next)
        }
        120 => {
            let r = common::sessions::read_tclunk(s, p);
            finish(Tmessage::Clunk(r.value), r.next)
        }
        122 => {
            let r = common::files::read_tremove(s, p);
            finish(Tmessage::Remove(r.value), r.next)
        }
        _ => Err(Fault(Refusal::UnknownType, 0)),
    }
}

// The number of a message's type.
pub fn type_of(m: Tmessage) -> u8
    ensures { result ≡ type_t m }
{
    match m {
        Tmessage::Version(_) => 100,
        Tmessage::Flush(_) => 108,
        Tmessage::Walk(_) => 110,
        Tmessage::Read(_) => 116,
        Tmessage::Write(_) => 118,
        Tmessage::Clunk(_) => 120,
        Tmessage::Remove(_) => 122,
        Tmessage::Attach(_) => 104,
        Tmessage::Auth(_) => 102,
        Tmessage::Statfs(_) => 8,
        Tmessage::Lopen(_) => 12,
        Tmessage::Lcreate(_) => 14,
        Tmessage::Symlink(_) => 16,
        Tmessage::Mknod(_) => 18,
        Tmessage::Rename(_) => 20,
        Tmessage::Readlink(_) => 22,
        Tmessage::GetAttr(_) => 24,
        Tmessage::SetAttr(_) => 26,
        Tmessage::XattrWalk(_) => 30,
        Tmessage::XattrCreate(_) => 32,
        Tmessage::Readdir(_) => 40,
        Tmessage::Fsync(_) => 50,
        Tmessage::Lock(_) => 52,
        Tmessage::GetLock(_) => 54,
        Tmessage::Link(_) => 70,
        Tmessage::Mkdir(_) => 72,
        Tmessage::RenameAt(_) => 74,
        Tmessage::UnlinkAt(_) => 76,
    }
}

// A body written at a place: its fields' refusals in order, then 10, then 11; a refusal leaves the output as it was.
pub fn write_tmessage(out: &mut [u8], p: Place, lent: &[u8], m: Tmessage) -> Place
    ensures { Written (layout_t m) lent.now (values_t m) out.old p out.new result }
{
    match m {
        Tmessage::Version(x) => common::sessions::write_tversion(out, p, lent, x),
        Tmessage::Flush(x) => common::sessions::write_tflush(out, p, lent, x),
        Tmessage::Walk(x) => common::walking::write_twalk(out, p, lent, x),
        Tmessage::Read(x) => common::files::write_tread(out, p, lent, x),
        Tmessage::Write(x) => common::files::write_twrite(out, p, lent, x),
        Tmessage::Clunk(x) => common::sessions::write_tclunk(out, p, lent, x),
        Tmessage::Remove(x) => common::files::write_tremove(out, p, lent, x),
        Tmessage::Attach(x) => messages::sessions::write_tattach(out, p, lent, x),
        Tmessage::Auth(x) => messages::sessions::write_tauth(out, p, lent, x),
        Tmessage::Statfs(x) => metadata::attributes::write_tstatfs(out, p, lent, x),
        Tmessage::Lopen(x) => messages::files::write_tlopen(out, p, lent, x),
        Tmessage::Lcreate(x) => messages::files::write_tlcreate(out, p, lent, x),
        Tmessage::Symlink(x) => messages::directories::write_tsymlink(out, p, lent, x),
        Tmessage::Mknod(x) => messages::directories::write_tmknod(out, p, lent, x),
        Tmessage::Rename(x) => messages::directories::write_trename(out, p, lent, x),
        Tmessage::Readlink(x) => messages::directories::write_treadlink(out, p, lent, x),
        Tmessage::GetAttr(x) => metadata::attributes::write_tgetattr(out, p, lent, x),
        Tmessage::SetAttr(x) => metadata::attributes::write_tsetattr(out, p, lent, x),
        Tmessage::XattrWalk(x) => metadata::attributes::write_txattrwalk(out, p, lent, x),
        Tmessage::XattrCreate(x) => metadata::attributes::write_txattrcreate(out, p, lent, x),
        Tmessage::Readdir(x) => messages::directories::write_treaddir(out, p, lent, x),
        Tmessage::Fsync(x) => messages::files::write_tfsync(out, p, lent, x),
        Tmessage::Lock(x) => metadata::locks::write_tlock(out, p, lent, x),
        Tmessage::GetLock(x) => metadata::locks::write_tgetlock(out, p, lent, x),
        Tmessage::Link(x) => messages::directories::write_tlink(out, p, lent, x),
        Tmessage::Mkdir(x) => messages::directories::write_tmkdir(out, p, lent, x),
        Tmessage::RenameAt(x) => messages::directories::write_trenameat(out, p, lent, x),
        Tmessage::UnlinkAt(x) => messages::directories::write_tunlinkat(out, p, lent, x),
    }
}
