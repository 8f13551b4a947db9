// Written by tools/messages from its table of messages.
// Attributes: of a file system, of a file, and those that bear names.

ghost use Rattle.fields.specs.Fields.{Fields};
ghost use Rattle.laying.specs.Laying.{Written};
ghost use Rattle.layouts.specs.Tables.{layout_tstatfs, layout_rstatfs, layout_tgetattr, layout_rgetattr, layout_tsetattr, layout_txattrwalk, layout_rxattrwalk, layout_txattrcreate};
ghost use Rattle.metadata.specs.Records.{tstatfs, rstatfs, tgetattr, rgetattr, tsetattr, txattrwalk, rxattrwalk, txattrcreate};

use layouts::ids::{Fid, Gid};
use layouts::qids;
use layouts::qids::Qid;
use numbers::{Place, Read};
use strings::Span;

#[derive(Clone, Copy)]
pub struct Tstatfs {
    pub fid: Fid,
}

pub fn read_tstatfs(s: &[u8], p: Place) -> Read<Tstatfs>
    ensures { Fields layout_tstatfs s.now p (tstatfs result.value) result.next }
{
    let fid = numbers::read_u32(s, p);
    Read {
        value: Tstatfs {
            fid: Fid(fid.value),
        },
        next: fid.next,
    }
}

pub fn write_tstatfs(out: &mut [u8], p: Place, lent: &[u8], m: Tstatfs) -> Place
    ensures { Written layout_tstatfs lent.now (tstatfs m) out.old p out.new result }
{
    let end = laying::advanced(p, 4);
    let start = laying::begun(p, end, out.len());
    numbers::put_u32(out, start, m.fid.0)
}

#[derive(Clone, Copy)]
pub struct Rstatfs {
    pub ty: u32,
    pub bsize: u32,
    pub blocks: u64,
    pub bfree: u64,
    pub bavail: u64,
    pub files: u64,
    pub ffree: u64,
    pub fsid: u64,
    pub namelen: u32,
}

pub fn read_rstatfs(s: &[u8], p: Place) -> Read<Rstatfs>
    ensures { Fields layout_rstatfs s.now p (rstatfs result.value) result.next }
{
    let ty = numbers::read_u32(s, p);
    let bsize = numbers::read_u32(s, ty.next);
    let blocks = numbers::read_u64(s, bsize.next);
    let bfree = numbers::read_u64(s, blocks.next);
    let bavail = numbers::read_u64(s, bfree.next);
    let files = numbers::read_u64(s, bavail.next);
    let ffree = numbers::read_u64(s, files.next);
    let fsid = numbers::read_u64(s, ffree.next);
    let namelen = numbers::read_u32(s, fsid.next);
    Read {
        value: Rstatfs {
            ty: ty.value,
            bsize: bsize.value,
            blocks: blocks.value,
            bfree: bfree.value,
            bavail: bavail.value,
            files: files.value,
            ffree: ffree.value,
            fsid: fsid.value,
            namelen: namelen.value,
        },
        next: namelen.next,
    }
}

pub fn write_rstatfs(out: &mut [u8], p: Place, lent: &[u8], m: Rstatfs) -> Place
    ensures { Written layout_rstatfs lent.now (rstatfs m) out.old p out.new result }
{
    let end = laying::advanced(p, 60);
    let start = laying::begun(p, end, out.len());
    let q1 = numbers::put_u32(out, start, m.ty);
    let q2 = numbers::put_u32(out, q1, m.bsize);
    let q3 = numbers::put_u64(out, q2, m.blocks);
    let q4 = numbers::put_u64(out, q3, m.bfree);
    let q5 = numbers::put_u64(out, q4, m.bavail);
    let q6 = numbers::put_u64(out, q5, m.files);
    let q7 = numbers::put_u64(out, q6, m.ffree);
    let q8 = numbers::put_u64(out, q7, m.fsid);
    numbers::put_u32(out, q8, m.namelen)
}

#[derive(Clone, Copy)]
pub struct Tgetattr {
    pub fid: Fid,
    pub request_mask: u64,
}

pub fn read_tgetattr(s: &[u8], p: Place) -> Read<Tgetattr>
    ensures { Fields layout_tgetattr s.now p (tgetattr result.value) result.next }
{
    let fid = numbers::read_u32(s, p);
    let request_mask = numbers::read_u64(s, fid.next);
    Read {
        value: Tgetattr {
            fid: Fid(fid.value),
            request_mask: request_mask.value,
        },
        next: request_mask.next,
    }
}

pub fn write_tgetattr(out: &mut [u8], p: Place, lent: &[u8], m: Tgetattr) -> Place
    ensures { Written layout_tgetattr lent.now (tgetattr m) out.old p out.new result }
{
    let end = laying::advanced(p, 12);
    let start = laying::begun(p, end, out.len());
    let q1 = numbers::put_u32(out, start, m.fid.0);
    numbers::put_u64(out, q1, m.request_mask)
}

#[derive(Clone, Copy)]
pub struct Rgetattr {
    pub valid: u64,
    pub qid: Qid,
    pub mode: u32,
    pub uid: u32,
    pub gid: Gid,
    pub nlink: u64,
    pub rdev: u64,
    pub size: u64,
    pub blksize: u64,
    pub blocks: u64,
    pub atime_sec: u64,
    pub atime_nsec: u64,
    pub mtime_sec: u64,
    pub mtime_nsec: u64,
    pub ctime_sec: u64,
    pub ctime_nsec: u64,
    pub btime_sec: u64,
    pub btime_nsec: u64,
    pub gen_: u64,
    pub data_version: u64,
}

pub fn read_rgetattr(s: &[u8], p: Place) -> Read<Rgetattr>
    ensures { Fields layout_rgetattr s.now p (rgetattr result.value) result.next }
{
    let valid = numbers::read_u64(s, p);
    let qid = qids::read_qid(s, valid.next);
    let mode = numbers::read_u32(s, qid.next);
    let uid = numbers::read_u32(s, mode.next);
    let gid = numbers::read_u32(s, uid.next);
    let nlink = numbers::read_u64(s, gid.next);
    let rdev = numbers::read_u64(s, nlink.next);
    let size = numbers::read_u64(s, rdev.next);
    let blksize = numbers::read_u64(s, size.next);
    let blocks = numbers::read_u64(s, blksize.next);
    let atime_sec = numbers::read_u64(s, blocks.next);
    let atime_nsec = numbers::read_u64(s, atime_sec.next);
    let mtime_sec = numbers::read_u64(s, atime_nsec.next);
    let mtime_nsec = numbers::read_u64(s, mtime_sec.next);
    let ctime_sec = numbers::read_u64(s, mtime_nsec.next);
    let ctime_nsec = numbers::read_u64(s, ctime_sec.next);
    let btime_sec = numbers::read_u64(s, ctime_nsec.next);
    let btime_nsec = numbers::read_u64(s, btime_sec.next);
    let gen_ = numbers::read_u64(s, btime_nsec.next);
    let data_version = numbers::read_u64(s, gen_.next);
    Read {
        value: Rgetattr {
            valid: valid.value,
            qid: qid.value,
            mode: mode.value,
            uid: uid.value,
            gid: Gid(gid.value),
            nlink: nlink.value,
            rdev: rdev.value,
            size: size.value,
            blksize: blksize.value,
            blocks: blocks.value,
            atime_sec: atime_sec.value,
            atime_nsec: atime_nsec.value,
            mtime_sec: mtime_sec.value,
            mtime_nsec: mtime_nsec.value,
            ctime_sec: ctime_sec.value,
            ctime_nsec: ctime_nsec.value,
            btime_sec: btime_sec.value,
            btime_nsec: btime_nsec.value,
            gen_: gen_.value,
            data_version: data_version.value,
        },
        next: data_version.next,
    }
}

pub fn write_rgetattr(out: &mut [u8], p: Place, lent: &[u8], m: Rgetattr) -> Place
    ensures { Written layout_rgetattr lent.now (rgetattr m) out.old p out.new result }
{
    let end = laying::advanced(p, 153);
    let start = laying::begun(p, end, out.len());
    let q1 = numbers::put_u64(out, start, m.valid);
    let q2 = numbers::put_u8(out, q1, m.qid.ty);
    let q3 = numbers::put_u32(out, q2, m.qid.version);
    let q4 = numbers::put_u64(out, q3, m.qid.path);
    let q5 = numbers::put_u32(out, q4, m.mode);
    let q6 = numbers::put_u32(out, q5, m.uid);
    let q7 = numbers::put_u32(out, q6, m.gid.0);
    let q8 = numbers::put_u64(out, q7, m.nlink);
    let q9 = numbers::put_u64(out, q8, m.rdev);
    let q10 = numbers::put_u64(out, q9, m.size);
    let q11 = numbers::put_u64(out, q10, m.blksize);
    let q12 = numbers::put_u64(out, q11, m.blocks);
    let q13 = numbers::put_u64(out, q12, m.atime_sec);
    let q14 = numbers::put_u64(out, q13, m.atime_nsec);
    let q15 = numbers::put_u64(out, q14, m.mtime_sec);
    let q16 = numbers::put_u64(out, q15, m.mtime_nsec);
    let q17 = numbers::put_u64(out, q16, m.ctime_sec);
    let q18 = numbers::put_u64(out, q17, m.ctime_nsec);
    let q19 = numbers::put_u64(out, q18, m.btime_sec);
    let q20 = numbers::put_u64(out, q19, m.btime_nsec);
    let q21 = numbers::put_u64(out, q20, m.gen_);
    numbers::put_u64(out, q21, m.data_version)
}

#[derive(Clone, Copy)]
pub struct Tsetattr {
    pub fid: Fid,
    pub valid: u32,
    pub mode: u32,
    pub uid: u32,
    pub gid: Gid,
    pub size: u64,
    pub atime_sec: u64,
    pub atime_nsec: u64,
    pub mtime_sec: u64,
    pub mtime_nsec: u64,
}

pub fn read_tsetattr(s: &[u8], p: Place) -> Read<Tsetattr>
    ensures { Fields layout_tsetattr s.now p (tsetattr result.value) result.next }
{
    let fid = numbers::read_u32(s, p);
    let valid = numbers::read_u32(s, fid.next);
    let mode = numbers::read_u32(s, valid.next);
    let uid = numbers::read_u32(s, mode.next);
    let gid = numbers::read_u32(s, uid.next);
    let size = numbers::read_u64(s, gid.next);
    let atime_sec = numbers::read_u64(s, size.next);
    let atime_nsec = numbers::read_u64(s, atime_sec.next);
    let mtime_sec = numbers::read_u64(s, atime_nsec.next);
    let mtime_nsec = numbers::read_u64(s, mtime_sec.next);
    Read {
        value: Tsetattr {
            fid: Fid(fid.value),
            valid: valid.value,
            mode: mode.value,
            uid: uid.value,
            gid: Gid(gid.value),
            size: size.value,
            atime_sec: atime_sec.value,
            atime_nsec: atime_nsec.value,
            mtime_sec: mtime_sec.value,
            mtime_nsec: mtime_nsec.value,
        },
        next: mtime_nsec.next,
    }
}

pub fn write_tsetattr(out: &mut [u8], p: Place, lent: &[u8], m: Tsetattr) -> Place
    ensures { Written layout_tsetattr lent.now (tsetattr m) out.old p out.new result }
{
    let end = laying::advanced(p, 60);
    let start = laying::begun(p, end, out.len());
    let q1 = numbers::put_u32(out, start, m.fid.0);
    let q2 = numbers::put_u32(out, q1, m.valid);
    let q3 = numbers::put_u32(out, q2, m.mode);
    let q4 = numbers::put_u32(out, q3, m.uid);
    let q5 = numbers::put_u32(out, q4, m.gid.0);
    let q6 = numbers::put_u64(out, q5, m.size);
    let q7 = numbers::put_u64(out, q6, m.atime_sec);
    let q8 = numbers::put_u64(out, q7, m.atime_nsec);
    let q9 = numbers::put_u64(out, q8, m.mtime_sec);
    numbers::put_u64(out, q9, m.mtime_nsec)
}

#[derive(Clone, Copy)]
pub struct Txattrwalk {
    pub fid: Fid,
    pub newfid: Fid,
    pub name: Span,
}

pub fn read_txattrwalk(s: &[u8], p: Place) -> Read<Txattrwalk>
    ensures { Fields layout_txattrwalk s.now p (txattrwalk result.value) result.next }
{
    let fid = numbers::read_u32(s, p);
    let newfid = numbers::read_u32(s, fid.next);
    let name = strings::read_str(s, newfid.next);
    Read {
        value: Txattrwalk {
            fid: Fid(fid.value),
            newfid: Fid(newfid.value),
            name: name.value,
        },
        next: name.next,
    }
}

pub fn write_txattrwalk(out: &mut [u8], p: Place, lent: &[u8], m: Txattrwalk) -> Place
    ensures { Written layout_txattrwalk lent.now (txattrwalk m) out.old p out.new result }
{
    let p1 = laying::advanced(p, 8);
    let end = laying::measure_str(lent, m.name, p1);
    let start = laying::begun(p, end, out.len());
    let q1 = numbers::put_u32(out, start, m.fid.0);
    let q2 = numbers::put_u32(out, q1, m.newfid.0);
    let q3 = numbers::put_num(out, q2, m.name.len as u64, 2);
    strings::put_bytes(out, q3, lent, m.name)
}

#[derive(Clone, Copy)]
pub struct Rxattrwalk {
    pub size: u64,
}

pub fn read_rxattrwalk(s: &[u8], p: Place) -> Read<Rxattrwalk>
    ensures { Fields layout_rxattrwalk s.now p (rxattrwalk result.value) result.next }
{
    let size = numbers::read_u64(s, p);
    Read {
        value: Rxattrwalk { size: size.value },
        next: size.next,
    }
}

pub fn write_rxattrwalk(out: &mut [u8], p: Place, lent: &[u8], m: Rxattrwalk) -> Place
    ensures { Written layout_rxattrwalk lent.now (rxattrwalk m) out.old p out.new result }
{
    let end = laying::advanced(p, 8);
    let start = laying::begun(p, end, out.len());
    numbers::put_u64(out, start, m.size)
}

#[derive(Clone, Copy)]
pub struct Txattrcreate {
    pub fid: Fid,
    pub name: Span,
    pub attr_size: u64,
    pub flags: u32,
}

pub fn read_txattrcreate(s: &[u8], p: Place) -> Read<Txattrcreate>
    ensures { Fields layout_txattrcreate s.now p (txattrcreate result.value) result.next }
{
    let fid = numbers::read_u32(s, p);
    let name = strings::read_str(s, fid.next);
    let attr_size = numbers::read_u64(s, name.next);
    let flags = numbers::read_u32(s, attr_size.next);
    Read {
        value: Txattrcreate {
            fid: Fid(fid.value),
            name: name.value,
            attr_size: attr_size.value,
            flags: flags.value,
        },
        next: flags.next,
    }
}

pub fn write_txattrcreate(out: &mut [u8], p: Place, lent: &[u8], m: Txattrcreate) -> Place
    ensures { Written layout_txattrcreate lent.now (txattrcreate m) out.old p out.new result }
{
    let p1 = laying::advanced(p, 4);
    let p2 = laying::measure_str(lent, m.name, p1);
    let end = laying::advanced(p2, 12);
    let start = laying::begun(p, end, out.len());
    let q1 = numbers::put_u32(out, start, m.fid.0);
    let q2 = numbers::put_num(out, q1, m.name.len as u64, 2);
    let q3 = strings::put_bytes(out, q2, lent, m.name);
    let q4 = numbers::put_u64(out, q3, m.attr_size);
    numbers::put_u32(out, q4, m.flags)
}
