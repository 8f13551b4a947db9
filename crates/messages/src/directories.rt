// Written by tools/messages from its table of messages.
// Directories: what is made, named, linked and listed in them.

ghost use Rattle.fields.specs.Fields.{Fields};
ghost use Rattle.laying.specs.Laying.{Written};
ghost use Rattle.layouts.specs.Tables.{layout_tsymlink, layout_rsymlink, layout_tmknod, layout_rmknod, layout_trename, layout_treadlink, layout_rreadlink, layout_treaddir, layout_rreaddir, layout_tlink, layout_tmkdir, layout_rmkdir, layout_trenameat, layout_tunlinkat};
ghost use Rattle.messages.specs.Records.{tsymlink, rsymlink, tmknod, rmknod, trename, treadlink, rreadlink, treaddir, rreaddir, tlink, tmkdir, rmkdir, trenameat, tunlinkat};

use layouts::ids::{Fid, Gid};
use layouts::qids;
use layouts::qids::Qid;
use numbers::{Place, Read};
use strings::Span;

#[derive(Clone, Copy)]
pub struct Tsymlink {
    pub fid: Fid,
    pub name: Span,
    pub symtgt: Span,
    pub gid: Gid,
}

pub fn read_tsymlink(s: &[u8], p: Place) -> Read<Tsymlink>
    ensures { Fields layout_tsymlink s.now p (tsymlink result.value) result.next }
{
    let fid = numbers::read_u32(s, p);
    let name = strings::read_str(s, fid.next);
    let symtgt = strings::read_str(s, name.next);
    let gid = numbers::read_u32(s, symtgt.next);
    Read {
        value: Tsymlink {
            fid: Fid(fid.value),
            name: name.value,
            symtgt: symtgt.value,
            gid: Gid(gid.value),
        },
        next: gid.next,
    }
}

pub fn write_tsymlink(out: &mut [u8], p: Place, lent: &[u8], m: Tsymlink) -> Place
    ensures { Written layout_tsymlink lent.now (tsymlink m) out.old p out.new result }
{
    let p1 = laying::advanced(p, 4);
    let p2 = laying::measure_str(lent, m.name, p1);
    let p3 = laying::measure_str(lent, m.symtgt, p2);
    let end = laying::advanced(p3, 4);
    let start = laying::begun(p, end, out.len());
    let q1 = numbers::put_u32(out, start, m.fid.0);
    let q2 = numbers::put_num(out, q1, m.name.len as u64, 2);
    let q3 = strings::put_bytes(out, q2, lent, m.name);
    let q4 = numbers::put_num(out, q3, m.symtgt.len as u64, 2);
    let q5 = strings::put_bytes(out, q4, lent, m.symtgt);
    numbers::put_u32(out, q5, m.gid.0)
}

#[derive(Clone, Copy)]
pub struct Rsymlink {
    pub qid: Qid,
}

pub fn read_rsymlink(s: &[u8], p: Place) -> Read<Rsymlink>
    ensures { Fields layout_rsymlink s.now p (rsymlink result.value) result.next }
{
    let qid = qids::read_qid(s, p);
    Read {
        value: Rsymlink { qid: qid.value },
        next: qid.next,
    }
}

pub fn write_rsymlink(out: &mut [u8], p: Place, lent: &[u8], m: Rsymlink) -> Place
    ensures { Written layout_rsymlink lent.now (rsymlink m) out.old p out.new result }
{
    let end = laying::advanced(p, 13);
    let start = laying::begun(p, end, out.len());
    let q1 = numbers::put_u8(out, start, m.qid.ty);
    let q2 = numbers::put_u32(out, q1, m.qid.version);
    numbers::put_u64(out, q2, m.qid.path)
}

#[derive(Clone, Copy)]
pub struct Tmknod {
    pub dfid: Fid,
    pub name: Span,
    pub mode: u32,
    pub major: u32,
    pub minor: u32,
    pub gid: Gid,
}

pub fn read_tmknod(s: &[u8], p: Place) -> Read<Tmknod>
    ensures { Fields layout_tmknod s.now p (tmknod result.value) result.next }
{
    let dfid = numbers::read_u32(s, p);
    let name = strings::read_str(s, dfid.next);
    let mode = numbers::read_u32(s, name.next);
    let major = numbers::read_u32(s, mode.next);
    let minor = numbers::read_u32(s, major.next);
    let gid = numbers::read_u32(s, minor.next);
    Read {
        value: Tmknod {
            dfid: Fid(dfid.value),
            name: name.value,
            mode: mode.value,
            major: major.value,
            minor: minor.value,
            gid: Gid(gid.value),
        },
        next: gid.next,
    }
}

pub fn write_tmknod(out: &mut [u8], p: Place, lent: &[u8], m: Tmknod) -> Place
    ensures { Written layout_tmknod lent.now (tmknod m) out.old p out.new result }
{
    let p1 = laying::advanced(p, 4);
    let p2 = laying::measure_str(lent, m.name, p1);
    let end = laying::advanced(p2, 16);
    let start = laying::begun(p, end, out.len());
    let q1 = numbers::put_u32(out, start, m.dfid.0);
    let q2 = numbers::put_num(out, q1, m.name.len as u64, 2);
    let q3 = strings::put_bytes(out, q2, lent, m.name);
    let q4 = numbers::put_u32(out, q3, m.mode);
    let q5 = numbers::put_u32(out, q4, m.major);
    let q6 = numbers::put_u32(out, q5, m.minor);
    numbers::put_u32(out, q6, m.gid.0)
}

#[derive(Clone, Copy)]
pub struct Rmknod {
    pub qid: Qid,
}

pub fn read_rmknod(s: &[u8], p: Place) -> Read<Rmknod>
    ensures { Fields layout_rmknod s.now p (rmknod result.value) result.next }
{
    let qid = qids::read_qid(s, p);
    Read {
        value: Rmknod { qid: qid.value },
        next: qid.next,
    }
}

pub fn write_rmknod(out: &mut [u8], p: Place, lent: &[u8], m: Rmknod) -> Place
    ensures { Written layout_rmknod lent.now (rmknod m) out.old p out.new result }
{
    let end = laying::advanced(p, 13);
    let start = laying::begun(p, end, out.len());
    let q1 = numbers::put_u8(out, start, m.qid.ty);
    let q2 = numbers::put_u32(out, q1, m.qid.version);
    numbers::put_u64(out, q2, m.qid.path)
}

#[derive(Clone, Copy)]
pub struct Trename {
    pub fid: Fid,
    pub dfid: Fid,
    pub name: Span,
}

pub fn read_trename(s: &[u8], p: Place) -> Read<Trename>
    ensures { Fields layout_trename s.now p (trename result.value) result.next }
{
    let fid = numbers::read_u32(s, p);
    let dfid = numbers::read_u32(s, fid.next);
    let name = strings::read_str(s, dfid.next);
    Read {
        value: Trename {
            fid: Fid(fid.value),
            dfid: Fid(dfid.value),
            name: name.value,
        },
        next: name.next,
    }
}

pub fn write_trename(out: &mut [u8], p: Place, lent: &[u8], m: Trename) -> Place
    ensures { Written layout_trename lent.now (trename m) out.old p out.new result }
{
    let p1 = laying::advanced(p, 8);
    let end = laying::measure_str(lent, m.name, p1);
    let start = laying::begun(p, end, out.len());
    let q1 = numbers::put_u32(out, start, m.fid.0);
    let q2 = numbers::put_u32(out, q1, m.dfid.0);
    let q3 = numbers::put_num(out, q2, m.name.len as u64, 2);
    strings::put_bytes(out, q3, lent, m.name)
}

#[derive(Clone, Copy)]
pub struct Treadlink {
    pub fid: Fid,
}

pub fn read_treadlink(s: &[u8], p: Place) -> Read<Treadlink>
    ensures { Fields layout_treadlink s.now p (treadlink result.value) result.next }
{
    let fid = numbers::read_u32(s, p);
    Read {
        value: Treadlink {
            fid: Fid(fid.value),
        },
        next: fid.next,
    }
}

pub fn write_treadlink(out: &mut [u8], p: Place, lent: &[u8], m: Treadlink) -> Place
    ensures { Written layout_treadlink lent.now (treadlink m) out.old p out.new result }
{
    let end = laying::advanced(p, 4);
    let start = laying::begun(p, end, out.len());
    numbers::put_u32(out, start, m.fid.0)
}

#[derive(Clone, Copy)]
pub struct Rreadlink {
    pub target: Span,
}

pub fn read_rreadlink(s: &[u8], p: Place) -> Read<Rreadlink>
    ensures { Fields layout_rreadlink s.now p (rreadlink result.value) result.next }
{
    let target = strings::read_str(s, p);
    Read {
        value: Rreadlink {
            target: target.value,
        },
        next: target.next,
    }
}

pub fn write_rreadlink(out: &mut [u8], p: Place, lent: &[u8], m: Rreadlink) -> Place
    ensures { Written layout_rreadlink lent.now (rreadlink m) out.old p out.new result }
{
    let end = laying::measure_str(lent, m.target, p);
    let start = laying::begun(p, end, out.len());
    let q1 = numbers::put_num(out, start, m.target.len as u64, 2);
    strings::put_bytes(out, q1, lent, m.target)
}

#[derive(Clone, Copy)]
pub struct Treaddir {
    pub fid: Fid,
    pub offset: u64,
    pub count: u32,
}

pub fn read_treaddir(s: &[u8], p: Place) -> Read<Treaddir>
    ensures { Fields layout_treaddir s.now p (treaddir result.value) result.next }
{
    let fid = numbers::read_u32(s, p);
    let offset = numbers::read_u64(s, fid.next);
    let count = numbers::read_u32(s, offset.next);
    Read {
        value: Treaddir {
            fid: Fid(fid.value),
            offset: offset.value,
            count: count.value,
        },
        next: count.next,
    }
}

pub fn write_treaddir(out: &mut [u8], p: Place, lent: &[u8], m: Treaddir) -> Place
    ensures { Written layout_treaddir lent.now (treaddir m) out.old p out.new result }
{
    let end = laying::advanced(p, 16);
    let start = laying::begun(p, end, out.len());
    let q1 = numbers::put_u32(out, start, m.fid.0);
    let q2 = numbers::put_u64(out, q1, m.offset);
    numbers::put_u32(out, q2, m.count)
}

#[derive(Clone, Copy)]
pub struct Rreaddir {
    pub data: Span,
}

pub fn read_rreaddir(s: &[u8], p: Place) -> Read<Rreaddir>
    ensures { Fields layout_rreaddir s.now p (rreaddir result.value) result.next }
{
    let data = fields::read_data(s, p);
    Read {
        value: Rreaddir { data: data.value },
        next: data.next,
    }
}

pub fn write_rreaddir(out: &mut [u8], p: Place, lent: &[u8], m: Rreaddir) -> Place
    ensures { Written layout_rreaddir lent.now (rreaddir m) out.old p out.new result }
{
    let end = laying::measure_data(lent, m.data, p);
    let start = laying::begun(p, end, out.len());
    let q1 = numbers::put_num(out, start, m.data.len as u64, 4);
    strings::put_bytes(out, q1, lent, m.data)
}

#[derive(Clone, Copy)]
pub struct Tlink {
    pub dfid: Fid,
    pub fid: Fid,
    pub name: Span,
}

pub fn read_tlink(s: &[u8], p: Place) -> Read<Tlink>
    ensures { Fields layout_tlink s.now p (tlink result.value) result.next }
{
    let dfid = numbers::read_u32(s, p);
    let fid = numbers::read_u32(s, dfid.next);
    let name = strings::read_str(s, fid.next);
    Read {
        value: Tlink {
            dfid: Fid(dfid.value),
            fid: Fid(fid.value),
            name: name.value,
        },
        next: name.next,
    }
}

pub fn write_tlink(out: &mut [u8], p: Place, lent: &[u8], m: Tlink) -> Place
    ensures { Written layout_tlink lent.now (tlink m) out.old p out.new result }
{
    let p1 = laying::advanced(p, 8);
    let end = laying::measure_str(lent, m.name, p1);
    let start = laying::begun(p, end, out.len());
    let q1 = numbers::put_u32(out, start, m.dfid.0);
    let q2 = numbers::put_u32(out, q1, m.fid.0);
    let q3 = numbers::put_num(out, q2, m.name.len as u64, 2);
    strings::put_bytes(out, q3, lent, m.name)
}

#[derive(Clone, Copy)]
pub struct Tmkdir {
    pub dfid: Fid,
    pub name: Span,
    pub mode: u32,
    pub gid: Gid,
}

pub fn read_tmkdir(s: &[u8], p: Place) -> Read<Tmkdir>
    ensures { Fields layout_tmkdir s.now p (tmkdir result.value) result.next }
{
    let dfid = numbers::read_u32(s, p);
    let name = strings::read_str(s, dfid.next);
    let mode = numbers::read_u32(s, name.next);
    let gid = numbers::read_u32(s, mode.next);
    Read {
        value: Tmkdir {
            dfid: Fid(dfid.value),
            name: name.value,
            mode: mode.value,
            gid: Gid(gid.value),
        },
        next: gid.next,
    }
}

pub fn write_tmkdir(out: &mut [u8], p: Place, lent: &[u8], m: Tmkdir) -> Place
    ensures { Written layout_tmkdir lent.now (tmkdir m) out.old p out.new result }
{
    let p1 = laying::advanced(p, 4);
    let p2 = laying::measure_str(lent, m.name, p1);
    let end = laying::advanced(p2, 8);
    let start = laying::begun(p, end, out.len());
    let q1 = numbers::put_u32(out, start, m.dfid.0);
    let q2 = numbers::put_num(out, q1, m.name.len as u64, 2);
    let q3 = strings::put_bytes(out, q2, lent, m.name);
    let q4 = numbers::put_u32(out, q3, m.mode);
    numbers::put_u32(out, q4, m.gid.0)
}

#[derive(Clone, Copy)]
pub struct Rmkdir {
    pub qid: Qid,
}

pub fn read_rmkdir(s: &[u8], p: Place) -> Read<Rmkdir>
    ensures { Fields layout_rmkdir s.now p (rmkdir result.value) result.next }
{
    let qid = qids::read_qid(s, p);
    Read {
        value: Rmkdir { qid: qid.value },
        next: qid.next,
    }
}

pub fn write_rmkdir(out: &mut [u8], p: Place, lent: &[u8], m: Rmkdir) -> Place
    ensures { Written layout_rmkdir lent.now (rmkdir m) out.old p out.new result }
{
    let end = laying::advanced(p, 13);
    let start = laying::begun(p, end, out.len());
    let q1 = numbers::put_u8(out, start, m.qid.ty);
    let q2 = numbers::put_u32(out, q1, m.qid.version);
    numbers::put_u64(out, q2, m.qid.path)
}

#[derive(Clone, Copy)]
pub struct Trenameat {
    pub olddirfid: Fid,
    pub oldname: Span,
    pub newdirfid: Fid,
    pub newname: Span,
}

pub fn read_trenameat(s: &[u8], p: Place) -> Read<Trenameat>
    ensures { Fields layout_trenameat s.now p (trenameat result.value) result.next }
{
    let olddirfid = numbers::read_u32(s, p);
    let oldname = strings::read_str(s, olddirfid.next);
    let newdirfid = numbers::read_u32(s, oldname.next);
    let newname = strings::read_str(s, newdirfid.next);
    Read {
        value: Trenameat {
            olddirfid: Fid(olddirfid.value),
            oldname: oldname.value,
            newdirfid: Fid(newdirfid.value),
            newname: newname.value,
        },
        next: newname.next,
    }
}

pub fn write_trenameat(out: &mut [u8], p: Place, lent: &[u8], m: Trenameat) -> Place
    ensures { Written layout_trenameat lent.now (trenameat m) out.old p out.new result }
{
    let p1 = laying::advanced(p, 4);
    let p2 = laying::measure_str(lent, m.oldname, p1);
    let p3 = laying::advanced(p2, 4);
    let end = laying::measure_str(lent, m.newname, p3);
    let start = laying::begun(p, end, out.len());
    let q1 = numbers::put_u32(out, start, m.olddirfid.0);
    let q2 = numbers::put_num(out, q1, m.oldname.len as u64, 2);
    let q3 = strings::put_bytes(out, q2, lent, m.oldname);
    let q4 = numbers::put_u32(out, q3, m.newdirfid.0);
    let q5 = numbers::put_num(out, q4, m.newname.len as u64, 2);
    strings::put_bytes(out, q5, lent, m.newname)
}

#[derive(Clone, Copy)]
pub struct Tunlinkat {
    pub dirfd: Fid,
    pub name: Span,
    pub flags: u32,
}

pub fn read_tunlinkat(s: &[u8], p: Place) -> Read<Tunlinkat>
    ensures { Fields layout_tunlinkat s.now p (tunlinkat result.value) result.next }
{
    let dirfd = numbers::read_u32(s, p);
    let name = strings::read_str(s, dirfd.next);
    let flags = numbers::read_u32(s, name.next);
    Read {
        value: Tunlinkat {
            dirfd: Fid(dirfd.value),
            name: name.value,
            flags: flags.value,
        },
        next: flags.next,
    }
}

pub fn write_tunlinkat(out: &mut [u8], p: Place, lent: &[u8], m: Tunlinkat) -> Place
    ensures { Written layout_tunlinkat lent.now (tunlinkat m) out.old p out.new result }
{
    let p1 = laying::advanced(p, 4);
    let p2 = laying::measure_str(lent, m.name, p1);
    let end = laying::advanced(p2, 4);
    let start = laying::begun(p, end, out.len());
    let q1 = numbers::put_u32(out, start, m.dirfd.0);
    let q2 = numbers::put_num(out, q1, m.name.len as u64, 2);
    let q3 = strings::put_bytes(out, q2, lent, m.name);
    numbers::put_u32(out, q3, m.flags)
}
