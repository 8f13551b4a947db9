// Written by tools/messages from its table of messages.
// The records of directories, laid flat and put together.

ghost use Rattle.std.specs.Prelude.{◌≡◌};
ghost use Rattle.layouts.specs.Tables.{layout_tsymlink, layout_rsymlink, layout_tmknod, layout_rmknod, layout_trename, layout_treadlink, layout_rreadlink, layout_treaddir, layout_rreaddir, layout_tlink, layout_tmkdir, layout_rmkdir, layout_trenameat, layout_tunlinkat};
ghost use Rattle.messages.specs.Records.{tsymlink, rsymlink, tmknod, rmknod, trename, treadlink, rreadlink, treaddir, rreaddir, tlink, tmkdir, rmkdir, trenameat, tunlinkat};
ghost use Rattle.flat.specs.Flat.{flat_values, stored, field_values};

use crate::{U8, U32, WIDTH_R, WIDTH_T};
use layouts::ids::{Fid, Gid};
use layouts::qids::Qid;
use messages::directories::{
    Rmkdir, Rmknod, Rreaddir, Rreadlink, Rsymlink, Tlink, Tmkdir, Tmknod, Treaddir, Treadlink,
    Trename, Trenameat, Tsymlink, Tunlinkat,
};
use strings::Span;

pub fn flat_tsymlink(m: Tsymlink, values: &mut [u64; WIDTH_T])
    ensures { values.new ≡ stored values.old 0 (flat_values (tsymlink m)) }
{
    values[0] = m.fid.0 as u64;
    values[1] = m.name.start as u64;
    values[2] = m.name.len as u64;
    values[3] = m.symtgt.start as u64;
    values[4] = m.symtgt.len as u64;
    values[5] = m.gid.0 as u64;
}

pub fn tsymlink_of(v: [u64; WIDTH_T]) -> Tsymlink
    ensures { tsymlink result ≡ field_values layout_tsymlink v }
{
    Tsymlink {
        fid: Fid((v[0] % U32) as u32),
        name: Span {
            start: v[1] as usize,
            len: v[2] as usize,
        },
        symtgt: Span {
            start: v[3] as usize,
            len: v[4] as usize,
        },
        gid: Gid((v[5] % U32) as u32),
    }
}

pub fn flat_rsymlink(m: Rsymlink, values: &mut [u64; WIDTH_R])
    ensures { values.new ≡ stored values.old 0 (flat_values (rsymlink m)) }
{
    values[0] = m.qid.ty as u64;
    values[1] = m.qid.version as u64;
    values[2] = m.qid.path;
}

pub fn rsymlink_of(v: [u64; WIDTH_R]) -> Rsymlink
    ensures { rsymlink result ≡ field_values layout_rsymlink v }
{
    Rsymlink {
        qid: Qid {
            ty: (v[0] % U8) as u8,
            version: (v[1] % U32) as u32,
            path: v[2],
        },
    }
}

pub fn flat_tmknod(m: Tmknod, values: &mut [u64; WIDTH_T])
    ensures { values.new ≡ stored values.old 0 (flat_values (tmknod m)) }
{
    values[0] = m.dfid.0 as u64;
    values[1] = m.name.start as u64;
    values[2] = m.name.len as u64;
    values[3] = m.mode as u64;
    values[4] = m.major as u64;
    values[5] = m.minor as u64;
    values[6] = m.gid.0 as u64;
}

pub fn tmknod_of(v: [u64; WIDTH_T]) -> Tmknod
    ensures { tmknod result ≡ field_values layout_tmknod v }
{
    Tmknod {
        dfid: Fid((v[0] % U32) as u32),
        name: Span {
            start: v[1] as usize,
            len: v[2] as usize,
        },
        mode: (v[3] % U32) as u32,
        major: (v[4] % U32) as u32,
        minor: (v[5] % U32) as u32,
        gid: Gid((v[6] % U32) as u32),
    }
}

pub fn flat_rmknod(m: Rmknod, values: &mut [u64; WIDTH_R])
    ensures { values.new ≡ stored values.old 0 (flat_values (rmknod m)) }
{
    values[0] = m.qid.ty as u64;
    values[1] = m.qid.version as u64;
    values[2] = m.qid.path;
}

pub fn rmknod_of(v: [u64; WIDTH_R]) -> Rmknod
    ensures { rmknod result ≡ field_values layout_rmknod v }
{
    Rmknod {
        qid: Qid {
            ty: (v[0] % U8) as u8,
            version: (v[1] % U32) as u32,
            path: v[2],
        },
    }
}

pub fn flat_trename(m: Trename, values: &mut [u64; WIDTH_T])
    ensures { values.new ≡ stored values.old 0 (flat_values (trename m)) }
{
    values[0] = m.fid.0 as u64;
    values[1] = m.dfid.0 as u64;
    values[2] = m.name.start as u64;
    values[3] = m.name.len as u64;
}

pub fn trename_of(v: [u64; WIDTH_T]) -> Trename
    ensures { trename result ≡ field_values layout_trename v }
{
    Trename {
        fid: Fid((v[0] % U32) as u32),
        dfid: Fid((v[1] % U32) as u32),
        name: Span {
            start: v[2] as usize,
            len: v[3] as usize,
        },
    }
}

pub fn flat_treadlink(m: Treadlink, values: &mut [u64; WIDTH_T])
    ensures { values.new ≡ stored values.old 0 (flat_values (treadlink m)) }
{
    values[0] = m.fid.0 as u64;
}

pub fn treadlink_of(v: [u64; WIDTH_T]) -> Treadlink
    ensures { treadlink result ≡ field_values layout_treadlink v }
{
    Treadlink {
        fid: Fid((v[0] % U32) as u32),
    }
}

pub fn flat_rreadlink(m: Rreadlink, values: &mut [u64; WIDTH_R])
    ensures { values.new ≡ stored values.old 0 (flat_values (rreadlink m)) }
{
    values[0] = m.target.start as u64;
    values[1] = m.target.len as u64;
}

pub fn rreadlink_of(v: [u64; WIDTH_R]) -> Rreadlink
    ensures { rreadlink result ≡ field_values layout_rreadlink v }
{
    Rreadlink {
        target: Span {
            start: v[0] as usize,
            len: v[1] as usize,
        },
    }
}

pub fn flat_treaddir(m: Treaddir, values: &mut [u64; WIDTH_T])
    ensures { values.new ≡ stored values.old 0 (flat_values (treaddir m)) }
{
    values[0] = m.fid.0 as u64;
    values[1] = m.offset;
    values[2] = m.count as u64;
}

pub fn treaddir_of(v: [u64; WIDTH_T]) -> Treaddir
    ensures { treaddir result ≡ field_values layout_treaddir v }
{
    Treaddir {
        fid: Fid((v[0] % U32) as u32),
        offset: v[1],
        count: (v[2] % U32) as u32,
    }
}

pub fn flat_rreaddir(m: Rreaddir, values: &mut [u64; WIDTH_R])
    ensures { values.new ≡ stored values.old 0 (flat_values (rreaddir m)) }
{
    values[0] = m.data.start as u64;
    values[1] = m.data.len as u64;
}

pub fn rreaddir_of(v: [u64; WIDTH_R]) -> Rreaddir
    ensures { rreaddir result ≡ field_values layout_rreaddir v }
{
    Rreaddir {
        data: Span {
            start: v[0] as usize,
            len: v[1] as usize,
        },
    }
}

pub fn flat_tlink(m: Tlink, values: &mut [u64; WIDTH_T])
    ensures { values.new ≡ stored values.old 0 (flat_values (tlink m)) }
{
    values[0] = m.dfid.0 as u64;
    values[1] = m.fid.0 as u64;
    values[2] = m.name.start as u64;
    values[3] = m.name.len as u64;
}

pub fn tlink_of(v: [u64; WIDTH_T]) -> Tlink
    ensures { tlink result ≡ field_values layout_tlink v }
{
    Tlink {
        dfid: Fid((v[0] % U32) as u32),
        fid: Fid((v[1] % U32) as u32),
        name: Span {
            start: v[2] as usize,
            len: v[3] as usize,
        },
    }
}

pub fn flat_tmkdir(m: Tmkdir, values: &mut [u64; WIDTH_T])
    ensures { values.new ≡ stored values.old 0 (flat_values (tmkdir m)) }
{
    values[0] = m.dfid.0 as u64;
    values[1] = m.name.start as u64;
    values[2] = m.name.len as u64;
    values[3] = m.mode as u64;
    values[4] = m.gid.0 as u64;
}

pub fn tmkdir_of(v: [u64; WIDTH_T]) -> Tmkdir
    ensures { tmkdir result ≡ field_values layout_tmkdir v }
{
    Tmkdir {
        dfid: Fid((v[0] % U32) as u32),
        name: Span {
            start: v[1] as usize,
            len: v[2] as usize,
        },
        mode: (v[3] % U32) as u32,
        gid: Gid((v[4] % U32) as u32),
    }
}

pub fn flat_rmkdir(m: Rmkdir, values: &mut [u64; WIDTH_R])
    ensures { values.new ≡ stored values.old 0 (flat_values (rmkdir m)) }
{
    values[0] = m.qid.ty as u64;
    values[1] = m.qid.version as u64;
    values[2] = m.qid.path;
}

pub fn rmkdir_of(v: [u64; WIDTH_R]) -> Rmkdir
    ensures { rmkdir result ≡ field_values layout_rmkdir v }
{
    Rmkdir {
        qid: Qid {
            ty: (v[0] % U8) as u8,
            version: (v[1] % U32) as u32,
            path: v[2],
        },
    }
}

pub fn flat_trenameat(m: Trenameat, values: &mut [u64; WIDTH_T])
    ensures { values.new ≡ stored values.old 0 (flat_values (trenameat m)) }
{
    values[0] = m.olddirfid.0 as u64;
    values[1] = m.oldname.start as u64;
    values[2] = m.oldname.len as u64;
    values[3] = m.newdirfid.0 as u64;
    values[4] = m.newname.start as u64;
    values[5] = m.newname.len as u64;
}

pub fn trenameat_of(v: [u64; WIDTH_T]) -> Trenameat
    ensures { trenameat result ≡ field_values layout_trenameat v }
{
    Trenameat {
        olddirfid: Fid((v[0] % U32) as u32),
        oldname: Span {
            start: v[1] as usize,
            len: v[2] as usize,
        },
        newdirfid: Fid((v[3] % U32) as u32),
        newname: Span {
            start: v[4] as usize,
            len: v[5] as usize,
        },
    }
}

pub fn flat_tunlinkat(m: Tunlinkat, values: &mut [u64; WIDTH_T])
    ensures { values.new ≡ stored values.old 0 (flat_values (tunlinkat m)) }
{
    values[0] = m.dirfd.0 as u64;
    values[1] = m.name.start as u64;
    values[2] = m.name.len as u64;
    values[3] = m.flags as u64;
}

pub fn tunlinkat_of(v: [u64; WIDTH_T]) -> Tunlinkat
    ensures { tunlinkat result ≡ field_values layout_tunlinkat v }
{
    Tunlinkat {
        dirfd: Fid((v[0] % U32) as u32),
        name: Span {
            start: v[1] as usize,
            len: v[2] as usize,
        },
        flags: (v[3] % U32) as u32,
    }
}
