// Written by tools/messages from its table of messages.
// The records of attributes, laid flat and put together.

ghost use Rattle.std.specs.Prelude.{◌≡◌};
ghost use Rattle.layouts.specs.Tables.{layout_tstatfs, layout_rstatfs, layout_tgetattr, layout_rgetattr, layout_tsetattr, layout_txattrwalk, layout_rxattrwalk, layout_txattrcreate};
ghost use Rattle.metadata.specs.Records.{tstatfs, rstatfs, tgetattr, rgetattr, tsetattr, txattrwalk, rxattrwalk, txattrcreate};
ghost use Rattle.flat.specs.Flat.{flat_values, stored, field_values};

use crate::{U8, U32, WIDTH_R, WIDTH_T};
use layouts::ids::{Fid, Gid};
use layouts::qids::Qid;
use metadata::attributes::{
    Rgetattr, Rstatfs, Rxattrwalk, Tgetattr, Tsetattr, Tstatfs, Txattrcreate, Txattrwalk,
};
use strings::Span;

pub fn flat_tstatfs(m: Tstatfs, values: &mut [u64; WIDTH_T])
    ensures { values.new ≡ stored values.old 0 (flat_values (tstatfs m)) }
{
    values[0] = m.fid.0 as u64;
}

pub fn tstatfs_of(v: [u64; WIDTH_T]) -> Tstatfs
    ensures { tstatfs result ≡ field_values layout_tstatfs v }
{
    Tstatfs {
        fid: Fid((v[0] % U32) as u32),
    }
}

pub fn flat_rstatfs(m: Rstatfs, values: &mut [u64; WIDTH_R])
    ensures { values.new ≡ stored values.old 0 (flat_values (rstatfs m)) }
{
    values[0] = m.ty as u64;
    values[1] = m.bsize as u64;
    values[2] = m.blocks;
    values[3] = m.bfree;
    values[4] = m.bavail;
    values[5] = m.files;
    values[6] = m.ffree;
    values[7] = m.fsid;
    values[8] = m.namelen as u64;
}

pub fn rstatfs_of(v: [u64; WIDTH_R]) -> Rstatfs
    ensures { rstatfs result ≡ field_values layout_rstatfs v }
{
    Rstatfs {
        ty: (v[0] % U32) as u32,
        bsize: (v[1] % U32) as u32,
        blocks: v[2],
        bfree: v[3],
        bavail: v[4],
        files: v[5],
        ffree: v[6],
        fsid: v[7],
        namelen: (v[8] % U32) as u32,
    }
}

pub fn flat_tgetattr(m: Tgetattr, values: &mut [u64; WIDTH_T])
    ensures { values.new ≡ stored values.old 0 (flat_values (tgetattr m)) }
{
    values[0] = m.fid.0 as u64;
    values[1] = m.request_mask;
}

pub fn tgetattr_of(v: [u64; WIDTH_T]) -> Tgetattr
    ensures { tgetattr result ≡ field_values layout_tgetattr v }
{
    Tgetattr {
        fid: Fid((v[0] % U32) as u32),
        request_mask: v[1],
    }
}

pub fn flat_rgetattr(m: Rgetattr, values: &mut [u64; WIDTH_R])
    ensures { values.new ≡ stored values.old 0 (flat_values (rgetattr m)) }
{
    values[0] = m.valid;
    values[1] = m.qid.ty as u64;
    values[2] = m.qid.version as u64;
    values[3] = m.qid.path;
    values[4] = m.mode as u64;
    values[5] = m.uid as u64;
    values[6] = m.gid.0 as u64;
    values[7] = m.nlink;
    values[8] = m.rdev;
    values[9] = m.size;
    values[10] = m.blksize;
    values[11] = m.blocks;
    values[12] = m.atime_sec;
    values[13] = m.atime_nsec;
    values[14] = m.mtime_sec;
    values[15] = m.mtime_nsec;
    values[16] = m.ctime_sec;
    values[17] = m.ctime_nsec;
    values[18] = m.btime_sec;
    values[19] = m.btime_nsec;
    values[20] = m.gen_;
    values[21] = m.data_version;
}

pub fn rgetattr_of(v: [u64; WIDTH_R]) -> Rgetattr
    ensures { rgetattr result ≡ field_values layout_rgetattr v }
{
    Rgetattr {
        valid: v[0],
        qid: Qid {
            ty: (v[1] % U8) as u8,
            version: (v[2] % U32) as u32,
            path: v[3],
        },
        mode: (v[4] % U32) as u32,
        uid: (v[5] % U32) as u32,
        gid: Gid((v[6] % U32) as u32),
        nlink: v[7],
        rdev: v[8],
        size: v[9],
        blksize: v[10],
        blocks: v[11],
        atime_sec: v[12],
        atime_nsec: v[13],
        mtime_sec: v[14],
        mtime_nsec: v[15],
        ctime_sec: v[16],
        ctime_nsec: v[17],
        btime_sec: v[18],
        btime_nsec: v[19],
        gen_: v[20],
        data_version: v[21],
    }
}

pub fn flat_tsetattr(m: Tsetattr, values: &mut [u64; WIDTH_T])
    ensures { values.new ≡ stored values.old 0 (flat_values (tsetattr m)) }
{
    values[0] = m.fid.0 as u64;
    values[1] = m.valid as u64;
    values[2] = m.mode as u64;
    values[3] = m.uid as u64;
    values[4] = m.gid.0 as u64;
    values[5] = m.size;
    values[6] = m.atime_sec;
    values[7] = m.atime_nsec;
    values[8] = m.mtime_sec;
    values[9] = m.mtime_nsec;
}

pub fn tsetattr_of(v: [u64; WIDTH_T]) -> Tsetattr
    ensures { tsetattr result ≡ field_values layout_tsetattr v }
{
    Tsetattr {
        fid: Fid((v[0] % U32) as u32),
        valid: (v[1] % U32) as u32,
        mode: (v[2] % U32) as u32,
        uid: (v[3] % U32) as u32,
        gid: Gid((v[4] % U32) as u32),
        size: v[5],
        atime_sec: v[6],
        atime_nsec: v[7],
        mtime_sec: v[8],
        mtime_nsec: v[9],
    }
}

pub fn flat_txattrwalk(m: Txattrwalk, values: &mut [u64; WIDTH_T])
    ensures { values.new ≡ stored values.old 0 (flat_values (txattrwalk m)) }
{
    values[0] = m.fid.0 as u64;
    values[1] = m.newfid.0 as u64;
    values[2] = m.name.start as u64;
    values[3] = m.name.len as u64;
}

pub fn txattrwalk_of(v: [u64; WIDTH_T]) -> Txattrwalk
    ensures { txattrwalk result ≡ field_values layout_txattrwalk v }
{
    Txattrwalk {
        fid: Fid((v[0] % U32) as u32),
        newfid: Fid((v[1] % U32) as u32),
        name: Span {
            start: v[2] as usize,
            len: v[3] as usize,
        },
    }
}

pub fn flat_rxattrwalk(m: Rxattrwalk, values: &mut [u64; WIDTH_R])
    ensures { values.new ≡ stored values.old 0 (flat_values (rxattrwalk m)) }
{
    values[0] = m.size;
}

pub fn rxattrwalk_of(v: [u64; WIDTH_R]) -> Rxattrwalk
    ensures { rxattrwalk result ≡ field_values layout_rxattrwalk v }
{
    Rxattrwalk { size: v[0] }
}

pub fn flat_txattrcreate(m: Txattrcreate, values: &mut [u64; WIDTH_T])
    ensures { values.new ≡ stored values.old 0 (flat_values (txattrcreate m)) }
{
    values[0] = m.fid.0 as u64;
    values[1] = m.name.start as u64;
    values[2] = m.name.len as u64;
    values[3] = m.attr_size;
    values[4] = m.flags as u64;
}

pub fn txattrcreate_of(v: [u64; WIDTH_T]) -> Txattrcreate
    ensures { txattrcreate result ≡ field_values layout_txattrcreate v }
{
    Txattrcreate {
        fid: Fid((v[0] % U32) as u32),
        name: Span {
            start: v[1] as usize,
            len: v[2] as usize,
        },
        attr_size: v[3],
        flags: (v[4] % U32) as u32,
    }
}
