// The functions of `exports` as a static library, under the names that C links with. Each restates the clauses of the
// function that it calls; `tools/promises --check` compares the two.

#![tactic(auto)]

ghost use Rattle.std.specs.Prelude.{◌≡◌};
ghost use Rattle.utf8.specs.Utf8.{utf8};
ghost use Rattle.fields.specs.Layouts.{strs, quids, q};
ghost use Rattle.fields.specs.Values.{part};
ghost use Rattle.laying.specs.Elements.{element_at};
ghost use Rattle.layouts.specs.Tables.{table_t, table_r, layout_dirent};
ghost use Rattle.framing.specs.Stretch.{frame_at};
ghost use Rattle.pairs.specs.Pairs.{rlerror, pairs};
ghost use Rattle.exports.specs.Steps.{step_outcome};
ghost use Rattle.exports.specs.Elements.{Spanned};
ghost use Rattle.exports.specs.Answers.{FieldsRead, FieldsWritten};
ghost use Rattle.exports.specs.Walks.{twalk_of, TableWrote, rwalk_of};
ghost use Rattle.exports.specs.Frames.{FlatWrote};

use exports::Outcome;
use flat::WIDTH_R;
use layouts::ids::{Fid, Tag};
use layouts::qids::Qid;

#[unsafe(no_mangle)]
pub extern "C" fn sheafsledge_boundary_4() -> u32
    ensures { result ≡ 4 }
{
    exports::sheafsledge_boundary_4()
}

#[unsafe(no_mangle)]
pub extern "C" fn sheafsledge_frame_at(bytes: &[u8], position: usize) -> Outcome
    ensures { result ≡ step_outcome (frame_at table_t table_r bytes.now position) }
{
    exports::stretches::sheafsledge_frame_at(bytes, position)
}

#[unsafe(no_mangle)]
pub extern "C" fn sheafsledge_answers(
    request_ty: u8,
    request_tag: Tag,
    reply_ty: u8,
    reply_tag: Tag,
) -> bool
    ensures { result ≡ pairs table_t rlerror request_ty request_tag.0 reply_ty reply_tag.0 }
{
    exports::stretches::sheafsledge_answers(request_ty, request_tag, reply_ty, reply_tag)
}

#[unsafe(no_mangle)]
pub extern "C" fn sheafsledge_name_at(
    lent: &[u8],
    count: u16,
    start: usize,
    len: usize,
    i: usize,
    span: &mut [u64; 2],
) -> Outcome
    ensures { Spanned (element_at strs lent.now (part count start len) i) span.old span.new result }
{
    exports::walks::sheafsledge_name_at(lent, count, start, len, i, span)
}

#[unsafe(no_mangle)]
pub extern "C" fn sheafsledge_qid_at(
    lent: &[u8],
    count: u16,
    start: usize,
    len: usize,
    i: usize,
    span: &mut [u64; 2],
) -> Outcome
    ensures { Spanned (element_at quids lent.now (part count start len) i) span.old span.new result }
{
    exports::walks::sheafsledge_qid_at(lent, count, start, len, i, span)
}

#[unsafe(no_mangle)]
pub extern "C" fn sheafsledge_read_qid(bytes: &[u8], at: usize, values: &mut [u64; 3]) -> Outcome
    ensures { FieldsRead q bytes.now (Ok at) values.old values.new result }
{
    exports::walks::sheafsledge_read_qid(bytes, at, values)
}

#[unsafe(no_mangle)]
pub extern "C" fn sheafsledge_write_twalk(
    out: &mut [u8],
    lent: &[u8],
    tag: Tag,
    fid: Fid,
    newfid: Fid,
    names: &[[usize; 2]],
) -> Outcome
    ensures { TableWrote 110 tag.0 (twalk_of fid.0 newfid.0 lent.now names.now) out.old out.new result }
{
    exports::walks::sheafsledge_write_twalk(out, lent, tag, fid, newfid, names)
}

#[unsafe(no_mangle)]
pub extern "C" fn sheafsledge_write_rwalk(out: &mut [u8], tag: u16, qids: &[Qid]) -> Outcome
    ensures { TableWrote 111 tag (rwalk_of qids.now) out.old out.new result }
{
    exports::walks::sheafsledge_write_rwalk(out, tag, qids)
}

#[unsafe(no_mangle)]
pub extern "C" fn sheafsledge_read_dirent(bytes: &[u8], at: usize, values: &mut [u64; 7]) -> Outcome
    ensures { FieldsRead layout_dirent bytes.now (Ok at) values.old values.new result }
{
    exports::dirents::sheafsledge_read_dirent(bytes, at, values)
}

#[unsafe(no_mangle)]
pub extern "C" fn sheafsledge_write_dirent(
    out: &mut [u8],
    at: usize,
    lent: &[u8],
    values: &[u64; 7],
) -> Outcome
    ensures { FieldsWritten layout_dirent lent.now values.now out.old (Ok at) out.new result }
{
    exports::dirents::sheafsledge_write_dirent(out, at, lent, values)
}

#[unsafe(no_mangle)]
pub extern "C" fn sheafsledge_write_rgetattr(
    out: &mut [u8],
    lent: &[u8],
    tag: Tag,
    values: &[u64; WIDTH_R],
) -> Outcome
    ensures { FlatWrote table_r 0 25 tag.0 values.now lent.now out.old out.new result }
{
    exports::attributes::sheafsledge_write_rgetattr(out, lent, tag, values)
}

#[unsafe(no_mangle)]
pub extern "C" fn sheafsledge_is_utf8(bytes: &[u8]) -> bool
    ensures { result ≡ utf8 bytes.now }
{
    exports::texts::sheafsledge_is_utf8(bytes)
}
