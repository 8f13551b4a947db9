// One guest's session (F15): open requests, fids and places, as the frames of a recording leave them. It knows no message: a request is what it
// asks of fids and what its reply is to do with them. Each rule takes the session and gives the one after it.

#![tactic(auto)]

ghost use Rattle.std.specs.Prelude.{◌≡◌, ◌+◌, ◌<◌};
ghost use Rattle.layouts.specs.Tables.{table_t};
ghost use Rattle.pairs.specs.Pairs.{rlerror, pairs};
ghost use Rattle.session.specs.Rows.{row_of, has, IsRow};
ghost use Rattle.session.specs.About.{first_fid, fid_given, answered_fid, fid_of};
ghost use Rattle.session.specs.Rules.{fresh, accepts, refuses, unless, unfit, asked, effect_of, only_closes, freed, closed, dropped, place_of, reached, seat, held, given, done, finished, replied, answered, stepped, FidPath};

use layouts::ids::Tag;
use numbers::{Fault, Place, Refusal};
use pairs::Mark;
use places::{Places, Reached};
use strings::Span;

// No tag and no fid is so large: a row that is free, and a fid that is not asked for.
pub const FREE: u64 = 4294967296;

pub const NONE: u64 = 4294967297;

// The type of an Rlerror, which answers any request.
const RLERROR: u8 = 7;

// What a request asks, and what its reply does: the fid that must be new, and the one that must be known, whose place a step begins at; the fid that
// is given, moved or dropped; a flush's old tag; and where a walk's names stand, or the name of a file that is made.
#[repr(C)]
#[derive(Clone, Copy)]
pub struct Request {
    pub ty: u8,
    pub new: u64,
    pub known: u64,
    pub to: u64,
    pub old: u16,
    pub count: u16,
    pub start: usize,
    pub len: usize,
}

// The open requests by their tags, the fids with their places, and the places.
#[repr(C)]
#[derive(Clone, Copy)]
pub struct Session {
    pub tags: [u64; 64],
    pub requests: [Request; 64],
    pub fids: [u64; 64],
    pub at: [u8; 64],
    pub places: Places,
}

// What a frame is to a session: a request; a reply of a type, with so many qids if it is an Rwalk; or refused by the codec.
#[derive(Clone, Copy)]
pub enum What {
    Asks(Request),
    Answers(u16),
    Refused(Refusal),
}

#[derive(Clone, Copy)]
pub struct Event {
    pub ty: u8,
    pub tag: u16,
    pub what: What,
}

// The session after a frame, and what is answered. Refused, it is the session before, and therefore no `Result<Session, Refusal>`.
#[derive(Clone, Copy)]
pub struct Stepped {
    pub session: Session,
    pub answer: Result<(), Refusal>,
}

// How a fid comes to its place.
#[derive(Clone, Copy, Debug, PartialEq, Eq)]
pub enum Way {
    Root,
    Walk,
    Child,
    Copy,
}

// What an answering reply does.
#[derive(Clone, Copy, Debug, PartialEq, Eq)]
pub enum Effect {
    Nothing,
    Empties,
    Flushes,
    Drops,
    Gives(Way),
}

// A session before its first frame.
pub fn fresh() -> Session
    ensures { result ≡ fresh }
{
    let blank = Request {
        ty: 0,
        new: 0,
        known: 0,
        to: 0,
        old: 0,
        count: 0,
        start: 0,
        len: 0,
    };
    Session {
        tags: [FREE; 64],
        requests: [blank; 64],
        fids: [FREE; 64],
        at: [0; 64],
        places: places::empty(),
    }
}

// The first row that has the key.
fn find(keys: &[u64; 64], key: u64) -> Option<usize>
    ensures { IsRow (row_of key keys.now) result }
{
    keys.iter().position(|&k| k == key)
}

// Whether a row has the key.
fn has(keys: &[u64; 64], key: u64) -> bool
    ensures { result ≡ has key keys.now }
{
    find(keys, key).is_some()
}

// The key's row is free.
fn release(keys: &mut [u64; 64], key: u64)
    ensures { keys.new ≡ freed key keys.old }
{
    if let Some(i) = find(keys, key) {
        keys[i] = FREE;
    }
}

// Whether the fids are as a request asks: 22, then 23.
#[tactic(auto, unfolding(crate::specs::Rules::unfit))]
fn unfit(fids: &[u64; 64], r: Request) -> Result<(), Refusal>
    ensures { result ≡ unfit fids.now r }
{
    if has(fids, r.new) {
        return Err(Refusal::FidInUse);
    }
    if r.known == NONE || has(fids, r.known) {
        return Ok(());
    }
    Err(Refusal::FidUnknown)
}

fn accepts(session: Session) -> Stepped
    ensures { result ≡ accepts session }
{
    Stepped {
        session,
        answer: Ok(()),
    }
}

fn refuses(session: Session, k: Refusal) -> Stepped
    ensures { result ≡ refuses session k }
{
    Stepped {
        session,
        answer: Err(k),
    }
}

// A request: 20, 22, 23, 24.
#[tactic(auto, unfolding(crate::specs::Rules::asked))]
fn ask(mut s: Session, tag: u16, r: Request) -> Stepped
    ensures { result ≡ asked s tag r }
{
    if has(&s.tags, tag as u64) {
        return refuses(s, Refusal::TagOpen);
    }
    if let Err(k) = unfit(&s.fids, r) {
        return refuses(s, k);
    }
    let Some(i) = find(&s.tags, FREE) else {
        return refuses(s, Refusal::TableFull);
    };
    s.tags[i] = tag as u64;
    s.requests[i] = r;
    accepts(s)
}

// What the reply of a type does to a request of one; of an Rwalk, whether it has as many qids as names.
#[tactic(auto, unfolding(crate::specs::Rules::effect_of))]
fn effect_of(asked: u8, ty: u8, whole: bool) -> Effect
    ensures { result ≡ effect_of asked ty whole }
{
    if ty == RLERROR {
        return match asked {
            120 | 122 => Effect::Drops,
            _ => Effect::Nothing,
        };
    }
    match asked {
        100 => Effect::Empties,
        108 => Effect::Flushes,
        102 | 104 => Effect::Gives(Way::Root),
        110 if whole => Effect::Gives(Way::Walk),
        14 => Effect::Gives(Way::Child),
        30 => Effect::Gives(Way::Copy),
        120 | 122 => Effect::Drops,
        _ => Effect::Nothing,
    }
}

// The tag's row is free.
#[tactic(auto, unfolding(crate::specs::Rules::closed))]
fn closed(mut s: Session, tag: u64) -> Session
    ensures { result ≡ closed s tag }
{
    release(&mut s.tags, tag);
    s
}

// The fid's row is free.
#[tactic(auto, unfolding(crate::specs::Rules::dropped))]
fn dropped(mut s: Session, fid: u64) -> Session
    ensures { result ≡ dropped s fid }
{
    release(&mut s.fids, fid);
    s
}

#[tactic(auto, unfolding(crate::specs::Rules::place_of))]
fn place_of(s: Session, fid: u64) -> u8
    ensures { result ≡ place_of s fid }
{
    match find(&s.fids, fid) {
        Some(i) => s.at[i],
        None => 0,
    }
}

// The place that a fid is given, among the places as they then are; 24.
#[tactic(auto, unfolding(crate::specs::Rules::reached))]
fn reach(s: Session, way: Way, r: Request, stretch: &[u8]) -> Reached
    ensures { result ≡ reached stretch.now s way r }
{
    let from = place_of(s, r.known);
    match way {
        Way::Root => places::root(s.places),
        Way::Walk => places::walk(s.places, from, stretch, r.start, r.count),
        Way::Child => {
            let name = Span {
                start: r.start,
                len: r.len,
            };
            places::child(s.places, from, name)
        }
        Way::Copy => Reached {
            places: s.places,
            at: Ok(from),
        },
    }
}

// The row that a fid is to have: its own, or else the first that is free.
fn seat(fids: &[u64; 64], fid: u64) -> Option<usize>
    ensures { IsRow (seat fid fids.now) result }
{
    find(fids, fid).or_else(|| find(fids, FREE))
}

// The fid at a row, with its place.
fn held(mut s: Session, i: usize, fid: u64, place: u8, p: Places) -> Session
    requires { i < 64 }
    ensures { result ≡ held s i fid place p }
{
    s.fids[i] = fid;
    s.at[i] = place;
    s.places = p;
    s
}

// A fid is given the place that was reached; 24.
#[tactic(auto, unfolding(crate::specs::Rules::given))]
fn give(s: Session, fid: u64, to: Reached) -> Stepped
    ensures { result ≡ given s fid to }
{
    let place = match to.at {
        Ok(place) => place,
        Err(k) => return refuses(s, k),
    };
    match seat(&s.fids, fid) {
        Some(i) => accepts(held(s, i, fid, place, to.places)),
        None => refuses(s, Refusal::TableFull),
    }
}

// A fid is dropped: 22, 23 asked again.
fn drops(s: Session, r: Request) -> Stepped
    ensures { result ≡ unless (unfit s.fids r) s (accepts (dropped s r.to)) }
{
    if let Err(k) = unfit(&s.fids, r) {
        return refuses(s, k);
    }
    accepts(dropped(s, r.to))
}

// A fid is given or moved: 22, 23 asked again; 24.
fn gives(s: Session, way: Way, r: Request, stretch: &[u8]) -> Stepped
    ensures { result ≡ unless (unfit s.fids r) s (given s r.to (reached stretch.now s way r)) }
{
    if let Err(k) = unfit(&s.fids, r) {
        return refuses(s, k);
    }
    give(s, r.to, reach(s, way, r, stretch))
}

// What an answering reply leaves, but for its tag, which is still open.
#[tactic(auto, unfolding(crate::specs::Rules::done))]
fn done(s: Session, e: Effect, r: Request, stretch: &[u8]) -> Stepped
    ensures { result ≡ done stretch.now s e r }
{
    match e {
        Effect::Nothing => accepts(s),
        Effect::Empties => accepts(fresh()),
        Effect::Flushes => accepts(closed(s, r.old as u64)),
        Effect::Drops => drops(s, r),
        Effect::Gives(way) => gives(s, way, r, stretch),
    }
}

// The tag is closed, unless the reply is refused.
#[tactic(auto, unfolding(crate::specs::Rules::finished))]
fn finish(s: Session, tag: u16, d: Stepped) -> Stepped
    ensures { result ≡ finished s tag d }
{
    match d.answer {
        Ok(()) => accepts(closed(d.session, tag as u64)),
        Err(k) => refuses(s, k),
    }
}

fn answers(asked: u8, tag: u16, ty: u8) -> bool
    ensures { result ≡ pairs table_t rlerror asked tag ty tag }
{
    let request = Mark {
        ty: asked,
        tag: Tag(tag),
    };
    let reply = Mark { ty, tag: Tag(tag) };
    pairs::answers(request, reply)
}

// Whether a reply does nothing but close its tag, as most do. `reply_to` would say the same of them, with more copies of the record.
#[tactic(auto, unfolding(crate::specs::Rules::only_closes))]
fn only_closes(asked: u8, tag: u16, ty: u8, whole: bool) -> bool
    ensures { result ≡ only_closes asked tag ty whole }
{
    answers(asked, tag, ty) && matches!(effect_of(asked, ty, whole), Effect::Nothing)
}

// A reply to the request that is open under its tag: 21, 22, 23, 24.
#[tactic(auto, unfolding(crate::specs::Rules::replied))]
fn reply_to(s: Session, stretch: &[u8], tag: u16, ty: u8, qids: u16, r: Request) -> Stepped
    ensures { result ≡ replied stretch.now s tag ty qids r }
{
    if answers(r.ty, tag, ty) {
        let e = effect_of(r.ty, ty, qids == r.count);
        return finish(s, tag, done(s, e, r, stretch));
    }
    refuses(s, Refusal::NoRequest)
}

// A reply: 21, and then by the request under its tag.
#[inline(never)] // In line, LLVM leaves fewer copies of the record out, and each is 9 KB.
#[tactic(auto, unfolding(crate::specs::Rules::answered))]
fn reply(mut s: Session, stretch: &[u8], tag: u16, ty: u8, qids: u16) -> Stepped
    ensures { result ≡ answered stretch.now s tag ty qids }
{
    let Some(i) = find(&s.tags, tag as u64) else {
        return refuses(s, Refusal::NoRequest);
    };
    let r = s.requests[i];
    if only_closes(r.ty, tag, ty, qids == r.count) {
        s.tags[i] = FREE;
        return accepts(s);
    }
    reply_to(s, stretch, tag, ty, qids, r)
}

// The session after a frame, and what is answered.
#[tactic(auto, unfolding(crate::specs::Rules::stepped))]
pub fn step(s: Session, stretch: &[u8], e: Event) -> Stepped
    ensures { result ≡ stepped stretch.now s e }
{
    match e.what {
        What::Asks(r) => ask(s, e.tag, r),
        What::Answers(qids) => reply(s, stretch, e.tag, e.ty, qids),
        What::Refused(k) => refuses(s, k),
    }
}

// The one session record, altered by a frame as it comes: what is answered.
pub fn alter(s: &mut Session, stretch: &[u8], e: Event) -> Result<(), Refusal>
    ensures { (result ≡ (stepped stretch.now s.old e).answer) × (s.new ≡ (stepped stretch.now s.old e).session) }
{
    let r = step(*s, stretch, e);
    *s = r.session;
    r.answer
}

// The same by value again, so that whoever goes from frame to frame needs no proof by hand.
pub fn turn(s: Session, stretch: &[u8], e: Event) -> Stepped
    ensures { result ≡ stepped stretch.now s e }
{
    let mut t = s;
    let answer = alter(&mut t, stretch, e);
    Stepped { session: t, answer }
}

// The fid that a request names first.
#[tactic(auto, unfolding(crate::specs::About::first_fid))]
fn first_fid(r: Request) -> u64
    ensures { result ≡ first_fid r }
{
    match r.ty {
        102 | 104 => r.to,
        _ => r.known,
    }
}

// The fid that a reply gives or moves.
#[tactic(auto, unfolding(crate::specs::About::fid_given))]
fn fid_given(e: Effect, to: u64) -> u64
    ensures { result ≡ fid_given e to }
{
    match e {
        Effect::Gives(_) => to,
        _ => NONE,
    }
}

// The fid of the reply to the request that is open under its tag.
#[tactic(auto, unfolding(crate::specs::About::answered_fid))]
fn answered_fid(s: Session, tag: u16, ty: u8, qids: u16) -> u64
    ensures { result ≡ answered_fid s tag ty qids }
{
    let Some(i) = find(&s.tags, tag as u64) else {
        return NONE;
    };
    let r = s.requests[i];
    fid_given(effect_of(r.ty, ty, qids == r.count), r.to)
}

// The fid that a frame is about, if it is accepted: whose path a reader of the recording wants to see.
#[tactic(auto, unfolding(crate::specs::About::fid_of))]
pub fn fid_of(s: Session, e: Event) -> u64
    ensures { result ≡ fid_of s e }
{
    match e.what {
        What::Asks(r) => first_fid(r),
        What::Answers(qids) => answered_fid(s, e.tag, e.ty, qids),
        What::Refused(_) => NONE,
    }
}

// The path of a fid's place at the front of an output, and its length: 23, 11.
#[tactic(auto, unfolding(crate::specs::Rules::place_of))]
pub fn write_path(out: &mut [u8], s: Session, fid: u32, stretch: &[u8]) -> Place
    ensures { FidPath stretch.now s fid out.old out.new result }
{
    if let Some(i) = find(&s.fids, fid as u64) {
        return places::write_path(out, s.places, s.at[i], stretch);
    }
    Err(Fault(Refusal::FidUnknown, 0))
}
