// The places of a session (F15.3, F15.4): each is a root, or was reached from an older place by a name. A name is a span of the stretch, so
// whoever steps or asks for a path lends the stretch. A place is a number of one byte, so that no place is outside the table.

#![tactic(auto)]

ghost use Rattle.std.specs.Prelude.{◌≡◌, suc, ◌+◌, ◌≤◌, ◌<◌, ◌∷◌, length, leb, get_or, Ok};
ghost use Rattle.numbers.specs.Places.{over, Put};
ghost use Rattle.places.specs.Places.{unused, added, root, child, is_up, step, onward, walked, name_in, path};

use numbers::{Fault, Place, Read, Refusal};
use strings::Span;

// The rows of the places; the first `used` of them are places. A root's older place is itself.
#[repr(C)]
#[derive(Clone, Copy)]
pub struct Places {
    pub older: [u8; 256],
    pub starts: [usize; 256],
    pub lens: [usize; 256],
    pub used: usize,
}

// The places as they are after a step, and where it ends; or why at none.
#[derive(Clone, Copy)]
pub struct Reached {
    pub places: Places,
    pub at: Result<u8, Refusal>,
}

// No places.
pub fn empty() -> Places
    ensures { result ≡ unused }
{
    Places {
        older: [0; 256],
        starts: [0; 256],
        lens: [0; 256],
        used: 0,
    }
}

// A new place, the next row; or 24.
#[tactic(auto, unfolding(crate::specs::Places::added))]
fn add(p: Places, older: usize, name: Span) -> Reached
    requires { p.used < 256 → older < 256 }
    ensures { result ≡ added p older name.start name.len }
{
    let i = p.used;
    if i >= 256 {
        return Reached {
            places: p,
            at: Err(Refusal::TableFull),
        };
    }
    let mut places = p;
    places.older[i] = older as u8;
    places.starts[i] = name.start;
    places.lens[i] = name.len;
    places.used = i + 1;
    Reached {
        places,
        at: Ok(i as u8),
    }
}

// A new root; or 24.
pub fn root(p: Places) -> Reached
    ensures { result ≡ root p }
{
    add(p, p.used, Span { start: 0, len: 0 })
}

// A new place, reached from another by a name, whatever the name; or 24.
pub fn child(p: Places, from: u8, name: Span) -> Reached
    ensures { result ≡ child p from name.start name.len }
{
    add(p, from as usize, name)
}

// Whether a name is `..`.
fn is_up(stretch: &[u8], name: Span) -> bool
    ensures { result ≡ is_up (name_in stretch.now name.start name.len) }
{
    let text = strings::shown(stretch, name);
    text.len() == 2 && text[0] == b'.' && text[1] == b'.'
}

// One step of a walk: `..` makes no place.
#[tactic(auto, unfolding(crate::specs::Places::step))]
pub fn step(p: Places, from: u8, stretch: &[u8], name: Span) -> Reached
    ensures { result ≡ step stretch.now p from name.start name.len }
{
    if is_up(stretch, name) {
        return Reached {
            places: p,
            at: Ok(p.older[from as usize]),
        };
    }
    child(p, from, name)
}

// One step more by a name that was read; a walk that is refused stays so.
#[tactic(auto, unfolding(crate::specs::Places::onward))]
fn onward(r: Reached, stretch: &[u8], name: Read<Span>) -> Reached
    ensures { result ≡ onward stretch.now name.value.start name.value.len name.next r }
{
    let Ok(from) = r.at else {
        return r;
    };
    match name.next {
        Ok(_) => step(r.places, from, stretch, name.value),
        Err(Fault(k, _)) => Reached {
            places: r.places,
            at: Err(k),
        },
    }
}

// The steps of a walk by so many names, which stand at a place of the stretch one after the other.
pub fn walk(p: Places, from: u8, stretch: &[u8], names: usize, count: u16) -> Reached
    ensures { result ≡ walked stretch.now count (Ok names) (record { places = p; at = Ok from }) }
{
    let mut r = Reached {
        places: p,
        at: Ok(from),
    };
    let mut place = Ok(names);
    for _ in 0..count {
        let name = strings::read_str(stretch, place);
        r = onward(r, stretch, name);
        place = name.next;
    }
    r
}

// '/' and a name, over the output from `n` on: where they end.
fn put_name(out: &mut [u8], n: usize, stretch: &[u8], name: Span) -> usize
    requires { n + suc (length (name_in stretch.now name.start name.len)) ≤ length out.old }
    ensures { (result ≡ n + suc (length (name_in stretch.now name.start name.len))) × (out.new ≡ over out.old n (47 ∷ name_in stretch.now name.start name.len)) }
{
    let slash = numbers::put_u8(out, Ok(n), b'/');
    let _ = strings::put_bytes(out, slash, stretch, name);
    let text = strings::shown(stretch, name);
    n + 1 + text.len()
}

impl Places {
    // The name by which a place was reached.
    fn name_of(&self, place: u8) -> Span
        ensures { (result.start ≡ get_or self.now.starts place 0) × (result.len ≡ get_or self.now.lens place 0) }
    {
        let i = place as usize;
        Span {
            start: self.starts[i],
            len: self.lens[i],
        }
    }

    // The path of a place over the front of the output: that of the older place, and then the name. The place's number falls. Its length.
    fn put_path(&self, out: &mut [u8], place: u8, stretch: &[u8]) -> usize
        requires { length (path stretch.now self.now place) ≤ length out.old }
        ensures { (result ≡ length (path stretch.now self.now place)) × (out.new ≡ over out.old 0 (path stretch.now self.now place)) }
    {
        let older = self.older[place as usize];
        if older >= place {
            return 0;
        }
        let n = self.put_path(out, older, stretch);
        put_name(out, n, stretch, self.name_of(place))
    }

    // Whether the path of a place has at most so many bytes. No sum is formed that could wrap. No `for`: a step is to the older place.
    fn fits(&self, place: u8, stretch: &[u8], room: usize) -> bool
        ensures { result ≡ leb (length (path stretch.now self.now place)) room }
    {
        let mut at = place;
        let mut left = room;
        loop {
            let older = self.older[at as usize];
            if older >= at {
                return true;
            }
            let text = strings::shown(stretch, self.name_of(at));
            if left <= text.len() {
                return false;
            }
            left = left - text.len() - 1;
            at = older;
        }
    }
}

// The path of a place at the front of an output, and its length; or 11.
pub fn write_path(out: &mut [u8], p: Places, place: u8, stretch: &[u8]) -> Place
    ensures { Put (path stretch.now p place) out.old (Ok 0) out.new result }
{
    if p.fits(place, stretch, out.len()) {
        let n = p.put_path(out, place, stretch);
        return Ok(n);
    }
    Err(Fault(Refusal::NoRoom, 0))
}
