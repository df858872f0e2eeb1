// Marks of places by their codes, made ahead of the walk, and the walk along links by marks alone, which counts them.
#![tactic(auto)]

ghost use Rattle.std.specs.Prelude.{List, ◌≡◌, ◌≤◌, length};
ghost use Rattle.layout.specs.ShapeArray.{links_in};
ghost use Rattle.marks.specs.Marks.{no_image, is_free, marking, mark_in, is_stop, walked, stop_from};

use layout::cells_held;
use number::wide;

// A mark: a path may pass, it ends there, one has passed.
const FREE: u8 = 0;

const STOP: u8 = 1;

const USED: u8 = 2;

// Marks nowhere, # and * as stops and nothing else, whatever stood in the array.
pub fn clear(marks: &mut [u8; 28])
    ensures { marks.new ≡ no_image }
{
    *marks = [FREE; 28];
    marks[0] = STOP;
    marks[1] = STOP;
    marks[2] = STOP;
}

// Marks a place as a stop: whether it was free. One past the marks is not, and none is made.
pub fn mark_image(marks: &mut [u8; 28], p: usize) -> bool
    ensures { (result ≡ is_free marks.old p) × (marks.new ≡ marking marks.old p) }
{
    if 28 <= p {
        return false;
    }
    let free = marks[p] == FREE;
    marks[p] = STOP;
    free
}

// The mark of a place in a shape of n cells; one past them counts as used.
fn mark_at(marks: &[u8; 28], n: usize, p: usize) -> u8
    requires { n ≤ 25 }
    ensures { (length marks.now ≡ 28) × (result ≡ mark_in n marks.now p) }
{
    if p < n + 3 {
        return marks[p];
    }
    USED
}

// Whether a place of the shape in an array is a stop.
pub fn is_stop(s: &[u8; 28], marks: &[u8; 28], p: usize) -> bool
    ensures { result ≡ is_stop s.now marks.now p }
{
    mark_at(marks, cells_held(s), p) == STOP
}

// Where a walk came to, and how many links lead there: one to its first place, and one from each place that it passed.
#[derive(Clone, Copy)]
pub struct WalkEnd {
    pub place: usize,
    pub links: u16,
}

// Follows links from the first place of a path on to the first that is not free, and uses those before it.
pub fn walk(s: &[u8; 28], marks: &mut [u8; 28], first: usize) -> WalkEnd
    ensures { (result.place ≡ (walked s.now marks.old first).end) × (result.links ≡ (walked s.now marks.old first).links) × (marks.new ≡ (walked s.now marks.old first).marks) }
{
    let n = cells_held(s);
    let mut p = first;
    let mut links = 1;
    // from link to link, up to a mark: the array says where to, and no index is counted
    while mark_at(marks, n, p) == FREE {
        marks[p] = USED;
        p = wide(s[p]);
        links += 1;
    }
    WalkEnd { place: p, links }
}

// Follows links from a place on to the first stop; nowhere where as many turns as there are cells lead to none.
pub fn stop_from(s: &[u8; 28], marks: &[u8; 28], first: usize) -> usize
    ensures { result ≡ stop_from (length (links_in s.now)) s.now marks.now first }
{
    let n = cells_held(s);
    let mut p = first;
    for _ in 0..n {
        if mark_at(marks, n, p) == STOP {
            return p;
        }
        if n + 3 <= p {
            return 0;
        }
        p = wide(s[p]);
    }
    0
}
