// The exact test of one cover, rule by rule in document 02's order, and what it names where a rule is broken.
ghost use Rattle.std.specs.Prelude.{[], ◌≡◌, ℕ, ◌+◌, ◌<◌, get_or, IfOk};
ghost use Rattle.std.proofs.Math.Option.{Option, some};
ghost use Rattle.lists.specs.Test.{lowest, number_or};
ghost use Rattle.shape.specs.Shape.{Shape};
ghost use Rattle.cover.specs.Test.{link_meets, answer_by, links_followed};
ghost use Rattle.factrows.specs.Rows.{rows_test};
ghost use Rattle.layout.specs.Entries.{located_at};
ghost use Rattle.layout.specs.ShapeArray.{shape_in};
ghost use Rattle.covering.specs.Answer.{broken_of, answer_of, Tested, last_answer};
ghost use Rattle.coverreader.specs.Images.{images_in, ImageCodes};
ghost use Rattle.covering.specs.Images.{once_at, found, path_fits};
ghost use Rattle.covering.specs.Marks.{Marks, Linking};

use crate::fitting::{fact_missing, follow_paths, image_of, mark_images, variable_elsewhere};
use marks::stop_from;
use number::wide;
use verdict::{
    Broken, FACT_MISSING, IMAGE_TWICE, LINK_MISSES, SHARED_PATH, VARIABLE_ELSEWHERE, WRONG_STATE,
};

// Whether no other cell has the image of cell i.
fn image_once(images: &[u8; 15], count: usize, i: usize) -> bool
    requires { ImageCodes count 25 images.now × (i < count) }
    ensures { result ≡ once_at (images_in count images.now) i }
{
    for j in 0..count {
        if i != j {
            if images[i + 3] == images[j + 3] {
                return false;
            }
        }
    }
    true
}

// The lowest cell whose image another cell has too; as many as there are where none is so, which need be no `Option`: it is asked only where there is one.
fn image_twice(images: &[u8; 15], count: usize) -> usize
    requires { ImageCodes count 25 images.now }
    ensures { result ≡ number_or count (lowest count 0 (once_at (images_in count images.now))) }
{
    for i in 0..count {
        if !image_once(images, count, i) {
            return i;
        }
    }
    count
}

// The lowest cell whose link misses.
fn link_misses(
    cert: &[u8],
    first: usize,
    count: usize,
    images: &[u8; 15],
    marks: &[u8; 28],
    s: &[u8; 28],
) -> Option<usize>
    requires { (member : Shape) × (covered : Shape) × Linking member covered cert.now first count images.now marks.now s.now }
    ensures { (member covered : Shape) → Linking member covered cert.now first count images.now marks.now s.now → found result ≡ lowest count 0 (link_meets member covered (images_in count images.now)) }
{
    for i in 0..count {
        let p = wide(cert[first + i]);
        if p != 0 {
            let from = wide(images[i + 3]);
            let end = wide(image_of(images, p));
            if stop_from(s, marks, wide(s[from])) != end {
                return Some(i);
            }
        }
    }
    None
}

// What rules 4 and 5 say, where the path of cell i is the first that fails: a link that misses, of any cell, comes before a shared path. No path has
// used a cell in these marks. Rule 6 comes later, whatever it says.
fn broken_path(
    cert: &[u8],
    start: usize,
    variables: usize,
    images: &[u8; 15],
    marks: &[u8; 28],
    s: &[u8; 28],
    i: usize,
) -> Broken
    requires { (Tested cert.now variables start images.now s.now) × (Marks (images_in (get_or cert.now (start + 1) 0) images.now) [] marks.now) × (i < get_or cert.now (start + 1) 0) × (lowest (get_or cert.now (start + 1) 0) 0 (path_fits (located_at cert.now variables start).shape (shape_in variables s.now) (images_in (get_or cert.now (start + 1) 0) images.now)) ≡ some i) }
    ensures { (missing : Option ℕ) → broken_of result ≡ last_answer (located_at cert.now variables start).shape (shape_in variables s.now) (images_in (get_or cert.now (start + 1) 0) images.now) (get_or cert.now (start + 1) 0) missing }
{
    let cells = wide(cert[start + 1]);
    match link_misses(cert, start + 2 + variables, cells, images, marks, s) {
        Some(missed) => Broken {
            rule: LINK_MISSES,
            name: missed as u8,
        },
        None => Broken {
            rule: SHARED_PATH,
            name: i as u8,
        },
    }
}

// What the test of a cover says, of a shape at a state, with the rows of its facts, by the member that starts at a place: it holds, with the number of
// links followed, or which rule is broken first.
pub(crate) fn cover_answer(
    cert: &[u8],
    start: usize,
    variables: usize,
    state: u8,
    images: &[u8; 15],
    s: &[u8; 28],
    facts: &[u16; 28],
) -> Result<u16, Broken>
    requires { Tested cert.now variables start images.now s.now }
    ensures answer { answer_of result ≡ answer_by (rows_test facts.now) (located_at cert.now variables start) (images_in (get_or cert.now (start + 1) 0) images.now) (record { state = state; shape = shape_in variables s.now }) }
    ensures links { IfOk result (λ links. links ≡ links_followed (located_at cert.now variables start).shape (shape_in variables s.now) (images_in (get_or cert.now (start + 1) 0) images.now)) }
{
    if cert[start] != state {
        return Err(Broken {
            rule: WRONG_STATE,
            name: 0,
        });
    }
    let cells = wide(cert[start + 1]);
    let mut marks = [0u8; 28];
    if !mark_images(images, cells, &mut marks) {
        let twice = image_twice(images, cells);
        return Err(Broken {
            rule: IMAGE_TWICE,
            name: twice as u8,
        });
    }
    if let Some(elsewhere) = variable_elsewhere(cert, start + 2, variables, images, s) {
        return Err(Broken {
            rule: VARIABLE_ELSEWHERE,
            name: (elsewhere + 1) as u8,
        });
    }
    let mut used = marks;
    match follow_paths(cert, start + 2 + variables, cells, images, &mut used, s) {
        Err(i) => Err(broken_path(cert, start, variables, images, &marks, s, i)),
        Ok(links) => match fact_missing(cert, start, variables, cells, images, facts) {
            Some(missing) => Err(Broken {
                rule: FACT_MISSING,
                name: missing as u8,
            }),
            None => Ok(links),
        },
    }
}
