// Whether images embed a member in a shape: the tests of images, variables, paths and facts, exact whatever the bytes are.
ghost use Rattle.std.specs.Prelude.{[], ◌≡◌, ℕ, ◌+◌, ◌≤◌, length, MatchResult};
ghost use Rattle.std.proofs.Math.Option.{some};
ghost use Rattle.lists.specs.Test.{lowest};
ghost use Rattle.shape.specs.Shape.{Shape};
ghost use Rattle.cover.specs.Test.{facts_in};
ghost use Rattle.factrows.specs.Rows.{rows_test};
ghost use Rattle.layout.specs.Entries.{located_at, Whole};
ghost use Rattle.coverreader.specs.Images.{images_in, ImageCodes};
ghost use Rattle.covering.specs.Images.{image_in, once, found, var_fits_in, path_fits, PathsFit};
ghost use Rattle.covering.specs.Marks.{Marks, Linking};

use factrows::{first_missing, holds_all};
use layout::{fact_span, version_of};
use marks::{clear, is_stop, mark_image, walk};
use number::wide;

// The image of a place; that of a cell which the member lacks is cell 0.
pub(crate) fn image_of(images: &[u8; 15], p: usize) -> u8
    ensures { result ≡ image_in images.now p }
{
    if p < 15 {
        return images[p];
    }
    3
}

// Marks the images, whatever was marked before. False where two are the same.
pub(crate) fn mark_images(images: &[u8; 15], count: usize, marks: &mut [u8; 28]) -> bool
    requires { ImageCodes count 25 images.now }
    ensures { (result ≡ once (images_in count images.now)) × Marks (images_in count images.now) [] marks.new }
{
    clear(marks);
    let mut apart = true;
    for i in 0..count {
        if !mark_image(marks, wide(images[i + 3])) {
            apart = false;
        }
    }
    apart
}

// The lowest variable, from 0, that the member places and that does not stand at the image of that place.
pub(crate) fn variable_elsewhere(
    cert: &[u8],
    first: usize,
    count: usize,
    images: &[u8; 15],
    s: &[u8; 28],
) -> Option<usize>
    requires { (first + count ≤ length cert.now) × (count ≤ 9) }
    ensures { found result ≡ lowest count 0 (var_fits_in cert.now first images.now s.now) }
{
    for i in 0..count {
        let p = wide(cert[first + i]);
        if p != 0 {
            if image_of(images, p) != s[i + 18] {
                return Some(i);
            }
        }
    }
    None
}

// Follows the paths of the links: how many links were followed, or the lowest cell whose path does not end where it should, or shares a cell with that
// of a lower one. What stands for a cell that the member lacks may be met and yet be no end.
pub(crate) fn follow_paths(
    cert: &[u8],
    first: usize,
    count: usize,
    images: &[u8; 15],
    marks: &mut [u8; 28],
    s: &[u8; 28],
) -> Result<u16, usize>
    requires { (member : Shape) × (covered : Shape) × Linking member covered cert.now first count images.now marks.old s.now }
    ensures { (member covered : Shape) → Linking member covered cert.now first count images.now marks.old s.now → MatchResult result (PathsFit member covered (images_in count images.now) count) (λ i. lowest count 0 (path_fits member covered (images_in count images.now)) ≡ some i) }
{
    let mut links = 0;
    for i in 0..count {
        let p = wide(cert[first + i]);
        if p != 0 {
            let from = wide(images[i + 3]);
            let end = wide(image_of(images, p));
            let met = walk(s, marks, wide(s[from]));
            if met.place != end {
                return Err(i);
            }
            if !is_stop(s, marks, met.place) {
                return Err(i);
            }
            links += met.links;
        }
    }
    Ok(links)
}

// The lowest cell, of so many, that is the first of a fact listed for the member which the rows do not have of the images. Version 1 has none.
pub(crate) fn fact_missing(
    cert: &[u8],
    start: usize,
    variables: usize,
    cells: usize,
    images: &[u8; 15],
    facts: &[u16; 28],
) -> Option<usize>
    requires { (Whole cert.now variables start) × ((n : ℕ) × ImageCodes cells n images.now) }
    ensures { (covered : Shape) → found result ≡ lowest cells 0 (facts_in (located_at cert.now variables start).shape covered (images_in cells images.now) (rows_test facts.now)) }
{
    if version_of(cert) != 2 {
        return None;
    }
    let span = fact_span(cert, start, variables);
    let listed = &cert[span.first..span.end];
    if holds_all(facts, listed, images) {
        return None;
    }
    let missing = first_missing(facts, listed, images, cells);
    if missing < cells { Some(missing) } else { None }
}
