// A quick test that images embed a member in a shape. It takes images of one byte only, and marks each of them as it is read.
ghost use Rattle.std.specs.Prelude.{true, [], ◌≡◌, ◌+◌, ◌≤◌, length, get_or, IfSome};
ghost use Rattle.std.proofs.Math.Option.{none};
ghost use Rattle.lists.specs.Test.{lowest};
ghost use Rattle.shape.specs.Shape.{Shape};
ghost use Rattle.layout.specs.Entries.{located_at, Whole};
ghost use Rattle.coverreader.specs.Images.{images_in, ImageCodes};
ghost use Rattle.covering.specs.Images.{var_fits_in, PathsFit};
ghost use Rattle.covering.specs.Marks.{Linking};
ghost use Rattle.covering.specs.Quick.{ReadAndMarked, ImagesEmbed};

use coverreader::NO_IMAGES;
use marks::{clear, mark_image, walk};
use number::wide;

// Reads so many images, each one byte and below n, and marks them, whatever was marked before. It ends, with false, where an image is not so, or was
// read before.
fn read_and_mark(
    cert: &[u8],
    first: usize,
    count: usize,
    n: usize,
    images: &mut [u8; 15],
    marks: &mut [u8; 28],
) -> bool
    requires { (first + count ≤ length cert.now) × (count ≤ 12) × (n ≤ 25) × ImageCodes 0 n images.old }
    ensures { ReadAndMarked cert.now first n count result images.new marks.new }
{
    clear(marks);
    for i in 0..count {
        let c = cert[first + i];
        if n <= wide(c) {
            return false;
        }
        if !mark_image(marks, wide(c) + 3) {
            return false;
        }
        images[i + 3] = c + 3;
    }
    true
}

// Whether each variable that the member places stands at the image of that place. False also where a place is no cell that a member may have.
fn quick_vars(cert: &[u8], first: usize, count: usize, images: &[u8; 15], s: &[u8; 28]) -> bool
    requires { (first + count ≤ length cert.now) × (count ≤ 9) }
    ensures { result ≡ true → lowest count 0 (var_fits_in cert.now first images.now s.now) ≡ none }
{
    for i in 0..count {
        let p = wide(cert[first + i]);
        if p != 0 {
            if 15 <= p {
                return false;
            }
            if images[p] != s[i + 18] {
                return false;
            }
        }
    }
    true
}

// How many links were followed, where the paths of the member's links end where they should and share no cell: a path that meets a used cell ends there,
// which is no image. Left open also where a link is to a cell that the member lacks.
fn quick_links(
    cert: &[u8],
    first: usize,
    count: usize,
    images: &[u8; 15],
    marks: &mut [u8; 28],
    s: &[u8; 28],
) -> Option<u16>
    requires { (member : Shape) × (covered : Shape) × Linking member covered cert.now first count images.now marks.old s.now }
    ensures { (member covered : Shape) → Linking member covered cert.now first count images.now marks.old s.now → IfSome result (PathsFit member covered (images_in count images.now) count) }
{
    let mut links = 0;
    for i in 0..count {
        let p = wide(cert[first + i]);
        if p != 0 {
            if count + 3 <= p {
                return None;
            }
            let from = wide(images[i + 3]);
            // no walk where the link is to the image itself
            if s[from] == images[p] {
                links += 1;
            } else {
                let met = walk(s, marks, wide(s[from]));
                if met.place != wide(images[p]) {
                    return None;
                }
                links += met.links;
            }
        }
    }
    Some(links)
}

// How many links were followed, where so many images from a place on embed the member that starts at a place in a shape. Left open where the test does
// not tell.
pub(crate) fn images_embed(
    cert: &[u8],
    start: usize,
    variables: usize,
    first: usize,
    count: usize,
    s: &[u8; 28],
) -> Option<u16>
    requires { (Whole cert.now variables start) × ((located_at cert.now variables start).shape.facts ≡ []) × (count ≡ get_or cert.now (start + 1) 0) × (first + count ≤ length cert.now) }
    ensures { IfSome result (ImagesEmbed cert.now start variables first count s.now) }
{
    let all = &s[..];
    let n = wide(all[0]);
    if all.len() - 3 < n {
        return None;
    }
    let mut images = NO_IMAGES;
    let mut marks = [0u8; 28];
    if !read_and_mark(cert, first, count, n, &mut images, &mut marks) {
        return None;
    }
    if !quick_vars(cert, start + 2, variables, &images, s) {
        return None;
    }
    quick_links(cert, start + 2 + variables, count, &images, &mut marks, s)
}
