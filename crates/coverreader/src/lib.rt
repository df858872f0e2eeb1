// One cover as it is read, whatever the bytes are.
#![tactic(auto)]

ghost use Rattle.std.specs.Prelude.{◌≤◌, length};
ghost use Rattle.layout.specs.ShapeArray.{links_in};
ghost use Rattle.coverreader.specs.Images.{ImageCodes};
ghost use Rattle.coverreader.specs.Reading.{ImagesRead, CoverIs};

use layout::{cells_held, is_whole};
use number::read_number;
use verdict::{Broken, Refusal, Refused, WRONG_STATE};

// A cover as read: its member's number, the images, from the code of a place to the code of its image, and the next place.
#[derive(Clone, Copy)]
pub struct CoverRead {
    pub member: usize,
    pub images: [u8; 15],
    pub next: usize,
}

// No image is read: nowhere, # and * are their own images, and every cell's is cell 0.
pub const NO_IMAGES: [u8; 15] = [0, 1, 2, 3, 3, 3, 3, 3, 3, 3, 3, 3, 3, 3, 3];

// Reads images, each below n.
fn read_images(
    cert: &[u8],
    first: usize,
    n: usize,
    count: usize,
    images: &mut [u8; 15],
) -> Result<usize, Refused>
    requires { ImageCodes 0 n images.old × (count ≤ 12) × (n ≤ 25) }
    ensures { ImagesRead cert.now first n count result images.new }
{
    let mut at = first;
    for i in 0..count {
        let Ok(c) = read_number(cert, at) else {
            return Err(Refused {
                refusal: Refusal::CertificateUnreadable,
                place: at,
            });
        };
        if n <= c.value {
            return Err(Refused {
                refusal: Refusal::CertificateRange,
                place: at,
            });
        }
        images[i + 3] = c.value as u8 + 3;
        at = c.next;
    }
    Ok(at)
}

// Reads the cover at a place, of the shape in an array.
pub fn read_cover(
    cert: &[u8],
    starts: &[u16],
    variables: usize,
    at: usize,
    s: &[u8; 28],
) -> Result<CoverRead, Refused>
    ensures { CoverIs cert.now variables starts.now at (length (links_in s.now)) result }
{
    let Ok(number) = read_number(cert, at) else {
        return Err(Refused {
            refusal: Refusal::CertificateUnreadable,
            place: at,
        });
    };
    let member = number.value;
    if starts.len() <= member {
        return Err(Refused {
            refusal: Refusal::CertificateRange,
            place: at,
        });
    }
    let start = starts[member] as usize;
    if !is_whole(cert, start, variables) {
        // no member is there: whatever its state would be, it is another
        let other = Broken {
            rule: WRONG_STATE,
            name: 0,
        };
        return Err(Refused {
            refusal: Refusal::CoverFails(other),
            place: at,
        });
    }
    let mut images = NO_IMAGES;
    let cells = cert[start + 1] as usize;
    let next = read_images(cert, number.next, cells_held(s), cells, &mut images)?;
    Ok(CoverRead {
        member,
        images,
        next,
    })
}
