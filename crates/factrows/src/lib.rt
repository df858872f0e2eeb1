// Facts about the values of at most 14 cells as 28 rows of bits: bit q of row p is set where cell p is below cell q, bit q of row 14 + p where they are
// equal. Cells go by their numbers, and a cell from 14 on is in no fact. Facts stay closed under the laws of order and equality.
// A kind stays the number that the file's byte gives: an enum would be made of it by one test and taken apart by another at every fact.
#![tactic(auto)]

ghost use Rattle.std.specs.Prelude.{◌≡◌, ℕ, ◌^◌, ◌≤◌, ◌<◌, length, get_or};
ghost use Rattle.factrows.specs.Rows.{on, either_on, has_fact, no_facts, is_consistent, self_rows, up_of, below_row, below_rows, class_of, over_of, some_of, equal_row, equal_rows, class_row, class_rows, with_kind, with_fact, at_most, clashing, off_row, without_cell, shrink, shrunk_rows, moved_rows, lowered};
ghost use Rattle.factrows.specs.Listed.{count, closed, image_cell, holds_at, holds_all, holds_for, cell_holds, first_missing};

use number::wide;

// Whether bit j of a row is set.
fn is_on(row: u16, j: usize) -> bool
    requires { j < 16 }
    ensures { result ≡ on row j }
{
    (row >> j) % 2 == 1
}

// Whether bit c or bit d of a row is set.
fn is_either_on(row: u16, c: usize, d: usize) -> bool
    requires { (c < 16) × (d < 16) }
    ensures { result ≡ either_on row c d }
{
    is_on(row, c) || is_on(row, d)
}

// The row with bit j alone.
fn bit(j: usize) -> u16
    requires { j < 16 }
    ensures { result ≡ 2 ^ j }
{
    1u16 << j
}

// Whether a fact is there: of kind 0, cell p is below cell q; of kind 1, they are equal.
pub fn has_fact(rows: &[u16; 28], kind: usize, p: usize, q: usize) -> bool
    ensures { result ≡ has_fact rows.now kind p q }
{
    if 14 <= p || 14 <= q {
        return false;
    }
    match kind {
        0 => is_on(rows[p], q),
        1 => is_on(rows[14 + p], q),
        _ => false,
    }
}

// Drops all facts.
fn clear(rows: &mut [u16; 28])
    ensures { rows.new ≡ no_facts }
{
    *rows = [0; 28];
}

// Whether no cell is below itself.
pub fn is_consistent(rows: &[u16; 28]) -> bool
    ensures { result ≡ is_consistent rows.now }
{
    (0..14).all(|p| !is_on(rows[p], p))
}

// Puts in place of each row what `next` makes of it, given its place among them.
fn each_row<F: Fn(usize, u16) -> u16>(rows: &mut [u16], next: F)
    requires { (j x : ℕ) → j < length rows.old → x < 65536 → F.pre next j x }
    ensures made { (j : ℕ) → j < length rows.old → F.post next j (get_or rows.old j 0) (get_or rows.new j 0) }
{
    for (j, row) in rows.iter_mut().enumerate() {
        *row = next(j, *row);
    }
}

// Adds that a cell equals itself.
fn put_self(rows: &mut [u16; 28], c: usize)
    requires { c < 14 }
    ensures { rows.new ≡ self_rows c rows.old }
{
    rows[14 + c] = rows[14 + c] | bit(c);
}

// The cells that d is equal to, or below.
fn up_of(rows: &[u16; 28], d: usize) -> u16
    requires { d < 14 }
    ensures { result ≡ up_of rows.now d }
{
    rows[d] | rows[14 + d]
}

// A row of below, when c is put below what stands in up. One test, so that a loop over rows is compiled to vectors.
fn below_row(lt: u16, eq: u16, c: usize, up: u16) -> u16
    requires { c < 14 }
    ensures { result ≡ below_row lt eq c up }
{
    if is_on(lt | eq, c) {
        return lt | up;
    }
    lt
}

// The rows of below, when c is put below d. By numbers, since each is made with the row of equal beside it.
fn below_rows(rows: &mut [u16; 28], c: usize, d: usize)
    requires { (c < 14) × (d < 14) }
    ensures { rows.new ≡ below_rows c d rows.old }
{
    let up = up_of(rows, d);
    for p in 0..14 {
        rows[p] = below_row(rows[p], rows[14 + p], c, up);
    }
}

// Adds that c is below d.
fn add_below(rows: &mut [u16; 28], c: usize, d: usize)
    requires { (c < 14) × (d < 14) }
    ensures { rows.new ≡ with_kind rows.old 0 c d }
{
    put_self(rows, c);
    put_self(rows, d);
    below_rows(rows, c, d);
}

// The cells that equal c or d, and the two.
fn class_of(rows: &[u16; 28], c: usize, d: usize) -> u16
    requires { (c < 14) × (d < 14) }
    ensures { result ≡ class_of rows.now c d }
{
    (rows[14 + c] | rows[14 + d]) | (bit(c) | bit(d))
}

// The cells that c or d is below.
fn over_of(rows: &[u16; 28], c: usize, d: usize) -> u16
    requires { (c < 14) × (d < 14) }
    ensures { result ≡ over_of rows.now c d }
{
    rows[c] | rows[d]
}

// What the cells of the class of c and d are below: also the class, if one of the two is below one of them.
fn some_of(class: u16, over: u16, c: usize, d: usize) -> u16
    requires { (c < 14) × (d < 14) }
    ensures { result ≡ some_of class over c d }
{
    if is_either_on(over, c, d) {
        return over | class;
    }
    over
}

// The row of below of cell p, when c and d are put equal.
fn equal_row(lt: u16, p: usize, c: usize, d: usize, class: u16, all: u16, some: u16) -> u16
    requires { (p < 14) × (c < 14) × (d < 14) }
    ensures { result ≡ equal_row lt p c d class all some }
{
    if is_either_on(lt, c, d) {
        return lt | all;
    }
    if is_on(class, p) {
        return lt | some;
    }
    lt
}

// The rows of below, when c and d are put equal.
fn equal_rows(rows: &mut [u16; 28], c: usize, d: usize)
    requires { (c < 14) × (d < 14) }
    ensures { rows.new ≡ equal_rows c d rows.old }
{
    let class = class_of(rows, c, d);
    let over = over_of(rows, c, d);
    let all = over | class;
    let some = some_of(class, over, c, d);
    each_row(
        &mut rows[..14],
        |p, row| equal_row(row, p, c, d, class, all, some),
    );
}

// The row of equal of cell p, when the cells of a class are put equal.
fn class_row(eq: u16, p: usize, class: u16) -> u16
    requires { p < 14 }
    ensures { result ≡ class_row eq p class }
{
    if is_on(class, p) {
        return eq | class;
    }
    eq
}

// The rows of equal, when the cells of a class are put equal.
fn class_rows(rows: &mut [u16; 28], class: u16)
    ensures { rows.new ≡ class_rows class rows.old }
{
    each_row(&mut rows[14..], |p, row| class_row(row, p, class));
}

// Adds that c equals d.
fn add_equal(rows: &mut [u16; 28], c: usize, d: usize)
    requires { (c < 14) × (d < 14) }
    ensures { rows.new ≡ with_kind rows.old 1 c d }
{
    let class = class_of(rows, c, d);
    equal_rows(rows, c, d);
    class_rows(rows, class);
}

// Adds a fact, and all that follows with it: of kind 0, cell c is below cell d; of kind 1, they are equal.
pub fn add_fact(rows: &mut [u16; 28], kind: usize, c: usize, d: usize)
    ensures { rows.new ≡ with_fact rows.old kind c d }
{
    if 14 <= c || 14 <= d {
        return;
    }
    match kind {
        0 => add_below(rows, c, d),
        1 => add_equal(rows, c, d),
        _ => {}
    }
}

// Whether p is q, or equal to it, or below it.
fn at_most(rows: &[u16; 28], p: usize, q: usize) -> bool
    requires { (p < 14) × (q < 14) }
    ensures { result ≡ at_most rows.now p q }
{
    p == q || is_on(up_of(rows, p), q)
}

// Whether a fact would put a cell below itself, where none is so far.
pub fn clashes(rows: &[u16; 28], kind: usize, c: usize, d: usize) -> bool
    ensures { result ≡ clashing rows.now kind c d }
{
    if 14 <= c || 14 <= d {
        return false;
    }
    match kind {
        0 => at_most(rows, d, c),
        1 => is_either_on(over_of(rows, c, d), c, d),
        _ => false,
    }
}

// A row without a bit.
fn off(row: u16, c: usize) -> u16
    requires { c < 14 }
    ensures { result ≡ off_row row c }
{
    let b = bit(c);
    (row | b) ^ b
}

// Drops the facts of cell c: the others' first, in a loop without a test, which is compiled to vectors.
pub fn drop_cell(rows: &mut [u16; 28], c: usize)
    ensures { rows.new ≡ without_cell c rows.old }
{
    if 14 <= c {
        return;
    }
    each_row(rows, |_, row| off(row, c));
    rows[c] = 0;
    rows[14 + c] = 0;
}

// A row without the place of bit c: higher bits move down by one.
fn shrunk(row: u16, c: usize) -> u16
    requires { c < 14 }
    ensures { result ≡ shrink row c }
{
    let high = row >> c;
    ((high >> 1) << c) | (row - (high << c))
}

// Every row without the place of bit c.
fn shrink_rows(rows: &mut [u16; 28], c: usize)
    requires { c < 14 }
    ensures { rows.new ≡ shrunk_rows c rows.old }
{
    each_row(rows, |_, row| shrunk(row % 16384, c));
}

// Rows from one on take the next, up to the last, which is then empty.
fn move_rows(rows: &mut [u16; 28], first: usize, last: usize)
    requires { (first ≤ last) × (last < 28) }
    ensures { rows.new ≡ moved_rows first last rows.old }
{
    for j in first..last {
        rows[j] = rows[j + 1];
    }
    rows[last] = 0;
}

// Takes cell c out: its facts go, and higher cells move down by one.
pub fn remove_cell(rows: &mut [u16; 28], c: usize)
    ensures { rows.new ≡ lowered c rows.old }
{
    if 14 <= c {
        return;
    }
    shrink_rows(rows, c);
    move_rows(rows, c, 13);
    move_rows(rows, 14 + c, 27);
}

// Puts the facts listed in bytes, and all that follows from them, in place of those that are there. Here and below listed facts go by their numbers, as
// the definitions that the contracts name have them, not by pieces of three bytes.
pub fn close(rows: &mut [u16; 28], s: &[u8])
    ensures { rows.new ≡ closed s.now }
{
    clear(rows);
    for i in (0..s.len() / 3).rev() {
        add_fact(rows, wide(s[3 * i]), wide(s[3 * i + 1]), wide(s[3 * i + 2]));
    }
}

// The number of the cell that is the image of cell p, by an array from codes to codes; that of a cell which a member lacks is cell 0.
fn image_cell(images: &[u8; 15], p: usize) -> usize
    ensures { result ≡ image_cell images.now p }
{
    if 12 <= p {
        return 0;
    }
    let code = wide(images[p + 3]);
    if code < 3 {
        return 14;
    }
    code - 3
}

// Whether listed fact i is there when each cell is taken for its image.
fn holds_at(rows: &[u16; 28], s: &[u8], images: &[u8; 15], i: usize) -> bool
    requires { i < count s.now }
    ensures { result ≡ holds_at rows.now s.now images.now i }
{
    let p = image_cell(images, wide(s[3 * i + 1]));
    let q = image_cell(images, wide(s[3 * i + 2]));
    has_fact(rows, wide(s[3 * i]), p, q)
}

// Whether all listed facts are there when each cell is taken for its image.
pub fn holds_all(rows: &[u16; 28], s: &[u8], images: &[u8; 15]) -> bool
    ensures { result ≡ holds_all rows.now s.now images.now }
{
    (0..s.len() / 3).all(|i| holds_at(rows, s, images, i))
}

// The same for fact i, if its first cell is cell p.
fn holds_for(rows: &[u16; 28], s: &[u8], images: &[u8; 15], p: usize, i: usize) -> bool
    requires { i < count s.now }
    ensures { result ≡ holds_for rows.now s.now images.now p i }
{
    wide(s[3 * i + 1]) != p || holds_at(rows, s, images, i)
}

// The same for all facts whose first cell is cell p.
fn cell_holds(rows: &[u16; 28], s: &[u8], images: &[u8; 15], p: usize) -> bool
    ensures { result ≡ cell_holds rows.now s.now images.now p }
{
    (0..s.len() / 3).all(|i| holds_for(rows, s, images, p, i))
}

// The lowest first cell, of n, of a listed fact that is missing when each cell is taken for its image; n where none is.
pub fn first_missing(rows: &[u16; 28], s: &[u8], images: &[u8; 15], n: usize) -> usize
    ensures { result ≡ first_missing rows.now s.now images.now n }
{
    for p in 0..n {
        if !cell_holds(rows, s, images, p) {
            return p;
        }
    }
    n
}
