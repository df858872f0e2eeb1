// The place type: where a variable or a link stands, and tests of places.
#![tactic(auto)]

ghost use Rattle.std.specs.Prelude.{◌≡◌, ◌≤◌, ◌-◌, SomeIff};
ghost use Rattle.heap.specs.Codes.{link_in};
ghost use Rattle.lists.specs.List.{absent};
ghost use Rattle.place.specs.Place.{cell_place, both_nowhere};

// The codes of places: "Nowhere, # and * are the codes 0, 1 and 2 of a place; cell i is 3 + i." They are bytes, as the slots of arrays are. The places of the
// same names in `Place` are made of them.
pub const NOWHERE: u8 = 0;

pub const NULL: u8 = 1;

pub const DANGLING: u8 = 2;

pub const FIRST_CELL: u8 = 3;

// A place by its code: nowhere, # (null), * (dangling), or a cell.
#[derive(Clone, Copy, PartialEq, Eq)]
pub struct Place {
    pub code: u8,
}

impl Place {
    pub const NOWHERE: Self = Self { code: NOWHERE };

    pub const NULL: Self = Self { code: NULL };

    pub const DANGLING: Self = Self { code: DANGLING };

    // The cell with a number; nowhere for a number above 252, which has no code.
    pub fn cell(i: u8) -> Self
        ensures { result ≡ cell_place i }
    {
        match i {
            0..=252 => Self {
                code: FIRST_CELL + i,
            },
            _ => Self::NOWHERE,
        }
    }

    // The number of the cell; none at nowhere, # and *.
    pub fn cell_index(self) -> Option<usize>
        ensures { SomeIff result (3 ≤ self.code) (self.code - 3) }
    {
        match self.code {
            FIRST_CELL.. => Some(usize::from(self.code - FIRST_CELL)),
            _ => None,
        }
    }
}

// Whether none of the places is that one.
#[tactic(auto, using(crate::proofs::Absent::none_there))]
pub fn none_at(places: &[u8], code: u8) -> bool
    ensures { result ≡ absent code places.now }
{
    !places.contains(&code)
}

// The link of the cell at p; nowhere if there is none.
pub fn link_at(links: &[u8], p: Place) -> Place
    ensures { result.code ≡ link_in links.now p.code }
{
    match p.cell_index() {
        Some(i) if i < links.len() => Place { code: links[i] },
        _ => Place::NOWHERE,
    }
}

// Whether two variables, at x and at y, are both nowhere; `same` says that they are one variable and not two.
#[tactic(auto, unfolding(crate::specs::Place::both_nowhere))]
pub fn both_nowhere(same: bool, x: Place, y: Place) -> bool
    ensures { result ≡ both_nowhere same x.code y.code }
{
    x == Place::NOWHERE && y == Place::NOWHERE && !same
}
