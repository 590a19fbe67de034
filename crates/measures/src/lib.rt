// A store's measures, and the two units that must not be mixed: row numbers and place numbers.
#![tactic(auto)]

ghost use Rattle.std.specs.Prelude.{◌≡◌, ◌≤◌, ◌<◌};
ghost use Rattle.basics.specs.Decide.{Decides};
ghost use Rattle.measures.specs.Measures.{Within, begins_at};

// L rows of B bytes, in P places.
#[derive(Clone, Copy, PartialEq, Eq)]
pub struct Size {
    pub rows: usize,
    pub width: usize,
    pub places: usize,
}

// A row of a version, counted from 0.
#[derive(Clone, Copy, PartialEq, Eq)]
pub struct Row(pub usize);

// A place of the lent buffer, counted from 0.
#[derive(Clone, Copy, PartialEq, Eq)]
pub struct Place(pub usize);

impl Size {
    // Is each measure within its limits?
    pub fn within(self) -> bool
        ensures { Decides result (Within self) }
    {
        (1..=1024).contains(&self.rows)
            && (1..=1024).contains(&self.width)
            && (self.rows..=4096).contains(&self.places)
    }
}

impl Row {
    // Is it one of so many rows?
    pub fn is_below(self, rows: usize) -> bool
        ensures { Decides result (self.0 < rows) }
    {
        self.0 < rows
    }

    // Where the origin's row is kept for good.
    pub fn home(self) -> Place
        ensures { result.0 ≡ self.0 }
    {
        Place(self.0)
    }

    // Its number as the table holds it.
    pub fn number(self) -> u16
        requires { self.0 < 1024 }
        ensures { result ≡ self.0 }
    {
        self.0 as u16
    }
}

impl Place {
    // Its first byte, where a place has `width`.
    pub fn offset(self, width: usize) -> usize
        requires { (width ≤ 1024) × (self.0 < 4096) }
        ensures { result ≡ begins_at width self.0 }
    {
        self.0 * width
    }
}
