// A run between two commands: how it goes on behind a call and its line, and how it ends.
#![tactic(auto)]

ghost use Rattle.std.specs.Prelude.{◌≡◌, ◌≤◌};
ghost use Rattle.progress.specs.Replying.{onward, stopped, Stopped, progress_of, SameRun, SameHeld, HasLine};

use laying::Writer;
use records::Records;

// A run between two commands: the records and the places as they are lent, the text so far, the next line's number, and whether it goes on.
#[derive(Drop)]
pub struct Run<'a, 'b, 'c> {
    pub records: &'a mut Records<'b>,
    pub places: &'a mut [u8],
    pub text: &'a mut Writer<'c>,
    pub line: usize,
    pub going: bool,
}

impl Run<'_, '_, '_> {
    // It goes on, behind a call and its line.
    pub fn goes_on(&mut self)
        requires { self.old.line ≤ 4097 }
        ensures same { SameRun self.old self.new }
        ensures goes { progress_of self.new ≡ onward (progress_of self.old) self.old.records.now.tree self.old.text.now.end }
        ensures held { SameHeld self.old self.new }
    {
        self.line += 1;
        self.going = true;
    }

    // It is over.
    pub fn ends(&mut self)
        ensures same { SameRun self.old self.new }
        ensures ends { progress_of self.new ≡ stopped (progress_of self.old) self.old.text.now.end }
        ensures held { SameHeld self.old self.new }
    {
        self.going = false;
    }

    // The last line of a stream that ends badly.
    pub fn stop(&mut self, number: u8)
        requires { HasLine self.old 12 }
        ensures same { SameRun self.old self.new }
        ensures stops { Stopped (progress_of self.old) number self.old.text.now.bytes.now (progress_of self.new) self.new.text.now.bytes.now }
        ensures held { (self.new.records.now ≡ self.old.records.now) × (self.new.places.now ≡ self.old.places.now) }
    {
        text::plain_line(self.text, self.line, usize::from(number));
        self.ends();
    }
}
