// The two forms of a rack's memory: document 01's and that of document 02, request 5.
ghost use Rattle.std.specs.Prelude.{◌≡◌, ◌≤◌};
ghost use Rattle.mover.specs.Forms.{width, other, places_in};

use area::layout;

#[derive(Clone, Copy)]
pub enum Form {
    // A number is one word.
    Old,
    // A number is two words, the low one first, as in `area::layout`.
    New,
}

// Where an area of a form has the words that tell whether a release is open on its card and can go on.
// `area::layout` has the table of the new form; specs/Forms.antt has that of both.
#[derive(Clone, Copy)]
pub struct Places {
    // The words of the whole area.
    pub size: usize,
    // Whether a release is open; its steps made; its list.
    pub flag: usize,
    pub steps: usize,
    pub list: usize,
}

impl Form {
    // The words of a number.
    pub fn width(self) -> usize
        ensures { result ≡ width self }
    {
        match self {
            Form::Old => 1,
            Form::New => layout::NUMBER_SIZE,
        }
    }

    // The form that a memory of this one is moved to.
    pub fn other(self) -> Form
        ensures { result ≡ other self }
    {
        match self {
            Form::Old => Form::New,
            Form::New => Form::Old,
        }
    }

    pub fn places(self, pages: u32) -> Places
        ensures { result ≡ places_in (width self) pages }
    {
        let width = self.width();
        let flag = width + layout::DESK_SIZE;
        let steps = flag + 1;
        let records = steps + 1 + width + layout::DESK_SIZE;
        let list = records + (2 * width + 2 * layout::DESK_SIZE) * layout::RECORD_COUNT;
        let size = list + layout::LIST_SIZE + layout::STORED_PAGE_SIZE * pages as usize;
        Places {
            size,
            flag,
            steps,
            list,
        }
    }
}
