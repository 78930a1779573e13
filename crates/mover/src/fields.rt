// Fields moved from one memory into another: numbers, of which the low word is kept, and words that are
// the same in each form.
ghost use Rattle.std.specs.Prelude.{◌≡◌, [], ◌∷◌, length};
ghost use Rattle.area.specs.Prelude.{record_count};
ghost use Rattle.mover.specs.Forms.{width, other};
ghost use Rattle.mover.specs.Fields.{number, words, repeated, record_fields, head_fields};
ghost use Rattle.mover.specs.Fields.{area_fields, rack_fields, moved};
ghost use Rattle.mover.specs.Moving.{RackMemories, Room, Moved};

use crate::forms::Form;
use area::layout;

// A move that is under way.
#[derive(Drop)]
struct Mover<'a> {
    source: &'a [u32],
    from: Form,
    target: &'a mut [u32],
    to: Form,
    // The words of the source that it has read, and those of the target that it has written.
    read: usize,
    written: usize,
}

impl Mover<'_> {
    // Moves a number: its low word is kept, and the high word, where the target's form has one, is 0.
    fn number(&mut self)
        requires { Room (number ∷ []) self.old }
        ensures { Moved (number ∷ []) self.old self.new }
    {
        let number = [self.source[self.read], 0];
        let width = self.to.width();
        memory::store_run_in(self.target, self.written, &number[..width]);
        self.read += self.from.width();
        self.written += width;
    }

    // Moves words that are the same in each form.
    #[tactic(auto, unfolding(crate::specs::Fields::moved))]
    fn words(&mut self, n: usize)
        requires { Room (words n ∷ []) self.old }
        ensures { Moved (words n ∷ []) self.old self.new }
    {
        let end = self.read + n;
        memory::store_run_in(self.target, self.written, &self.source[self.read..end]);
        self.read = end;
        self.written += n;
    }

    // Own stamp, own desk, release open, steps made; the open release's number and desk.
    fn head(&mut self)
        requires { Room head_fields self.old }
        ensures { Moved head_fields self.old self.new }
    {
        self.number();
        self.words(layout::DESK_SIZE + 2);
        self.number();
        self.words(layout::DESK_SIZE);
    }

    // Stamp, done mark and desks.
    fn record(&mut self)
        requires { Room record_fields self.old }
        ensures { Moved record_fields self.old self.new }
    {
        self.number();
        self.number();
        self.words(2 * layout::DESK_SIZE);
    }

    fn records(&mut self)
        requires { Room (repeated record_count record_fields) self.old }
        ensures { Moved (repeated record_count record_fields) self.old self.new }
    {
        for _ in 0..layout::RECORD_COUNT {
            self.record();
        }
    }

    // Its head, the records of eight cards, list and pages.
    fn area(&mut self, pages: u32)
        requires { Room (area_fields pages) self.old }
        ensures { Moved (area_fields pages) self.old self.new }
    {
        self.head();
        self.records();
        self.words(layout::LIST_SIZE + layout::STORED_PAGE_SIZE * pages as usize);
    }

    fn rack(&mut self, cards: u32, pages: u32)
        requires { Room (rack_fields cards pages) self.old }
        ensures { Moved (rack_fields cards pages) self.old self.new }
    {
        for _ in 0..cards {
            self.area(pages);
        }
    }
}

// The whole memory of a rack, into one of the other form.
pub fn move_memory(source: &[u32], from: Form, target: &mut [u32], cards: u32, pages: u32)
    requires { RackMemories from cards pages (length source.now) (length target.old) }
    ensures { target.new
        ≡ moved (width from) (width (other from)) (rack_fields cards pages) source.now }
{
    let mut mover = Mover {
        source,
        from,
        target,
        to: from.other(),
        read: 0,
        written: 0,
    };
    mover.rack(cards, pages);
}
