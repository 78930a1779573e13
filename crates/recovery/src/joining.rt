// The area of a card that joins: its own stamp and desk, and the records of the other dead cards.
ghost use Rattle.std.specs.Prelude.{◌≡◌, ◌<◌, length};
ghost use Rattle.laws.specs.Search.{in_turn};
ghost use Rattle.protocol.specs.Join.{reset_area, copy_dead_record};
ghost use Rattle.recovery.specs.Rack.{RackIn, SomeLive};

use area::layout;
use directory::Directory;

// Zeroes a dead card's area and gives it stamp and desk from its record.
pub(crate) fn reset_area(memory: &mut [u32], directory: Directory, card: u32)
    requires rack_in { RackIn directory (length memory.old) }
    requires some_live { SomeLive directory }
    requires card_lt_cards { card < directory.cards }
    ensures { memory.new ≡ reset_area directory card memory.old }
{
    let size = layout::area_size(directory.pages);
    let at = card as usize;
    let holder = directory.next_live(card) as usize;
    let mut desk = [0u32; layout::DESK_SIZE];
    let number = area::records::load_record(memory, size, holder, at, &mut desk);
    memory::clear_run(memory, size, at, 0, size);
    area::numbers::store_number(memory, size, at, layout::OWN_STAMP, number);
    memory::store_run(memory, size, at, layout::OWN_DESK, &desk);
}

// Copies the record of another dead card to the card that joins.
#[tactic(auto, unfolding(protocol::specs::Join::copy_dead_record))]
fn copy_dead_record(memory: &mut [u32], directory: Directory, joining: u32, card: u32)
    requires rack_in { RackIn directory (length memory.old) }
    requires some_live { SomeLive directory }
    requires joining_lt_cards { (joining < directory.cards) × (card < directory.cards) }
    ensures { memory.new
        ≡ copy_dead_record directory joining card memory.old }
{
    let at = card as usize;
    if directory.live[at] || card == joining {
        return;
    }
    let holder = directory.next_live(card) as usize;
    let size = layout::area_size(directory.pages);
    area::records::copy_record(memory, size, holder, joining as usize, at);
}

// Copies the records of all other dead cards.
#[tactic(auto, using(laws::proofs::Search::in_turn_none, laws::proofs::Search::in_turn_more))]
pub(crate) fn copy_dead_records(memory: &mut [u32], directory: Directory, joining: u32)
    requires rack_in { RackIn directory (length memory.old) }
    requires some_live { SomeLive directory }
    requires joining_lt_cards { joining < directory.cards }
    ensures { memory.new
        ≡ in_turn (copy_dead_record directory joining) directory.cards memory.old }
{
    for card in 0..directory.cards {
        copy_dead_record(memory, directory, joining, card);
    }
}
