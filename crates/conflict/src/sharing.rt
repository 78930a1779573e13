// Refusal 8: a word of the list that another card's open release prices.
ghost use Rattle.std.specs.Prelude.{◌≡◌, ◌<◌, ◌≤◌, length};
ghost use Rattle.laws.specs.Search.{lowest_below};
ghost use Rattle.area.specs.Prelude.{MemoryOf};
ghost use Rattle.diff.specs.Prices.{label_of, prices_of};
ghost use Rattle.protocol.specs.Opening.{shares_with};
ghost use Rattle.conflict.specs.Marks.{marked};
ghost use Rattle.conflict.specs.Sharing.{marks_with};

use directory::Header;
use reader::Prices;

// Marks the label of each word that a list prices.
#[tactic(auto, unfolding(crate::specs::Marks::marked))]
fn mark_labels(list: &[u32], pages: u32, marks: &mut [bool; 2048])
    requires { (length list.now ≤ 512) × (pages ≤ 64) }
    ensures { marks.new
        ≡ marked label_of (prices_of pages list.now) marks.old }
{
    for price in Prices::new(list, pages) {
        marks[price.label() as usize] = true;
    }
}

// Walks over the other cards and their lists, up to the first word whose label is marked. That form, a
// walk within a walk that is left by a label, is a rule of the project.
fn walk_lists(memory: &[u32], header: Header, card: u32, named: &[bool; 2048]) -> Option<u32>
    requires { MemoryOf header (length memory.now) }
    ensures { result
        ≡ lowest_below
        (marks_with header.live header.pages memory.now card named.now)
        header.cards }
{
    let mut found = None;
    'cards: for other in 0..header.cards {
        if crate::is_other(memory, header, card, other) {
            let list = crate::open_list(memory, header, other);
            for price in Prices::new(list, header.pages) {
                if named[price.label() as usize] {
                    found = Some(other);
                    break 'cards;
                }
            }
        }
    }
    found
}

// The lowest other card whose open release prices a word that the list prices too. Mostly no other
// release is open, and nothing is marked.
pub fn lowest_sharing(memory: &[u32], header: Header, card: u32, list: &[u32]) -> Option<u32>
    requires memory_of { MemoryOf header (length memory.now) }
    requires list_len_bound { length list.now ≤ 512 }
    ensures { result
        ≡ lowest_below
        (shares_with header.live header.pages memory.now card list.now)
        header.cards }
{
    if !crate::any_other(memory, header, card) {
        return None;
    }
    let mut named = [false; 2048];
    mark_labels(list, header.pages, &mut named);
    walk_lists(memory, header, card, &named)
}
