// Records written: the failed card's on every live card, and on backups those made from a card's own
// stamp and desk.
ghost use Rattle.std.specs.Prelude.{◌≡◌, ◌<◌, ◌≤◌, length};
ghost use Rattle.laws.specs.Search.{in_turn};
ghost use Rattle.directory.specs.Directory.{header_of, backup_of};
ghost use Rattle.area.specs.Prelude.{release_of, area_size, desk_size, record_size, write_own_record};
ghost use Rattle.protocol.specs.Release.{size_of};
ghost use Rattle.protocol.specs.Recovery.{write_records};
ghost use Rattle.release.specs.Stepping.{CardIn};
ghost use Rattle.recovery.specs.Rack.{RackIn, SomeLive, backed_by, store_failed};

use area::layout;
use directory::{Directory, Header};

// Stores the record of a failed card, given by its words, on one card, if that is live.
fn write_failed(memory: &mut [u32], header: Header, failed: usize, words: &[u32], holder: u32)
    requires card_in { CardIn header.live (length memory.old) (area_size header.pages) holder }
    requires pages_bound { (header.pages ≤ 64) × (failed < 8) × (length words.now ≡ record_size) }
    ensures { memory.new
        ≡ store_failed header failed words.now holder memory.old }
{
    if header.is_live(holder) {
        let size = layout::area_size(header.pages);
        let record = layout::record_at(failed);
        memory::store_run(memory, size, holder as usize, record, words);
    }
}

// Stores the record of a failed card on every live card.
#[tactic(auto, using(laws::proofs::Search::in_turn_none, laws::proofs::Search::in_turn_more))]
fn write_failed_records(memory: &mut [u32], directory: Directory, failed: usize, words: &[u32])
    requires rack_in { RackIn directory (length memory.old) }
    requires failed_bound { (failed < 8) × (length words.now ≡ record_size) }
    ensures { memory.new
        ≡ in_turn (store_failed (header_of directory) failed words.now) directory.cards
        memory.old }
{
    let header = directory.header();
    for holder in 0..directory.cards {
        write_failed(memory, header, failed, words, holder);
    }
}

// Writes the record of a live card, if its backup by the directory `before` is `backup`, on its
// backup by the directory `after`.
#[tactic(auto, unfolding(area::specs::Record::write_own_record))]
fn write_own_record(
    memory: &mut [u32],
    live: &[bool],
    before: Directory,
    after: Directory,
    backup: u32,
    card: u32,
)
    requires rack_in { RackIn after (length memory.old) }
    requires some_live { SomeLive after }
    requires card_lt_cards { (card < after.cards) × (length live.now ≡ 8) }
    ensures { memory.new
        ≡ write_own_record (size_of after) (backed_by live.now before backup)
        (backup_of after) card memory.old }
{
    let at = card as usize;
    if live[at] && before.backup(card) == backup {
        let holder = after.backup(card) as usize;
        area::records::copy_own_record(memory, layout::area_size(after.pages), holder, at);
    }
}

// Writes the records of the live cards whose backup by the directory `before` is `backup`.
#[tactic(auto, using(laws::proofs::Search::in_turn_none, laws::proofs::Search::in_turn_more))]
pub(crate) fn write_own_records(
    memory: &mut [u32],
    live: &[bool],
    before: Directory,
    after: Directory,
    backup: u32,
)
    requires rack_in { RackIn after (length memory.old) }
    requires some_live { SomeLive after }
    requires live_len { length live.now ≡ 8 }
    ensures { memory.new
        ≡ in_turn
        (write_own_record (size_of after) (backed_by live.now before backup)
        (backup_of after))
        after.cards memory.old }
{
    for card in 0..after.cards {
        write_own_record(memory, live, before, after, backup, card);
    }
}

// Writes the record of the failed card on every live card, and the records of the cards whose
// backup it was on their new backups.
pub(crate) fn write_records(
    memory: &mut [u32],
    directory: Directory,
    failed: u32,
    number: u64,
    desk: &[u32],
)
    requires rack_in { RackIn directory (length memory.old) }
    requires some_live { SomeLive directory }
    requires failed_bound { (failed < 8) × (length desk.now ≡ desk_size) }
    ensures { memory.new
        ≡ write_records directory failed (release_of number desk.now)
        memory.old }
{
    let live = directory.live;
    let before = directory.mark_live(failed);
    let words = area::records::settled_record(number, desk);
    write_failed_records(memory, directory, failed as usize, &words);
    write_own_records(memory, &live, before, directory, failed);
}
