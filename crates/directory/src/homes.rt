// The card that becomes home to a page that lost one: the live card, other than the home that the
// page keeps, that is home to the fewest pages (document 02, request 4). A caller counts the pages
// of each card once, and one more for each home that it gives out.
ghost use Rattle.std.specs.Prelude.{◌≡◌, ◌<◌, ◌≤◌, IfSome};
ghost use Rattle.laws.specs.Search.{lowest_below};
ghost use Rattle.directory.specs.Directory.{table};
ghost use Rattle.directory.specs.NewHome.{pages_in, pages_at, is_fewest, even_home};
ghost use Rattle.directory.specs.PageCounts.{count_at, one_added, page_more, PagesWithin};
ghost use Rattle.directory.specs.PageCounts.{CountsRight, takes_over};

use crate::Directory;

// Counts one page more for a card. A card past the counts has none. The test is plain, since with
// `get_mut` the proof does not close.
#[tactic(auto, using(crate::proofs::Table::set_past))]
pub fn count_home(counts: &mut [u32], card: u32)
    requires { count_at counts.old card < 64 }
    ensures { counts.new ≡ one_added counts.old card }
{
    let at = card as usize;
    if at < counts.len() {
        counts[at] += 1;
    }
}

// Counts one page more for each of its homes.
#[tactic(auto, using(crate::proofs::Table::set_elsewhere))]
fn count_page(counts: &mut [u32], primary: u32, secondary: u32)
    requires { (count_at counts.old primary < 64) × (count_at counts.old secondary < 64) }
    ensures { counts.new
        ≡ page_more counts.old primary secondary }
{
    count_home(counts, primary);
    if secondary != primary {
        count_home(counts, secondary);
    }
}

// The number of pages that each card is home to, over homes that are lent.
#[tactic(auto, using(crate::proofs::PageCounts::counting_steps))]
fn count_homes(primary: &[u32], secondary: &[u32], pages: u32) -> [u32; 8]
    requires { PagesWithin pages primary.now secondary.now }
    ensures { result ≡ table (pages_in primary.now secondary.now pages) 8 }
{
    let mut counts = [0u32; 8];
    for page in 0..pages as usize {
        count_page(&mut counts, primary[page], secondary[page]);
    }
    counts
}

// Whether a card takes the place of the one found so far: it may take the page, and is home to fewer
// pages. On a tie it does not, since its number is higher.
fn takes_over(live: &[bool; 8], counts: &[u32; 8], kept: u32, found: Option<u32>, card: u32) -> bool
    requires { (card < 8) × IfSome found (λ best. best < 8) }
    ensures { result
        ≡ takes_over live.now (count_at counts.now) kept found card }
{
    let at = card as usize;
    live[at] && card != kept && found.is_none_or(|best| counts[at] < counts[best as usize])
}

// The live card other than `kept` whose count is the least, the lowest number on a tie, if there is
// one; over marks and counts that are lent. No `min_by_key`, which does not say which of two least
// ones it gives.
#[tactic(auto, using(crate::proofs::PageCounts::fewest_of_all))]
fn fewest_home(live: &[bool; 8], counts: &[u32; 8], cards: u32, kept: u32) -> Option<u32>
    requires { cards ≤ 8 }
    ensures { result
        ≡ lowest_below (is_fewest live.now cards (count_at counts.now) kept)
        cards }
{
    let mut found = None;
    for card in 0..cards {
        if takes_over(live, counts, kept, found, card) {
            found = Some(card);
        }
    }
    found
}

impl Directory {
    // The number of pages that each card is home to.
    #[tactic(auto, unfolding(crate::specs::NewHome::pages_at))]
    pub fn count_pages(self) -> [u32; 8]
        requires { self.pages ≤ 64 }
        ensures { result ≡ table (pages_at self) 8 }
    {
        count_homes(&self.primary, &self.secondary, self.pages)
    }

    // The new home of a page that keeps `kept`, or the number of cards if there is none.
    #[tactic(auto, using(crate::proofs::PageCounts::chosen_evenly))]
    pub fn even_home(self, counts: [u32; 8], kept: u32) -> u32
        requires cards_bound { self.cards ≤ 8 }
        requires counts_right { CountsRight self counts }
        ensures { result ≡ even_home self kept }
    {
        let live = self.live;
        fewest_home(&live, &counts, self.cards, kept).unwrap_or(self.cards)
    }
}
