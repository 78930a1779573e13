// What a table of prices has of each: it takes 8 bytes, where a price takes 12.
ghost use Rattle.std.specs.Prelude.{◌≡◌};
ghost use Rattle.reader.specs.Labels.{labeled, unlabeled};

use diff::Price;

// A price beside the label of its word. The labels of document 01 are below 2048; of one that does not
// fit the low 32 bits are kept.
#[derive(Clone, Copy)]
pub struct LabeledPrice {
    pub label: u32,
    pub price: u32,
}

impl LabeledPrice {
    pub fn new(price: Price) -> LabeledPrice
        ensures { result ≡ labeled price }
    {
        LabeledPrice {
            label: price.page.wrapping_mul(32).wrapping_add(price.word),
            price: price.price,
        }
    }

    // The price by page and word, which a label that fits gives back.
    pub fn unlabeled(self) -> Price
        ensures { result ≡ unlabeled self }
    {
        Price {
            page: self.label / 32,
            word: self.label % 32,
            price: self.price,
        }
    }
}
