// Tables of prices: with a page that no label holds, and with labels.
use crate::{LabeledPrice, list_labeled_prices, list_prices};
use diff::Price;

// One price, of word 5 of page 2^27, among 2^28 - 1 pages.
const PAGES: u32 = 0x0FFFFFFF;

const FAR_PAGE: [u32; 4] = [0x18000000, 0x20050001, 700, 0xF0000003];

// Two prices, of words 0 and 1 of page 1.
const PAGE_1: [u32; 5] = [0x10000001, 0x20000002, 700, 701, 0xF0000004];

#[test]
fn any_page_is_listed(rt: HostRuntime) {
    let kept = Price {
        page: 9,
        word: 9,
        price: 9,
    };
    let mut prices = [kept; 512];
    assert_eq!(rt; list_prices(&FAR_PAGE, PAGES, &mut prices), 1);
    assert_eq!(rt; prices[0].page, 0x08000000);
    assert_eq!(rt; prices[0].word, 5);
    assert_eq!(rt; prices[0].price, 700);
    assert_eq!(rt; prices[1].price, 9);
    assert_eq!(rt; list_prices(&PAGE_1, 2, &mut prices), 2);
    assert_eq!(rt; prices[1].page, 1);
    assert_eq!(rt; prices[1].word, 1);
    assert_eq!(rt; prices[1].price, 701);
}

#[test]
fn labels_stand_beside_prices(rt: HostRuntime) {
    let kept = LabeledPrice { label: 9, price: 9 };
    let mut prices = [kept; 512];
    assert_eq!(rt; list_labeled_prices(&PAGE_1, 2, &mut prices), 2);
    assert_eq!(rt; prices[1].label, 33);
    assert_eq!(rt; prices[1].price, 701);
    assert_eq!(rt; prices[2].label, 9);
    assert_eq!(rt; list_labeled_prices(&FAR_PAGE, PAGES, &mut prices), 1);
    assert_eq!(rt; prices[0].label, 5);
}
