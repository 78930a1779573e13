// The numbers of a diff's words. specs/Format.antt has the words that they make.

// The words of a page.
pub const PAGE_WORDS: usize = 32;

// How many pages there may be.
pub const MOST_PAGES: u32 = 64;

// How many words a list may have, the end word among them.
pub const MOST_WORDS: usize = 512;

// A word's kind is its top four bits: the word divided by this. The remainder is a page's number, a
// run's offset and count, or the end word's own index.
pub const KIND: u32 = 0x10000000;

// The kinds.
pub const PAGE: u32 = 1;

pub const RUN: u32 = 2;

pub const END: u32 = 15;

// The lowest word of each kind.
pub const PAGE_WORD: u32 = PAGE * KIND;

pub const RUN_WORD: u32 = RUN * KIND;

pub const END_WORD: u32 = END * KIND;

// A run word has the offset, below OFFSETS, above the count: multiplied by OFFSET.
pub const OFFSET: u32 = 0x10000;

pub const OFFSETS: u32 = 0x1000;
