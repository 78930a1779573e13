// A directory whose homes are lent, as many of them as its pages need or more.
use directory::Header;

#[derive(Clone, Copy)]
pub(crate) struct DirectoryView<'a> {
    pub header: Header,
    pub primary: &'a [u32],
    pub secondary: &'a [u32],
}
