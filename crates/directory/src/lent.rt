// A directory whose homes are lent: it is small enough to be handed on by value, where a directory
// would be copied at each call.
ghost use Rattle.directory.specs.Directory.{FullHomes};

use crate::Header;

#[derive(Clone, Copy)]
pub struct LentDirectory<'a> {
    pub header: Header,
    pub primary: &'a [u32; 64],
    pub secondary: &'a [u32; 64],
    ghost homes_full: { FullHomes primary.now secondary.now },
}
