//! Why some bytes aren't an image.

use subset_decode::DecodeFault;
use thiserror::Error;

/// Which field of the header is out of range. If several are, the first in this order is named.
#[derive(Clone, Copy, Debug, PartialEq, Eq)]
pub enum Which {
    /// The code is longer than 1,048,576 bytes.
    Code,
    /// There are no functions, or more than 1,024.
    Functions,
    /// The sled map has more than 4,096 entries.
    Sleds,
    /// The index of the entry function isn't below the number of functions.
    Entry,
    /// The base address isn't a multiple of 16, or is above 0x7FFF00000000.
    Base,
}

/// Why `read_image` gives no image. If several of these apply, the first in this order is the
/// answer, with one exception: in a file of 64 bytes or more, `Magic`, `Version` and `Limit` come
/// before `Short`, since the header's counts say how long the file has to be.
#[derive(Clone, Copy, Debug, PartialEq, Eq, Error)]
pub enum ImageFault {
    /// The file has fewer than 64 bytes, or ends before the parts that its counts announce.
    #[error("the file is too short")]
    Short,
    /// The file doesn't begin with `XRIM`.
    #[error("the file doesn't begin with XRIM")]
    Magic,
    /// The container's version isn't 1.
    #[error("the version isn't known")]
    Version,
    /// A field of the header is out of range.
    #[error("the header's field is out of range: {0:?}")]
    Limit(Which),
    /// Bytes follow the last map entry.
    #[error("bytes follow the last entry")]
    Trailing,
    /// No instruction stands at this place of the code, and no sled begins there. Places are bytes
    /// from the code's start.
    #[error("no instruction at {0}: {1}")]
    Code(u32, DecodeFault),
    /// What begins as a sled at this place of the code isn't a whole sled, or it has an odd
    /// address. Places are bytes from the code's start.
    #[error("no sled at {0}")]
    Sled(u32),
    /// The function of this number, from 0, has a bad start or a bad name. It has to begin at a
    /// unit: the first function at the base address, and each other one above the function before
    /// it. Its name has one or more bytes, all of them letters, digits, `_`, `.` or `$`, and no
    /// earlier function has the same name.
    #[error("function {0} has a bad start or a bad name")]
    Names(u32),
    /// The map entry and the sled of this number, from 0 in ascending address, differ in their
    /// addresses, or only one of them exists.
    #[error("map entry {0} and sled {0} differ in address, or one is missing")]
    MapOrder(u32),
    /// The map entry of this number, from 0, doesn't fit its sled. It names another function than
    /// the one that the sled lies in, has a kind that doesn't fit the sled's first bytes, or has a
    /// version of 3 or more.
    #[error("entry {0} doesn't fit its sled")]
    Odd(u32),
    /// The trampoline for the sled of this map entry, from 0, is too far away. A call or jump
    /// reaches as far from the sled's end as 32 bits allow.
    #[error("entry {0} is too far from its trampoline")]
    Far(u32),
    /// The branch at this place of the code goes to no unit's address. Places are bytes from the
    /// code's start.
    #[error("the branch at {0} goes to no unit")]
    Target(u32),
    /// Memory for the tables of the image was refused.
    #[error("out of memory")]
    NoMemory,
}
