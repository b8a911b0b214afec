//! Images of the three rows that a buffer's change touches.

use lt_rows::RowImage;

/// Images of a tree's anchor, of the pool's and of one row more, as they were loaded or as a plan has them.
#[derive(Clone, Copy)]
pub(crate) struct Images {
    pub anchor: RowImage,
    pub pool: RowImage,
    pub row: RowImage,
}
