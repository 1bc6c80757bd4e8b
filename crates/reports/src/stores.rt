// The four stores that a call on a book is lent.
use crate::header::Sizes;
use constants::Cell;

#[derive(Drop)]
pub struct Stores<'a> {
    pub table: &'a mut [u32],
    pub terms: &'a mut [Cell],
    pub work: &'a mut [Cell],
    pub index: &'a mut [u32],
}

impl<'a> Stores<'a> {
    // The first cells of each, so many; None where one of them has fewer.
    pub fn first(self, sizes: Sizes) -> Option<Stores<'a>> {
        Some(Stores {
            table: self.table.get_mut(..sizes.table)?,
            terms: self.terms.get_mut(..sizes.terms)?,
            work: self.work.get_mut(..sizes.work)?,
            index: self.index.get_mut(..sizes.index)?,
        })
    }
}

// What a call left in the four stores.
#[derive(Clone, Copy)]
pub struct Kept<'a> {
    pub table: &'a [u32],
    pub terms: &'a [Cell],
    pub work: &'a [Cell],
    pub index: &'a [u32],
}
