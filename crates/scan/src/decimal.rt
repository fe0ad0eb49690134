// Decimal numbers.
use crate::row::{Group, Items};
use arrayvec::ArrayVec;
use std::str;
use std::str::FromStr;

// The number that an item is. It has no `+`, which `str::parse` allows.
pub(crate) fn parse<T: FromStr>(item: &[u8]) -> Option<T>
where
    T::Err: Drop,
{
    if item.starts_with(b"+") {
        return None;
    }
    str::from_utf8(item).ok()?.parse().ok()
}

impl Items<'_> {
    // The number that the next item is.
    pub fn number<T: FromStr>(&mut self) -> Option<T>
    where
        T::Err: Drop,
    {
        parse(self.next()?)
    }
}

impl Group<'_> {
    // The numbers, if there are at most `N`.
    pub fn numbers<const N: usize>(self) -> Option<ArrayVec<u32, N>> {
        let mut list = ArrayVec::new();
        for item in self.items() {
            list.try_push(parse(item)?).ok()?;
        }
        Some(list)
    }
}
