// The four suite lists of a row, which stand in groups one after the other.
use arrayvec::ArrayVec;
use scan::Groups;

// The most entries of a list that are understood.
const ENTRIES: usize = 32;

#[derive(Debug, PartialEq, Eq, Drop)]
pub(crate) struct Lists {
    pub(crate) our_verifiers: ArrayVec<u32, ENTRIES>,
    pub(crate) peer_provers: ArrayVec<u32, ENTRIES>,
    pub(crate) peer_verifiers: ArrayVec<u32, ENTRIES>,
    pub(crate) our_provers: ArrayVec<u32, ENTRIES>,
}

impl Lists {
    // The lists that the next four groups are.
    pub(crate) fn read(groups: &mut Groups<'_>) -> Option<Lists> {
        Some(Lists {
            our_verifiers: groups.next()?.numbers()?,
            peer_provers: groups.next()?.numbers()?,
            peer_verifiers: groups.next()?.numbers()?,
            our_provers: groups.next()?.numbers()?,
        })
    }
}
